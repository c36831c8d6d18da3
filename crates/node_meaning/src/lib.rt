//! What typed nodes do: they are a language of their own, whose functions do what the functions of the module do for which
//! they stand.
//!
//! `specs/Nodes.antt` is the language, and the lemma `func_alike` of `proofs/Alike` says that its functions are those of the
//! module. A stage of lowering rewrites nodes; so it speaks of this language.
#![tactic(auto)]
