//! A small stage over the language of 3.0, by the combinators alone: each test of a reference for null becomes a call of a
//! function behind the others, which keeps its answer in a global behind the others.
#![tactic(auto)]
