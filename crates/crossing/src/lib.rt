//! The crossing from 3.0 to 1.0: of a module that needs nothing of 3.0 but typed selects the module of 1.0 that spells the
//! same, and the theorem that both do the same, turn for turn.
//!
//! `specs/Code.antt` and `specs/Modules.antt` say what becomes of code and of a module, `specs/Crossing.antt` which modules
//! cross and what the theorem says, and `specs/InStep.antt` when code goes in step with other code. The one layer is in
//! `proofs/Layers.antt`, the induction over code and functions in `proofs/Instructions.antt`, the host in
//! `proofs/Hosts.antt` and `proofs/Runs.antt`, instantiation in `proofs/Begins.antt`, `proofs/Elements.antt` and
//! `proofs/Datas.antt`, and all of it together in `proofs/Whole.antt` and `proofs/Segments.antt`.
#![tactic(auto)]

ghost use Rattle.crossing.specs.Crossing.{CrossesRuns};
ghost use Rattle.crossing.specs.Interfaces.{CrossesInterface};

/// A crossed module shows its host what the module shows, within as many turns, and has as many calls open at once, at most.
pub fn crossed_modules_run_alike()
    ensures { CrossesRuns }
{}

/// A host links a crossed module by the same names in the same order, and by the types that 1.0 writes for those of the
/// module.
pub fn crossed_modules_link_alike()
    ensures { CrossesInterface }
{}
