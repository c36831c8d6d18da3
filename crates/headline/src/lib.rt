//! The headline: a module and its lowered module show the same events under every fitting script, in both directions, and a
//! host links them alike.
//!
//! `specs/Headline.antt` and `specs/MappedInterface.antt` say what that means, by the maps of scripts and events beside them;
//! `specs/Lowered.antt` of which stages of lowering it is shown, and `specs/Cuts.antt` that it holds of a module as it was
//! read where it holds of the module whose bodies were cut.
#![tactic(auto)]

ghost use Rattle.std.specs.Prelude.{◌≡◌};
ghost use Rattle.meaning_core1.specs.Runs.{trace1};
ghost use Rattle.meaning_new.specs.Runs.{trace};
ghost use Rattle.headline.specs.Cuts.{CutsAreLinkedAlike, CutsAreSame};
ghost use Rattle.headline.specs.Distinct.{extending, returning, shifting, behind_an_import, one_call, returned, unanswered};
ghost use Rattle.headline.specs.Headline.{Same};
ghost use Rattle.headline.specs.Lowered.{LoweredIsSame};
ghost use Rattle.headline.specs.MappedInterface.{SameInterface};
ghost use Rattle.headline.specs.Mapping.{map_script};

/// Stages that map no script and no event, and the crossing to 1.0 behind them, make a module that a host links as it links
/// the input, and that shows the same.
pub fn lowered_modules_show_the_same()
    ensures { LoweredIsSame }
{}

/// What is known of a module whose bodies were cut and of a module of 1.0 is known of the module as it was read.
pub fn modules_show_what_their_cuts_show()
    ensures same { CutsAreSame }
    ensures linked { CutsAreLinkedAlike }
{}

/// What a host sees of small modules within one turn: the sign of 128 is extended, here and in 1.0, and an import in front of
/// the function is what the export names.
pub fn computes()
    ensures extending { trace extending one_call 1 ≡ returned 4294967168 }
    ensures shifting { trace1 shifting (map_script extending one_call) 1 ≡ returned 4294967168 }
    ensures imported { trace1 behind_an_import (map_script extending one_call) 1 ≡ unanswered }
{}

/// The headline tells modules apart: a module that extends the sign of its argument is not the same as one that
/// returns its argument.
pub fn results_are_told_apart()
    ensures { Same 4 16 extending returning 4096 → ⊥ }
{}

/// A module whose one export is its own function is not the same as one whose export names an import in front of it, and is
/// not linked as that one is: it calls nothing of the host's.
pub fn imports_are_told_apart()
    ensures own { SameInterface extending shifting }
    ensures imported { SameInterface extending behind_an_import → ⊥ }
    ensures called { Same 4 16 extending behind_an_import 4096 → ⊥ }
{}
