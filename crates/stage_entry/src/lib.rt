//! A module that lies in the profile may stand before the first stage of lowering, and so may what validation leaves of it.
//!
//! The profile says whether a region is needed, and counts pages, by what is read off a module at once. Stages ask for a
//! region and count by what they keep of it. `specs/Entry.antt` says how the two meet: stages never ask for more.
//!
//! The profile speaks of a module as it is read, and stages are given it without the code that cannot be reached.
//! `specs/Cut.antt` says how these two meet: that code aside, a module has nothing more, and hosts link it alike.
#![tactic(auto)]

ghost use Rattle.stage_entry.specs.Cut.{CutHasNoMore, CutLiesInProfile, CutIsLinkedAlike};
ghost use Rattle.stage_entry.specs.Entry.{NeedsNoLess, CountsNoLess, MayBegin};

/// Where no entry of the profile's list holds of a module, it may stand before the first stage: the profile says that a
/// region is needed wherever stages need one, and counts no fewer pages than they take. The module need not be typed.
pub fn may_begin()
    ensures region { NeedsNoLess }
    ensures pages { CountsNoLess }
    ensures stage { MayBegin }
{}

/// What stands for a module, without the code that cannot be reached, has no feature that the module lacks, needs no region
/// and moves no tables where the module does not, and takes no more pages. So it lies in the profile if the module does.
/// Hosts link both alike, and beside bodies they are the same. The module need not be typed.
pub fn cutting_adds_nothing()
    ensures needs { CutHasNoMore }
    ensures profile { CutLiesInProfile }
    ensures linked { CutIsLinkedAlike }
{}
