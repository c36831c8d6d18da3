ghost use Rattle.std.specs.Prelude.{◌≡◌, ◌++◌, List, [], ◌∷◌, map, true, IfOk, OnOk};
ghost use Rattle.host_kit.specs.Trace as trace;
ghost use Rattle.evaluation_kit.specs.Leaves.{top, below};
ghost use Rattle.meaning_new.specs.Store.{mark, tell, sizes};
ghost use Rattle.run_kit.specs.Marks.{mark_of};
ghost use Rattle.run_new.specs.States.{whole};

use crate::store::Store;
use host_kit::{Event, Reply};
use run_kit::Mark;
use std::alloc::{AllocError, Global};
use std::marker::Model;

/// The state of a run: the store, what the host has left to answer, and what the run has left behind. Scripts are
/// borrowed. No bound is set to the run.
#[derive(Drop)]
pub struct State<'a> {
    pub(crate) store: Store<'a>,
    pub(crate) replies: Vec<&'a [Reply]>,
    pub(crate) grows: &'a [bool],
    pub(crate) trace: Vec<Mark>,
}

impl<'a> Model for State<'a> {
    ghost use Rattle.std.specs.Prelude.{map};
    ghost use Rattle.run_new.specs.States.{Kept};
    ghost use Rattle.run_kit.specs.Marks.{mark_of};

    ghost Value = { Kept };

    ghost view = { λ s. record {
      store = s.store;
      replies = map (λ r. r.now) s.replies.items;
      grows = s.grows.now;
      trace = map mark_of s.trace.items;
    } };
}

impl<'a> State<'a> {
    /// The allocator of the run.
    pub(crate) fn alloc(&self) -> Global {
        self.store.alloc
    }

    /// What the run has left behind.
    pub fn into_trace(self) -> Vec<Mark>
        ensures { map mark_of result.items ≡ self.entry.trace }
    {
        let State { trace, .. } = self;
        trace
    }

    /// Shows the host an event. It fails for want of memory alone.
    pub fn show(&mut self, event: Event) -> Result<(), AllocError>
        ensures { OnOk result (whole self.new ≡ tell event (whole self.old)) }
    {
        self.trace.push(Mark::Shows(event))?;
        Ok(())
    }

    /// Tells that a clause took an exception by reference. It fails for want of memory alone.
    pub(crate) fn tell_capture(&mut self) -> Result<(), AllocError>
        ensures { OnOk result (whole self.new ≡ mark trace.Captured (whole self.old)) }
    {
        self.trace.push(Mark::Captured)?;
        Ok(())
    }

    /// Takes the next answer of the host's to a growth: yes after their end.
    pub(crate) fn next_answer(&mut self) -> bool
        ensures answer { result ≡ top true self.old.grows }
        ensures rest { self.new ≡ record self.old { grows = below self.old.grows } }
    {
        match self.grows.split_first() {
            Some((first, rest)) => {
                self.grows = rest;
                *first
            }
            None => true,
        }
    }

    /// Tells of a growth, with the sizes after it. It fails for want of memory alone.
    pub(crate) fn tell_growth(&mut self, grown: bool) -> Result<(), AllocError>
        ensures { OnOk result (whole self.new ≡ mark (trace.Grown grown (sizes self.old.store)) (whole self.old)) }
    {
        let sizes = self.store.sizes()?;
        self.trace.push(Mark::Grown(grown, sizes))?;
        Ok(())
    }
}
