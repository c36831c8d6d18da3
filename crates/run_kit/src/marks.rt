ghost use Rattle.std.specs.Prelude.{◌≡◌, [], ◌∷◌, ◌++◌, map, IfOk, OnOk};
ghost use Rattle.host_kit.specs.Trace.{events};
ghost use Rattle.run_kit.specs.Marks.{mark_of};

use host_kit::Event;
use sqlite_items::Items;
use std::alloc::{AllocError, Global};

/// What a run leaves behind: what its host sees, and what it does not see.
#[derive(Drop)]
pub enum Mark {
    /// An event of the host's.
    Shows(Event),
    /// A growth: whether it succeeded, and the sizes of the memories in pages and of the tables in entries after it.
    Grown(bool, Items<usize>),
    /// A clause took an exception by reference.
    Captured,
}

/// The events among what a run has left behind: all that its host sees. It fails for want of memory alone.
pub fn events(alloc: Global, marks: Vec<Mark>) -> Result<Items<Event>, AllocError>
    ensures { IfOk result (λ seen. seen ≡ events (map mark_of marks.items)) }
{
    let mut seen = Items::new(alloc);
    for mark in marks {
        keep_event(mark, &mut seen)?;
    }
    Ok(seen)
}

/// Keeps what a mark shows the host, if it does.
fn keep_event(mark: Mark, seen: &mut Items<Event>) -> Result<(), AllocError>
    ensures { OnOk result (seen.new ≡ seen.old ++ events (mark_of mark ∷ [])) }
{
    match mark {
        Mark::Shows(event) => seen.push(event),
        Mark::Grown(_, _) | Mark::Captured => Ok(()),
    }
}
