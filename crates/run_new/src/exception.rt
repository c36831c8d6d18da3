ghost use Rattle.std.specs.Prelude.{◌≡◌, reverse, IfOk};

use crate::slot::Slot;
use sqlite_items::Items;
use std::alloc::{AllocError, Global};
use std::marker::Model;

/// An exception: its tag, and its values, first to last (the standard's "Exception Instances").
#[derive(Drop)]
pub struct Exception {
    tag: u32,
    values: Items<Slot>,
}

impl Model for Exception {
    ghost use Rattle.std.specs.Prelude.{reverse};
    ghost use Rattle.meaning_new.specs.Store.{Exception};

    ghost Value = { Exception };

    ghost view = { λ e. record { tag = e.tag; payload = reverse e.values } };
}

impl Exception {
    /// The exception of a tag with these values, first to last. It fails for want of memory alone.
    pub fn new(alloc: Global, tag: u32, values: &[Slot]) -> Result<Exception, AllocError>
        ensures { IfOk result (λ exception. exception ≡ record { tag = tag; payload = reverse values.now }) }
    {
        let values = Items::from_slice(alloc, values)?;
        Ok(Exception { tag, values })
    }

    /// Its tag.
    pub fn tag(&self) -> u32
        ensures { result ≡ self.now.tag }
    {
        self.tag
    }

    /// Its values, first to last.
    pub fn values(&self) -> &[Slot]
        ensures list { reverse result.now ≡ self.now.payload }
        ensures back { reverse self.now.payload ≡ result.now }
    {
        self.values.as_slice()
    }
}
