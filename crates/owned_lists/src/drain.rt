ghost use Rattle.std.specs.Prelude.{◌≡◌, [], ◌∷◌, ◌++◌, reverse, IfOk, MatchOption, length};

use sqlite_items::Items;
use std::alloc::{AllocError, Global};
use std::marker::Model;

/// The items of a list that are not moved out yet. Contracts see it as the list of these.
#[derive(Drop)]
pub struct Drain<T> {
    reversed: Vec<T>,
}

impl<T> Model for Drain<T> {
    ghost use Rattle.std.specs.Prelude.{List, reverse};
    ghost use Rattle.std.specs.Coded.{coded_list};

    ghost Value = { List T };

    ghost coded = { coded_list T.code };

    ghost view = { λ drain. reverse drain.reversed.items };
}

impl<T: Drop> Drain<T> {
    /// All items of the list. It fails for want of memory alone, and takes time linear in the number of items.
    pub fn new(alloc: Global, items: Items<T>) -> Result<Drain<T>, AllocError>
        ensures { IfOk result (λ drain. drain ≡ items) }
    {
        let mut items = items;
        let mut reversed = Vec::with_capacity(alloc, items.len())?;
        while let Some(last) = items.pop() {
            reversed.push(last)?;
        }
        Ok(Drain { reversed })
    }

    /// Moves the first item out, if there is one. It takes no memory.
    pub fn next(&mut self) -> Option<T>
        ensures { MatchOption result ((self.old ≡ []) × (self.new ≡ [])) (λ first. self.old ≡ first ∷ self.new) }
    {
        self.reversed.pop()
    }

    /// How many items are left.
    pub fn len(&self) -> usize
        ensures { result ≡ length self.now }
    {
        self.reversed.len()
    }
}
