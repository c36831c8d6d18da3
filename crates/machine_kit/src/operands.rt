ghost use Rattle.std.specs.Prelude.{◌≡◌, [], ◌∷◌, ◌++◌, length, take, drop, reverse, slice_get, OnOk, MatchOption};

use crate::moving::{make_room, take_out};
use std::alloc::{AllocError, Global};
use std::marker::Model;

/// The operands of a run, with the top last. Those that are set aside lie below the base, those of the innermost block
/// from the start on; what lies between is gone.
#[derive(Drop)]
pub struct Operands<V> {
    items: Vec<V>,
    base: usize,
    start: usize,
}

impl<V> Model for Operands<V> {
    ghost use Rattle.std.specs.Prelude.{◌≤◌, take, drop, reverse, vec_len};
    ghost use Rattle.machine_kit.specs.Stacks.{Stack};

    ghost Value = { Stack V };

    ghost view = { λ s. record { used = reverse (drop s.start s.items.items); aside = reverse (take s.base s.items.items) } };

    ghost invariant = { λ s. (s.base ≤ s.start) × (s.start ≤ vec_len s.items) };
}

impl<V: Copy> Operands<V> {
    /// No operands.
    pub fn new(alloc: Global) -> Operands<V>
        ensures { result ≡ record { used = []; aside = [] } }
    {
        Operands {
            items: Vec::new(alloc),
            base: 0,
            start: 0,
        }
    }

    /// How many are in use.
    pub fn count(&self) -> usize
        ensures { result ≡ length self.now.used }
    {
        self.items.len() - self.start
    }

    /// Puts an operand on top.
    #[inline(always)]
    pub fn push(&mut self, value: V) -> Result<(), AllocError>
        ensures { OnOk result (self.new ≡ record self.old { used = value ∷ self.old.used }) }
    {
        if self.items.len() == self.items.capacity() {
            make_room(&mut self.items)?;
        }
        self.items.push_reserved(value);
        Ok(())
    }

    /// Takes so many operands from the top, or all that are in use, and puts this one there.
    #[inline(always)]
    pub fn put(&mut self, count: usize, value: V) -> Result<(), AllocError>
        ensures { OnOk result (self.new ≡ record self.old { used = value ∷ drop count self.old.used }) }
    {
        if count == 0 {
            return self.push(value);
        }
        if count <= self.items.len() - self.start {
            let at = self.items.len() - count;
            self.items[at] = value;
            self.items.truncate(at + 1);
            return Ok(());
        }
        self.put_slowly(count, value)
    }

    /// The same, however many are in use.
    #[cold]
    #[inline(never)]
    fn put_slowly(&mut self, count: usize, value: V) -> Result<(), AllocError>
        ensures { OnOk result (self.new ≡ record self.old { used = value ∷ drop count self.old.used }) }
    {
        self.drop_top(count);
        self.push(value)
    }

    /// The operand that lies under so many others.
    #[inline(always)]
    pub fn peek(&self, skip: usize) -> Option<V>
        ensures { result ≡ slice_get self.now.used skip }
    {
        if skip < self.items.len() - self.start {
            Some(self.items[self.items.len() - 1 - skip])
        } else {
            None
        }
    }

    /// So many operands at the top, or all that are in use, the top last.
    pub fn top(&self, count: usize) -> &[V]
        ensures { result.now ≡ reverse (take count self.now.used) }
    {
        let own = self.items.len() - self.start;
        let from = self.items.len() - own.min(count);
        &self.items[from..]
    }

    /// Lets go of the operands in use.
    pub fn clear(&mut self)
        ensures { self.new ≡ record self.old { used = [] } }
    {
        self.items.truncate(self.base);
        self.start = self.base;
    }

    /// Takes so many operands from the top, or all that are in use.
    #[inline(always)]
    pub fn drop_top(&mut self, count: usize)
        ensures { self.new ≡ record self.old { used = drop count self.old.used } }
    {
        let own = self.items.len() - self.start;
        let left = self.items.len() - own.min(count);
        self.items.truncate(left);
    }

    /// Keeps so many operands at the top, or all that are in use, and lets go of those below them that are in use.
    pub fn keep(&mut self, count: usize)
        ensures { self.new ≡ record self.old { used = take count self.old.used } }
    {
        let kept = (self.items.len() - self.start).min(count);
        let from = self.items.len() - kept;
        take_out(&mut self.items, self.base, from);
        self.start = self.base;
    }

    /// Sets aside all operands in use but so many at the top, and says how many those are.
    pub fn set_aside(&mut self, count: usize) -> usize
        ensures aside { result ≡ length (drop count self.old.used) }
        ensures stack { self.new ≡ record { used = take count self.old.used; aside = drop count self.old.used ++ self.old.aside } }
    {
        take_out(&mut self.items, self.base, self.start);
        let own = self.items.len() - self.base;
        let aside = own - own.min(count);
        self.base += aside;
        self.start = self.base;
        aside
    }

    /// Lets go of so many operands that are set aside.
    pub fn forget(&mut self, count: usize)
        ensures { self.new ≡ record self.old { aside = drop count self.old.aside } }
    {
        self.base -= self.base.min(count);
    }

    /// Takes so many operands that are set aside into use again, below the others.
    pub fn restore(&mut self, count: usize)
        ensures { self.new ≡ record { used = self.old.used ++ take count self.old.aside; aside = drop count self.old.aside } }
    {
        take_out(&mut self.items, self.base, self.start);
        self.base -= self.base.min(count);
        self.start = self.base;
    }
}
