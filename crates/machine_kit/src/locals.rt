ghost use Rattle.std.specs.Prelude.{◌≡◌, [], ◌∷◌, ◌++◌, length, take, drop, reverse, set, slice_get, OnOk};

use std::alloc::{AllocError, Global};
use std::marker::Model;

/// The locals of a run. Those of the function that runs lie from the base on, by their indices; those of the calls
/// around lie below it.
#[derive(Drop)]
pub struct Locals<V> {
    items: Vec<V>,
    base: usize,
}

impl<V> Model for Locals<V> {
    ghost use Rattle.std.specs.Prelude.{◌≤◌, take, drop, reverse, vec_len};
    ghost use Rattle.machine_kit.specs.Stacks.{Stack};

    ghost Value = { Stack V };

    ghost view = { λ s. record { used = drop s.base s.items.items; aside = reverse (take s.base s.items.items) } };

    ghost invariant = { λ s. s.base ≤ vec_len s.items };
}

impl<V: Copy> Locals<V> {
    /// No locals.
    pub fn new(alloc: Global) -> Locals<V>
        ensures { result ≡ record { used = []; aside = [] } }
    {
        Locals {
            items: Vec::new(alloc),
            base: 0,
        }
    }

    /// The local with this index.
    #[inline(always)]
    pub fn get(&self, index: usize) -> Option<V>
        ensures { result ≡ slice_get self.now.used index }
    {
        if index < self.items.len() - self.base {
            Some(self.items[self.base + index])
        } else {
            None
        }
    }

    /// Writes the local with this index, where there is one.
    #[inline(always)]
    pub fn set(&mut self, index: usize, value: V)
        ensures { self.new ≡ record self.old { used = set self.old.used index value } }
    {
        if index < self.items.len() - self.base {
            let at = self.base + index;
            self.items[at] = value;
        }
    }

    /// One more local.
    pub fn push(&mut self, value: V) -> Result<(), AllocError>
        ensures { OnOk result (self.new ≡ record self.old { used = self.old.used ++ value ∷ [] }) }
    {
        self.items.push(value)?;
        Ok(())
    }

    /// More locals.
    pub fn extend(&mut self, values: &[V]) -> Result<(), AllocError>
        ensures { OnOk result (self.new ≡ record self.old { used = self.old.used ++ values.now }) }
    {
        self.items.extend_from_slice(values)?;
        Ok(())
    }

    /// Lets go of the locals of the function.
    pub fn clear(&mut self)
        ensures { self.new ≡ record self.old { used = [] } }
    {
        self.items.truncate(self.base);
    }

    /// Sets the locals aside, and says how many they are.
    pub fn set_aside(&mut self) -> usize
        ensures aside { result ≡ length self.old.used }
        ensures stack { self.new ≡ record { used = []; aside = reverse self.old.used ++ self.old.aside } }
    {
        let own = self.items.len() - self.base;
        self.base = self.items.len();
        own
    }

    /// Takes the last locals that were set aside, so many, in the place of those of the function.
    pub fn restore(&mut self, count: usize)
        ensures { self.new ≡ record { used = reverse (take count self.old.aside); aside = drop count self.old.aside } }
    {
        self.items.truncate(self.base);
        self.base -= self.base.min(count);
    }
}
