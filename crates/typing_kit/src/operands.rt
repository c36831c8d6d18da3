ghost use Rattle.std.specs.Prelude.{◌≡◌, ◌≤◌, [], ◌∷◌, ◌++◌, length, take, drop, reverse, true, false, OnOk};
ghost use Rattle.typing_kit.specs.Matching.{known};
ghost use Rattle.typing_kit.specs.Stack.{fit, fit_whole};
ghost use Rattle.typing_kit.specs.Steps.{topmost, left};

use crate::matching::fit;
use crate::operand::Operand;
use crate::value_types::ValueTypes;
use std::alloc::{AllocError, Global};
use std::marker::Model;

/// The operands of a function while its code is typed. Those of the blocks around stay below those of the innermost
/// block. In a block whose rest nothing reaches there are as many operands of type bot below as code asks for.
#[derive(Drop)]
pub struct Operands<T> {
    items: Vec<Operand<T>>,
    base: usize,
    dead: bool,
}

impl<T> Model for Operands<T> {
    ghost use Rattle.std.specs.Prelude.{◌≤◌, take, drop, reverse, vec_len};
    ghost use Rattle.typing_kit.specs.Stack.{Stack};

    ghost Value = { Stack T };

    ghost view = { λ s. record { outer = take s.base s.items.items; top = reverse (drop s.base s.items.items); dead = s.dead } };

    ghost invariant = { λ s. s.base ≤ vec_len s.items };
}

/// What a block covers while it is open: where the operands of the block around it begin, and whether it was dead.
#[derive(Clone, Copy)]
pub struct Covered {
    base: usize,
    dead: bool,
}

impl<T: Copy> Operands<T> {
    /// No operands.
    pub fn new(alloc: Global) -> Operands<T>
        ensures { result ≡ record { outer = []; top = []; dead = false } }
    {
        Operands {
            items: Vec::new(alloc),
            base: 0,
            dead: false,
        }
    }

    /// Whether nothing reaches this place.
    pub fn is_dead(&self) -> bool
        ensures { result ≡ self.now.dead }
    {
        self.dead
    }

    /// Takes so many operands from the top, or all that the innermost block has.
    pub fn take(&mut self, count: usize)
        ensures { self.new ≡ record self.old { top = drop count self.old.top } }
    {
        let own = self.items.len() - self.base;
        let kept = self.items.len() - own.min(count);
        self.items.truncate(kept);
    }

    /// Puts values of these types on top.
    pub fn push_all(&mut self, types: &[T]) -> Result<(), AllocError>
        ensures { OnOk result (self.new ≡ record self.old { top = reverse (known types.now) ++ self.old.top }) }
    {
        for t in types {
            self.items.push(Operand::Known(*t))?;
        }
        Ok(())
    }

    /// Puts an operand on top.
    pub fn push(&mut self, operand: Operand<T>) -> Result<(), AllocError>
        ensures { OnOk result (self.new ≡ record self.old { top = operand ∷ self.old.top }) }
    {
        self.items.push(operand)?;
        Ok(())
    }

    /// The operand that lies under so many others. Where nothing reaches this place there is always one.
    pub fn peek(&self, skip: usize) -> Option<Operand<T>>
        ensures { result ≡ topmost self.now.dead (drop skip self.now.top) }
    {
        if skip < self.items.len() - self.base {
            Some(self.items[self.items.len() - 1 - skip])
        } else if self.dead {
            Some(Operand::Bottom)
        } else {
            None
        }
    }

    /// From here on nothing is reached in the innermost block.
    pub fn kill(&mut self)
        ensures { self.new ≡ left self.old }
    {
        self.items.truncate(self.base);
        self.dead = true;
    }

    /// Begins a block, which has no operands yet.
    pub fn begin(&mut self) -> Covered
        ensures base { result.base ≡ length self.old.outer }
        ensures dead { result.dead ≡ self.old.dead }
        ensures stack { self.new ≡ record { outer = self.old.outer ++ reverse self.old.top; top = []; dead = false } }
    {
        let covered = Covered {
            base: self.base,
            dead: self.dead,
        };
        self.base = self.items.len();
        self.dead = false;
        covered
    }

    /// Ends a block: its operands are gone, and those of the block around are as they were.
    pub fn end(&mut self, covered: Covered)
        requires { covered.base ≤ length self.old.outer }
        ensures { self.new ≡ record { outer = take covered.base self.old.outer; top = reverse (drop covered.base self.old.outer); dead = covered.dead } }
    {
        self.items.truncate(self.base);
        self.base = covered.base;
        self.dead = covered.dead;
    }
}

/// Whether the operands that lie under so many others may stand where the types are asked for.
pub fn fits<V: ValueTypes>(operands: &Operands<V::Type>, skip: usize, wanted: &[V::Type]) -> bool
    ensures { result ≡ fit V.sub operands.now.dead (drop skip operands.now.top) (reverse wanted.now) }
{
    let own = operands.items.len() - operands.base;
    let end = operands.items.len() - own.min(skip);
    fit::<V>(operands.dead, &operands.items[operands.base..end], wanted)
}

/// Whether the operands of the innermost block, all of them, may stand where the types are asked for.
pub fn fits_whole<V: ValueTypes>(operands: &Operands<V::Type>, wanted: &[V::Type]) -> bool
    ensures { result ≡ fit_whole V.sub operands.now.dead operands.now.top (reverse wanted.now) }
{
    operands.items.len() - operands.base <= wanted.len() && fits::<V>(operands, 0, wanted)
}
