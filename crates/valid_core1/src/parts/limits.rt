ghost use Rattle.std.specs.Prelude.{◌≡◌, ◌+◌, ◌^◌};
ghost use Rattle.core1_ast.specs.Typing.{TypedLimits};
ghost use Rattle.valid_core1.specs.Checks.{Decided};

use crate::search::PartTest;
use core1_ast::module::Limits1;

/// The greatest size of a table.
pub const TABLE_BOUND: u64 = 0x1_0000_0000;

/// The greatest size of a memory, in pages.
pub const MEMORY_BOUND: u64 = 0x1_0000;

/// Whether no size is beyond the bound, and the greatest is not below the least.
pub fn limits_are_typed(bound: u64, limits: &Limits1) -> bool
    ensures { Decided result (TypedLimits bound limits.now) }
{
    match limits.max {
        Some(max) => {
            u64::from(limits.min) <= bound && u64::from(max) <= bound && limits.min <= max
        }
        None => u64::from(limits.min) <= bound,
    }
}

/// The test of tables, or of memories, which are typed only at the first place of their index space.
#[derive(Drop)]
pub struct LimitsTest {
    /// The greatest size.
    pub bound: u64,
    /// How many are imported.
    pub imported: usize,
}

impl PartTest for LimitsTest {
    ghost use Rattle.std.specs.Prelude.{◌≡◌, ◌+◌};
    ghost use Rattle.core1_ast.specs.Typing.{TypedLimits};

    type Part = Limits1;

    ghost may = { λ _. Unit {0} };

    ghost typed = { λ self k l. TypedLimits self.bound l × (self.imported + k ≡ 0) };

    fn is_typed(&self, place: usize, limits: &Limits1) -> bool
        ensures { Decided result (TypedLimits self.now.bound limits.now × (self.now.imported + place ≡ 0)) }
    {
        limits_are_typed(self.bound, limits) && self.imported == 0 && place == 0
    }
}
