ghost use Rattle.std.specs.Prelude.{◌≡◌, ◌&&◌, nat_lt, map, length};
ghost use Rattle.std.specs.List.{list_all};
ghost use Rattle.core1_ast.specs.declared.module.ty.Ty1.TheVariants.{I32};
ghost use Rattle.core1_ast.specs.Typing.{TypedElement, TypedSegment};
ghost use Rattle.valid_core1.specs.Checks.{Decided};
ghost use Rattle.valid_core1.specs.Constants.{is_constant as is_constant_of};
ghost use Rattle.valid_core1.specs.Scopes.{AreSpaces, global_type};

use crate::parts::constants::is_constant;
use crate::search::PartTest;
use crate::spaces::Spaces;
use core1_ast::module::{Element1, Module1, Segment1, Ty1};

/// Whether all indices are below the bound.
pub fn all_below(bound: usize, indices: &[u32]) -> bool
    ensures { result ≡ list_all (λ x. nat_lt x bound) indices.now }
{
    for index in indices {
        if *index as usize >= bound {
            return false;
        }
    }
    true
}

/// Whether an element segment is typed.
fn element_is_typed(spaces: &Spaces, element: &Element1) -> bool
    ensures { result ≡ (nat_lt element.now.table spaces.now.tables && is_constant_of (map global_type spaces.now.globals) element.now.offset I32 && list_all (λ x. nat_lt x (length spaces.now.funcs)) element.now.items) }
{
    (element.table as usize) < spaces.tables
        && is_constant(spaces.globals.as_slice(), &element.offset, Ty1::I32)
        && all_below(spaces.funcs.len(), element.items.as_slice())
}

/// Whether a data segment is typed.
fn segment_is_typed(spaces: &Spaces, segment: &Segment1) -> bool
    ensures { result ≡ (nat_lt segment.now.memory spaces.now.memories && is_constant_of (map global_type spaces.now.globals) segment.now.offset I32) }
{
    (segment.memory as usize) < spaces.memories
        && is_constant(spaces.globals.as_slice(), &segment.offset, Ty1::I32)
}

/// The test of element segments.
#[derive(Drop)]
pub struct ElementTest<'a> {
    /// The module.
    pub module: &'a Module1,
    /// Its index spaces.
    pub spaces: &'a Spaces,
}

impl<'a> PartTest for ElementTest<'a> {
    ghost use Rattle.core1_ast.specs.Typing.{TypedElement};
    ghost use Rattle.valid_core1.specs.Scopes.{AreSpaces};

    type Part = Element1;

    ghost may = { λ self. AreSpaces self.module.now self.spaces.now };

    ghost typed = { λ self k e. TypedElement self.module.now e };

    fn is_typed(&self, _place: usize, element: &Element1) -> bool
        requires { AreSpaces self.now.module.now self.now.spaces.now }
        ensures { Decided result (TypedElement self.now.module.now element.now) }
    {
        element_is_typed(self.spaces, element)
    }
}

/// The test of data segments.
#[derive(Drop)]
pub struct SegmentTest<'a> {
    /// The module.
    pub module: &'a Module1,
    /// Its index spaces.
    pub spaces: &'a Spaces,
}

impl<'a> PartTest for SegmentTest<'a> {
    ghost use Rattle.core1_ast.specs.Typing.{TypedSegment};
    ghost use Rattle.valid_core1.specs.Scopes.{AreSpaces};

    type Part = Segment1;

    ghost may = { λ self. AreSpaces self.module.now self.spaces.now };

    ghost typed = { λ self k s. TypedSegment self.module.now s };

    fn is_typed(&self, _place: usize, segment: &Segment1) -> bool
        requires { AreSpaces self.now.module.now self.now.spaces.now }
        ensures { Decided result (TypedSegment self.now.module.now segment.now) }
    {
        segment_is_typed(self.spaces, segment)
    }
}
