// Element and data segments.

ghost use Rattle.std.specs.Prelude.{◌≡◌, IfOk};
ghost use Rattle.wasm_ast.specs.declared.module.parts.Module.{Module as Source};
ghost use Rattle.typed_trees.specs.Contexts.{address_type};
ghost use Rattle.typed_trees.specs.Modules.{context, TypedAddress, TypedElement, TypedElementMode, TypedSegment, TypedTarget};
ghost use Rattle.valid_new.specs.Scopes.{spaces_context};
ghost use Rattle.valid_new.specs.Judged.{Decided};

use crate::parts::constants::{are_typed_constants, is_typed_constant};
use crate::search::PartTest;
use std::alloc::{AllocError, Global};
use valid_new::{Spaces, is_reference_type, matches};
use wasm_ast::module::{Code, Element, Limits, Mode, Module, Segment, Ty};

/// Whether references of the type may be put into the table, at an offset that is typed.
fn target_is_typed(
    alloc: Global,
    spaces: &Spaces<'_>,
    table: u32,
    offset: &Code,
    ty: Ty,
) -> Result<bool, AllocError>
    ensures { (m : Source) → spaces_context spaces.now ≡ context m → IfOk result (λ yes. Decided yes (TypedTarget m table offset.now ty)) }
{
    let Some(wanted) = spaces.tables.as_slice().get(table as usize) else {
        return Ok(false);
    };
    if !matches(ty, *wanted) {
        return Ok(false);
    }
    is_typed_constant(alloc, spaces, offset, Ty::I32)
}

/// Whether the mode of an element segment of the type is typed.
fn mode_is_typed(
    alloc: Global,
    spaces: &Spaces<'_>,
    ty: Ty,
    mode: &Mode,
) -> Result<bool, AllocError>
    ensures { (m : Source) → spaces_context spaces.now ≡ context m → IfOk result (λ yes. Decided yes (TypedElementMode m ty mode.now)) }
{
    match mode {
        Mode::Active(table, offset) => target_is_typed(alloc, spaces, *table, offset, ty),
        Mode::Passive | Mode::Declarative => Ok(true),
    }
}

/// Whether an element segment is typed.
fn element_is_typed(
    alloc: Global,
    spaces: &Spaces<'_>,
    element: &Element,
) -> Result<bool, AllocError>
    ensures { (m : Source) → spaces_context spaces.now ≡ context m → IfOk result (λ yes. Decided yes (TypedElement m element.now)) }
{
    if !is_reference_type(element.ty) {
        return Ok(false);
    }
    if !are_typed_constants(alloc, spaces, element.items.as_slice(), element.ty)? {
        return Ok(false);
    }
    mode_is_typed(alloc, spaces, element.ty, &element.mode)
}

/// The type of an address of a memory.
fn address_type(limits: Limits) -> Ty
    ensures { result ≡ address_type limits }
{
    if limits.wide { Ty::I64 } else { Ty::I32 }
}

/// Whether the offset is an address of the memory.
fn address_is_typed(
    alloc: Global,
    spaces: &Spaces<'_>,
    memory: u32,
    offset: &Code,
) -> Result<bool, AllocError>
    ensures { (m : Source) → spaces_context spaces.now ≡ context m → IfOk result (λ yes. Decided yes (TypedAddress m memory offset.now)) }
{
    match spaces.memories.as_slice().get(memory as usize) {
        Some(limits) => is_typed_constant(alloc, spaces, offset, address_type(*limits)),
        None => Ok(false),
    }
}

/// Whether a data segment is typed.
fn segment_is_typed(
    alloc: Global,
    spaces: &Spaces<'_>,
    segment: &Segment,
) -> Result<bool, AllocError>
    ensures { (m : Source) → spaces_context spaces.now ≡ context m → IfOk result (λ yes. Decided yes (TypedSegment m segment.now)) }
{
    match &segment.mode {
        Mode::Active(memory, offset) => address_is_typed(alloc, spaces, *memory, offset),
        Mode::Passive => Ok(true),
        Mode::Declarative => Ok(false),
    }
}

/// The test of element segments.
#[derive(Drop)]
pub struct ElementTest<'a> {
    /// The memory from which room is taken.
    pub alloc: Global,
    /// The module.
    pub module: &'a Module,
    /// Its index spaces.
    pub spaces: &'a Spaces<'a>,
}

impl<'a> PartTest for ElementTest<'a> {
    ghost use Rattle.std.specs.Prelude.{◌≡◌};
    ghost use Rattle.typed_trees.specs.Modules.{context, TypedElement};
    ghost use Rattle.valid_new.specs.Scopes.{spaces_context};

    type Part = Element;

    ghost may = { λ self. spaces_context self.spaces.now ≡ context self.module.now };

    ghost typed = { λ self e. TypedElement self.module.now e };

    fn is_typed(&self, element: &Element) -> Result<bool, AllocError>
        requires { spaces_context self.now.spaces.now ≡ context self.now.module.now }
        ensures { IfOk result (λ yes. Decided yes (TypedElement self.now.module.now element.now)) }
    {
        element_is_typed(self.alloc, self.spaces, element)
    }
}

/// The test of data segments.
#[derive(Drop)]
pub struct SegmentTest<'a> {
    /// The memory from which room is taken.
    pub alloc: Global,
    /// The module.
    pub module: &'a Module,
    /// Its index spaces.
    pub spaces: &'a Spaces<'a>,
}

impl<'a> PartTest for SegmentTest<'a> {
    ghost use Rattle.std.specs.Prelude.{◌≡◌};
    ghost use Rattle.typed_trees.specs.Modules.{context, TypedSegment};
    ghost use Rattle.valid_new.specs.Scopes.{spaces_context};

    type Part = Segment;

    ghost may = { λ self. spaces_context self.spaces.now ≡ context self.module.now };

    ghost typed = { λ self s. TypedSegment self.module.now s };

    fn is_typed(&self, segment: &Segment) -> Result<bool, AllocError>
        requires { spaces_context self.now.spaces.now ≡ context self.now.module.now }
        ensures { IfOk result (λ yes. Decided yes (TypedSegment self.now.module.now segment.now)) }
    {
        segment_is_typed(self.alloc, self.spaces, segment)
    }
}
