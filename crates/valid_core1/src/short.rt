// Whether the lists of a module are short.

ghost use Rattle.std.specs.Prelude.{◌≡◌, true};
ghost use Rattle.core1_ast.specs.Lengths.{IsShort, IsShortType, IsShortImport, IsShortElement, IsShortBody, IsShortSegment, IsShortModule};
ghost use Rattle.valid_core1.specs.Checks.{Decided};
ghost use Rattle.valid_core1.specs.Short.{lists_are_short as lists_are_short_of};

use crate::labels::is_short;
use crate::search::{PartTest, first_untyped};
use core1_ast::module::{Body1, Element1, Export1, FuncType1, Global1, Import1, Module1, Segment1};

struct ShortTypes;

impl PartTest for ShortTypes {
    ghost use Rattle.core1_ast.specs.Lengths.{IsShortType};

    type Part = FuncType1;

    ghost may = { λ _. Unit {0} };

    ghost typed = { λ _ k t. IsShortType t };

    fn is_typed(&self, _place: usize, ty: &FuncType1) -> bool
        ensures { Decided result (IsShortType ty.now) }
    {
        is_short(ty.params.len()) && is_short(ty.results.len())
    }
}

struct ShortImports;

impl PartTest for ShortImports {
    ghost use Rattle.core1_ast.specs.Lengths.{IsShortImport};

    type Part = Import1;

    ghost may = { λ _. Unit {0} };

    ghost typed = { λ _ k i. IsShortImport i };

    fn is_typed(&self, _place: usize, import: &Import1) -> bool
        ensures { Decided result (IsShortImport import.now) }
    {
        is_short(import.module.as_str().len()) && is_short(import.name.as_str().len())
    }
}

struct ShortGlobals;

impl PartTest for ShortGlobals {
    ghost use Rattle.core1_ast.specs.Lengths.{IsShort};

    type Part = Global1;

    ghost may = { λ _. Unit {0} };

    ghost typed = { λ _ k g. IsShort g.init };

    fn is_typed(&self, _place: usize, global: &Global1) -> bool
        ensures { Decided result (IsShort global.now.init) }
    {
        is_short(global.init.len())
    }
}

struct ShortExports;

impl PartTest for ShortExports {
    ghost use Rattle.core1_ast.specs.Lengths.{IsShort};

    type Part = Export1;

    ghost may = { λ _. Unit {0} };

    ghost typed = { λ _ k e. IsShort e.name };

    fn is_typed(&self, _place: usize, export: &Export1) -> bool
        ensures { Decided result (IsShort export.now.name) }
    {
        is_short(export.name.as_str().len())
    }
}

struct ShortElements;

impl PartTest for ShortElements {
    ghost use Rattle.core1_ast.specs.Lengths.{IsShortElement};

    type Part = Element1;

    ghost may = { λ _. Unit {0} };

    ghost typed = { λ _ k e. IsShortElement e };

    fn is_typed(&self, _place: usize, element: &Element1) -> bool
        ensures { Decided result (IsShortElement element.now) }
    {
        is_short(element.offset.len()) && is_short(element.items.len())
    }
}

struct ShortBodies;

impl PartTest for ShortBodies {
    ghost use Rattle.core1_ast.specs.Lengths.{IsShortBody};

    type Part = Body1;

    ghost may = { λ _. Unit {0} };

    ghost typed = { λ _ k b. IsShortBody b };

    fn is_typed(&self, _place: usize, body: &Body1) -> bool
        ensures { Decided result (IsShortBody body.now) }
    {
        is_short(body.locals.len()) && is_short(body.code.len())
    }
}

struct ShortSegments;

impl PartTest for ShortSegments {
    ghost use Rattle.core1_ast.specs.Lengths.{IsShortSegment};

    type Part = Segment1;

    ghost may = { λ _. Unit {0} };

    ghost typed = { λ _ k s. IsShortSegment s };

    fn is_typed(&self, _place: usize, segment: &Segment1) -> bool
        ensures { Decided result (IsShortSegment segment.now) }
    {
        is_short(segment.offset.len()) && is_short(segment.bytes.as_slice().len())
    }
}

/// Whether the lists of the module itself have fewer than 2^32 items each.
fn lists_are_short(m: &Module1) -> bool
    ensures { result ≡ lists_are_short_of m.now }
{
    is_short(m.types.len())
        && is_short(m.imports.len())
        && is_short(m.funcs.len())
        && is_short(m.tables.len())
        && is_short(m.memories.len())
        && is_short(m.globals.len())
        && is_short(m.exports.len())
        && is_short(m.elems.len())
        && is_short(m.codes.len())
        && is_short(m.datas.len())
}

/// Whether all lists of the module, those inside code aside, have fewer than 2^32 items each.
pub fn is_short_module(m: &Module1) -> bool
    ensures { result ≡ true → IsShortModule m.now }
{
    if !lists_are_short(m) {
        return false;
    }
    if first_untyped(&ShortTypes, m.types.as_slice()).is_some() {
        return false;
    }
    if first_untyped(&ShortImports, m.imports.as_slice()).is_some() {
        return false;
    }
    if first_untyped(&ShortGlobals, m.globals.as_slice()).is_some() {
        return false;
    }
    if first_untyped(&ShortExports, m.exports.as_slice()).is_some() {
        return false;
    }
    if first_untyped(&ShortElements, m.elems.as_slice()).is_some() {
        return false;
    }
    if first_untyped(&ShortBodies, m.codes.as_slice()).is_some() {
        return false;
    }
    first_untyped(&ShortSegments, m.datas.as_slice()).is_none()
}
