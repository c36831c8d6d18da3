// The verdict on a module: its parts in their order, then its bodies.

ghost use Rattle.std.specs.Prelude.{◌≡◌, ◌<◌, ◌^◌, ℕ, length, Result, OnOk, IfOk};
ghost use Rattle.core1_ast.specs.declared.module.parts.Module1.{Module1};
ghost use Rattle.core1_ast.specs.Lengths.{IsShortModule};
ghost use Rattle.core1_ast.specs.Typing.{TypedBody, TypedFuncType};
ghost use Rattle.valid_core1.specs.declared.invalid.Invalid.{Invalid};
ghost use Rattle.valid_core1.specs.declared.invalid.Invalid.TheVariants as faults;
ghost use Rattle.valid_core1.specs.Checks.{Decided};
ghost use Rattle.valid_core1.specs.Scopes.{AreSpaces};
ghost use Rattle.valid_core1.specs.Sections.{Finds};
ghost use Rattle.valid_core1.specs.Parts.{Section, Types, Imports, Functions, Tables, Memories, Globals, Elements, Segments, count, PartTyped, BodyTyped};
ghost use Rattle.valid_core1.specs.Verdict.{Tells, Settles, Agrees, TellsOfParts, TellsOfAll};

use crate::bodies::first_body;
use crate::invalid::Invalid;
use crate::parts::{
    ElementTest, FuncTest, GlobalTest, ImportTest, LimitsTest, MEMORY_BOUND, SegmentTest,
    TABLE_BOUND, TypeTest, count_memories, count_tables, first_export, start_is_typed,
};
use crate::search::first_untyped;
use crate::short::is_short_module;
use crate::spaces::{Spaces, spaces_of};
use crate::typed::Typed1;
use core1_ast::module::Module1;
use std::alloc::{AllocError, Global};

/// The refusal of the part at this place of a section.
fn part(section: u8, place: usize) -> Invalid
    requires { place < 2 ^ 32 }
    ensures { result ≡ faults.Part section place }
{
    Invalid::Part {
        section,
        index: place as u32,
    }
}

/// The first table that is not typed.
fn first_table(m: &Module1) -> Option<usize>
    ensures { Finds (PartTyped m.now Tables) (count m.now Tables) result }
{
    let test = LimitsTest {
        bound: TABLE_BOUND,
        imported: count_tables(m.imports.as_slice()),
    };
    first_untyped(&test, m.tables.as_slice())
}

/// The first memory that is not typed.
fn first_memory(m: &Module1) -> Option<usize>
    ensures { Finds (PartTyped m.now Memories) (count m.now Memories) result }
{
    let test = LimitsTest {
        bound: MEMORY_BOUND,
        imported: count_memories(m.imports.as_slice()),
    };
    first_untyped(&test, m.memories.as_slice())
}

/// The first function type that is not typed.
fn first_type(m: &Module1) -> Option<usize>
    ensures { Finds (PartTyped m.now Types) (count m.now Types) result }
{
    first_untyped(&TypeTest, m.types.as_slice())
}

/// The first import that is not typed.
fn first_import(m: &Module1) -> Option<usize>
    ensures { Finds (PartTyped m.now Imports) (count m.now Imports) result }
{
    first_untyped(&ImportTest { module: m }, m.imports.as_slice())
}

/// The first function that has no type of the module.
fn first_func(m: &Module1) -> Option<usize>
    ensures { Finds (PartTyped m.now Functions) (count m.now Functions) result }
{
    let test = FuncTest {
        types: m.types.len(),
    };
    first_untyped(&test, m.funcs.as_slice())
}

/// The first global that is not typed.
fn first_global(m: &Module1, spaces: &Spaces) -> Option<usize>
    requires { AreSpaces m.now spaces.now }
    ensures { Finds (PartTyped m.now Globals) (count m.now Globals) result }
{
    let globals = spaces.globals.as_slice();
    let test = GlobalTest {
        module: m,
        imported: &globals[..spaces.imported_globals.min(globals.len())],
    };
    first_untyped(&test, m.globals.as_slice())
}

/// The first element segment that is not typed.
fn first_element(m: &Module1, spaces: &Spaces) -> Option<usize>
    requires { AreSpaces m.now spaces.now }
    ensures { Finds (PartTyped m.now Elements) (count m.now Elements) result }
{
    first_untyped(&ElementTest { module: m, spaces }, m.elems.as_slice())
}

/// The first data segment that is not typed.
fn first_segment(m: &Module1, spaces: &Spaces) -> Option<usize>
    requires { AreSpaces m.now spaces.now }
    ensures { Finds (PartTyped m.now Segments) (count m.now Segments) result }
{
    first_untyped(&SegmentTest { module: m, spaces }, m.datas.as_slice())
}

/// Whether all parts are typed, or else which is the first that is not.
fn check_parts(alloc: Global, m: &Module1, spaces: &Spaces) -> Result<(), Invalid>
    requires spaces { AreSpaces m.now spaces.now }
    requires short { IsShortModule m.now }
    ensures { TellsOfParts m.now result }
{
    if let Some(place) = first_type(m) {
        return Err(part(1, place));
    }
    if let Some(place) = first_import(m) {
        return Err(part(2, place));
    }
    if let Some(place) = first_func(m) {
        return Err(part(3, place));
    }
    if let Some(place) = first_table(m) {
        return Err(part(4, place));
    }
    if let Some(place) = first_memory(m) {
        return Err(part(5, place));
    }
    if let Some(place) = first_global(m, spaces) {
        return Err(part(6, place));
    }
    if let Some(place) = first_export(alloc, m, spaces)? {
        return Err(part(7, place));
    }
    if !start_is_typed(m, spaces) {
        return Err(part(8, 0));
    }
    if let Some(place) = first_element(m, spaces) {
        return Err(part(9, place));
    }
    if let Some(place) = first_segment(m, spaces) {
        return Err(part(11, place));
    }
    Ok(())
}

/// The verdict, step by step.
fn check_module(alloc: Global, m: &Module1) -> Result<(), Invalid>
    requires { length m.now.funcs ≡ length m.now.codes }
    ensures { TellsOfAll m.now result }
{
    if !is_short_module(m) {
        return Err(Invalid::Memory(AllocError));
    }
    let spaces = spaces_of(alloc, m)?;
    check_parts(alloc, m, &spaces)?;
    match first_body(alloc, m, &spaces)? {
        Some(place) => Err(Invalid::Body(place as u32)),
        None => Ok(()),
    }
}

/// Whether a module is typed as 1.0. Its parts are tested in the order of their sections and places, and then its bodies;
/// the answer names the first that is not typed. The time is linear in the size of the module, and the recursion goes as
/// deep as its blocks nest.
pub fn validate1<'a>(alloc: Global, m: &'a Module1) -> Result<Typed1<'a>, Invalid>
    // There are as many functions as bodies.
    requires { length m.now.funcs ≡ length m.now.codes }
    // What the answer says of the module.
    ensures tells { Tells m.now result }
    // No other answer is right, want of memory aside.
    ensures only { (other : Result Module1 Invalid) → Settles m.now other → Agrees result other }
{
    match check_module(alloc, m) {
        Ok(()) => Ok(Typed1::new(m)),
        Err(fault) => Err(fault),
    }
}
