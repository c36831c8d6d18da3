// What the parts of a module show that no host meets: its own tables, memories, globals, types and segments.

ghost use Rattle.std.specs.Prelude.{◌≡◌, nat_le, nat_eq, not};
ghost use Rattle.std.specs.List.{list_any};
ghost use Rattle.wasm_ast.specs.Occurrence.{head_of};
ghost use Rattle.wasm_ast.specs.Spaces.{imported, is_global, table_count, memory_count};
ghost use Rattle.wasm_ast.specs.Has.{makes_reference, is_one_reference, has_initialiser, is_simple, is_one_simple, has_simple_offset, has_several_results, is_passive};

use crate::module::{
    Code, Element, FuncType, Global, Instr, Limits, Mode, Module, Op, Segment, Table,
};
use crate::spaces::{imported_memories, imported_tables};

/// Whether one of the tables has 64-bit addresses.
pub fn is_table_wide(tables: &[Table]) -> bool
    ensures { result ≡ list_any (λ t. t.limits.wide) tables.now }
{
    tables.iter().any(|table| table.limits.wide)
}

/// Whether one of the memories has 64-bit addresses.
pub fn is_memory_wide(memories: &[Limits]) -> bool
    ensures { result ≡ list_any (λ l. l.wide) memories.now }
{
    memories.iter().any(|limits| limits.wide)
}

/// Whether one of the tables has an expression that is not one ref.null or one ref.func.
pub fn has_initialisers(tables: &[Table]) -> bool
    ensures { result ≡ list_any (λ t. has_initialiser t.init) tables.now }
{
    tables.iter().any(|table| has_initialiser(&table.init))
}

fn has_initialiser(init: &Option<Code>) -> bool
    ensures { result ≡ has_initialiser init.now }
{
    match init {
        Some(code) => !is_one_reference(code.as_slice()),
        None => false,
    }
}

fn is_one_reference(code: &[Instr]) -> bool
    ensures { result ≡ is_one_reference code.now }
{
    match code {
        [instr] => makes_reference(instr),
        _ => false,
    }
}

fn makes_reference(instr: &Instr) -> bool
    ensures { result ≡ makes_reference (head_of instr.now) }
{
    matches!(instr, Instr::Pure(Op::RefNull(_) | Op::RefFunc(_)))
}

/// Whether there is a table, imported or the module's own.
pub fn has_table(m: &Module) -> bool
    ensures { result ≡ not (nat_eq (table_count m.now) 0) }
{
    imported_tables(m).saturating_add(m.tables.len()) != 0
}

/// Whether there are two memories or more, imported or the module's own.
pub fn has_two_memories(m: &Module) -> bool
    ensures { result ≡ nat_le 2 (memory_count m.now) }
{
    imported_memories(m).saturating_add(m.memories.len()) >= 2
}

/// Whether one of the types has two results or more.
pub fn has_several_results(types: &[FuncType]) -> bool
    ensures { result ≡ list_any has_several_results types.now }
{
    types.iter().any(|ty| has_results(ty))
}

fn has_results(ty: &FuncType) -> bool
    ensures { result ≡ has_several_results ty.now }
{
    ty.results.as_slice().len() >= 2
}

/// Whether one of the data segments is passive.
pub fn has_passive(datas: &[Segment]) -> bool
    ensures { result ≡ list_any (λ s. is_passive s.mode) datas.now }
{
    datas
        .iter()
        .any(|segment| matches!(segment.mode, Mode::Passive))
}

/// Whether the initial value of one of the globals is not one constant and not one of so many imported globals.
pub fn has_computed_globals(globals: &[Global], count: usize) -> bool
    ensures { result ≡ list_any (λ g. not (is_one_simple count g.init)) globals.now }
{
    globals
        .iter()
        .any(|global| !is_one_simple(global.init.as_slice(), count))
}

/// Whether the offset of one of the active element segments is not one constant and not one of so many imported
/// globals.
pub fn has_computed_elements(elements: &[Element], count: usize) -> bool
    ensures { result ≡ list_any (λ e. not (has_simple_offset count e.mode)) elements.now }
{
    elements
        .iter()
        .any(|element| !has_simple_offset(&element.mode, count))
}

/// Whether the offset of one of the active data segments is not one constant and not one of so many imported globals.
pub fn has_computed_datas(datas: &[Segment], count: usize) -> bool
    ensures { result ≡ list_any (λ s. not (has_simple_offset count s.mode)) datas.now }
{
    datas
        .iter()
        .any(|segment| !has_simple_offset(&segment.mode, count))
}

fn has_simple_offset(mode: &Mode, count: usize) -> bool
    ensures { result ≡ has_simple_offset count mode.now }
{
    match mode {
        Mode::Active(_, offset) => is_one_simple(offset.as_slice(), count),
        _ => true,
    }
}

fn is_one_simple(code: &[Instr], count: usize) -> bool
    ensures { result ≡ is_one_simple count code.now }
{
    match code {
        [instr] => is_simple(instr, count),
        _ => false,
    }
}

fn is_simple(instr: &Instr, count: usize) -> bool
    ensures { result ≡ is_simple count (head_of instr.now) }
{
    match instr {
        Instr::Pure(
            Op::I32Const(_) | Op::I64Const(_) | Op::V128Const(_) | Op::RefNull(_) | Op::RefFunc(_),
        ) => true,
        Instr::GlobalGet(global) => (*global as usize) < count,
        _ => false,
    }
}
