// The state in which a run begins (the standard's "Modules", "Instantiation").
ghost use Rattle.std.specs.Prelude.{◌≡◌, ℕ, List, ◌++◌, map, filter_map, IfOk};
ghost use Rattle.std.specs.List.{All};
ghost use Rattle.core1_ast.specs.Spaces.{table_import, memory_import, all_tables, all_memories};
ghost use Rattle.meaning_core1.specs.Store.{value_from};
ghost use Rattle.meaning_core1.specs.Instances.{const_value, imported_values, global_values1, zero_memory, empty_table, new_state1};
ghost use Rattle.run_core1.specs.Constants.{IsConstantCode, HasConstants};

use crate::constants::constant;
use crate::exports::value_from;
use crate::memory::Memory;
use crate::slot::Slot;
use crate::state::State;
use crate::table::Table;
use core1_ast::module::{Global1, ImportDesc1, Limits1, Module1};
use host_kit::{Reply, Script, Value};
use sqlite_items::Items;
use std::alloc::{AllocError, Global};

impl<'a> State<'a> {
    /// The state in which a run of a script begins, with no segment written yet. It fails for want of memory alone.
    pub fn new(alloc: Global, source: &Module1, script: &'a Script) -> Result<State<'a>, AllocError>
        requires { HasConstants source.now }
        ensures { IfOk result (λ state. state ≡ new_state1 source.now script.now) }
    {
        let imported = imported_values(alloc, script.globals.as_slice())?;
        let memory_limits = memory_limits(alloc, source)?;
        let table_limits = table_limits(alloc, source)?;
        Ok(State {
            alloc,
            globals: with_own_globals(imported, source.globals.as_slice())?,
            memories: new_memories(alloc, memory_limits.as_slice())?,
            tables: new_tables(alloc, table_limits.as_slice())?,
            replies: replies_left(alloc, script.replies.as_slice())?,
            grows: script.grows.as_slice(),
            trace: Vec::new(alloc),
        })
    }
}

/// The values of the imported globals.
fn imported_values(alloc: Global, values: &[Value]) -> Result<Vec<Slot>, AllocError>
    ensures { IfOk result (λ globals. globals.items ≡ map value_from values.now) }
{
    let mut globals = Vec::new(alloc);
    for value in values {
        globals.push(value_from(*value))?;
    }
    Ok(globals)
}

/// The values of the imported globals, and behind them those of the module's own.
fn with_own_globals(imported: Vec<Slot>, own: &[Global1]) -> Result<Vec<Slot>, AllocError>
    requires { All (λ g. IsConstantCode g.init) own.now }
    ensures { IfOk result (λ globals. globals.items ≡ imported.items ++ map (λ g. const_value imported.items g.init) own.now) }
{
    let mut globals = imported;
    let count = globals.len();
    for global in own {
        let value = constant(&globals[..count], global.init.as_slice());
        globals.push(value)?;
    }
    Ok(globals)
}

/// The sizes of the memories, those imported first.
fn memory_limits(alloc: Global, source: &Module1) -> Result<Vec<Limits1>, AllocError>
    ensures { IfOk result (λ limits. limits.items ≡ all_memories source.now) }
{
    let mut limits = Vec::new(alloc);
    for import in source.imports.as_slice() {
        if let ImportDesc1::Memory(size) = import.desc {
            limits.push(size)?;
        }
    }
    limits.extend_from_slice(source.memories.as_slice())?;
    Ok(limits)
}

/// The sizes of the tables, those imported first.
fn table_limits(alloc: Global, source: &Module1) -> Result<Vec<Limits1>, AllocError>
    ensures { IfOk result (λ limits. limits.items ≡ all_tables source.now) }
{
    let mut limits = Vec::new(alloc);
    for import in source.imports.as_slice() {
        if let ImportDesc1::Table(size) = import.desc {
            limits.push(size)?;
        }
    }
    limits.extend_from_slice(source.tables.as_slice())?;
    Ok(limits)
}

/// Memories of these sizes.
fn new_memories(alloc: Global, limits: &[Limits1]) -> Result<Vec<Memory>, AllocError>
    ensures { IfOk result (λ memories. memories.items ≡ map zero_memory limits.now) }
{
    let mut memories = Vec::new(alloc);
    for size in limits {
        memories.push(Memory::new(alloc, size)?)?;
    }
    Ok(memories)
}

/// Tables of these sizes.
fn new_tables(alloc: Global, limits: &[Limits1]) -> Result<Vec<Table>, AllocError>
    ensures { IfOk result (λ tables. tables.items ≡ map empty_table limits.now) }
{
    let mut tables = Vec::new(alloc);
    for size in limits {
        tables.push(Table::new(alloc, size)?)?;
    }
    Ok(tables)
}

/// The replies to each imported function, of which none is taken yet.
fn replies_left<'a>(
    alloc: Global,
    replies: &'a [Items<Reply>],
) -> Result<Vec<&'a [Reply]>, AllocError>
    ensures { IfOk result (λ left. map (λ r. r.now) left.items ≡ replies.now) }
{
    let mut left = Vec::new(alloc);
    for list in replies {
        left.push(list.as_slice())?;
    }
    Ok(left)
}
