// The state in which a run begins (the standard's "Modules", "Instantiation").
ghost use Rattle.std.specs.Prelude.{◌≡◌, List, ◌++◌, map, filter_map, true, false, IfOk, OnOk};
ghost use Rattle.std.specs.Option.{option_copied};
ghost use Rattle.wasm_ast.specs.declared.module.code.Instr.{Instr};
ghost use Rattle.typed_trees.specs.Typed.{module_of};
ghost use Rattle.meaning_new.specs.Store.{from_host};
ghost use Rattle.meaning_new.specs.Instances.{constant, with_globals, memory_import, new_memory, new_memories, first_entry, new_table, table_import, new_tables, all_values, new_store};
ghost use Rattle.typed_trees.specs.declared.module.TypedFn.{TypedFn};
ghost use Rattle.meaning_new.specs.Instances.{new_state};
ghost use Rattle.run_new.specs.States.{whole};
ghost use Rattle.run_new.specs.Instances.{IsInstance};

use crate::constants::constant;
use crate::memory::Memory;
use crate::slot::Slot;
use crate::state::State;
use crate::store::Store;
use crate::table::Table;
use crate::values::from_host;
use host_kit::{Script, Value};
use run_kit::replies_left;
use sqlite_items::Items;
use std::alloc::{AllocError, Global};
use wasm_ast::module as ast;
use wasm_ast::module::{Code, Element, Import, ImportDesc, Limits, Module, Segment, Ty};

impl<'a> State<'a> {
    /// The state in which a run of a script begins, with no segment written yet. It fails for want of memory alone.
    fn new(alloc: Global, part: &'a Module, script: &'a Script) -> Result<State<'a>, AllocError>
        ensures { (fns : List TypedFn) → IfOk result (λ state. whole state ≡ new_state (λ sizes. true) (λ captures. true) false (module_of (part.now, fns)) script.now) }
    {
        Ok(State {
            store: Store::new(alloc, part, script)?,
            replies: replies_left(alloc, script.replies.as_slice())?,
            grows: script.grows.as_slice(),
            trace: Vec::new(alloc),
        })
    }
}

/// The state of a run of a script once the segments are written, or none where one is not inside. It fails for want of
/// memory alone.
pub(crate) fn instantiate<'a>(
    alloc: Global,
    part: &'a Module,
    script: &'a Script,
) -> Result<Option<State<'a>>, AllocError>
    ensures { (fns : List TypedFn) → IfOk result (λ state. IsInstance (module_of (part.now, fns)) script.now state) }
{
    let mut state = State::new(alloc, part, script)?;
    if state.store.place_segments(part)? {
        Ok(Some(state))
    } else {
        Ok(None)
    }
}

impl<'a> Store<'a> {
    /// The store before any segment is written.
    fn new(alloc: Global, part: &'a Module, script: &Script) -> Result<Store<'a>, AllocError>
        ensures { (fns : List TypedFn) → IfOk result (λ store. store ≡ new_store (module_of (part.now, fns)) (all_values (module_of (part.now, fns)) script.now)) }
    {
        let imported = imported_values(alloc, script.globals.as_slice())?;
        let globals = with_globals(alloc, imported, part.globals.as_slice())?;
        let memories = new_memories(alloc, part)?;
        let tables = new_tables(alloc, part, globals.as_slice())?;
        let elems = new_elems(alloc, globals.as_slice(), part.elems.as_slice())?;
        let datas = new_datas(alloc, part.datas.as_slice())?;
        Ok(Store {
            alloc,
            globals,
            memories,
            tables,
            elems,
            datas,
            exceptions: Vec::new(alloc),
        })
    }
}

/// The values of the imported globals.
fn imported_values(alloc: Global, values: &[Value]) -> Result<Vec<Slot>, AllocError>
    ensures { IfOk result (λ globals. globals.items ≡ map from_host values.now) }
{
    let mut globals = Vec::new(alloc);
    for value in values {
        globals.push(from_host(*value))?;
    }
    Ok(globals)
}

/// The values of the imported globals, and behind them those of the module's own, each by those before it.
fn with_globals(
    alloc: Global,
    imported: Vec<Slot>,
    own: &[ast::Global],
) -> Result<Vec<Slot>, AllocError>
    ensures { IfOk result (λ globals. globals.items ≡ with_globals own.now imported.items) }
{
    let mut globals = imported;
    for global in own {
        let value = constant(alloc, globals.as_slice(), global.init.as_slice())?;
        globals.push(value)?;
    }
    Ok(globals)
}

/// The sizes of an imported memory.
fn memory_import(desc: ImportDesc) -> Option<Limits>
    ensures { result ≡ memory_import desc }
{
    match desc {
        ImportDesc::Memory(limits) => Some(limits),
        _ => None,
    }
}

/// The sizes of the imported memories.
fn imported_memories(alloc: Global, imports: &[Import]) -> Result<Vec<Limits>, AllocError>
    ensures { IfOk result (λ limits. limits.items ≡ filter_map (λ i. memory_import i.desc) imports.now) }
{
    imports
        .iter()
        .filter_map(|import| memory_import(import.desc))
        .collect(alloc)
}

/// The memories of zeros, those imported first.
fn new_memories(alloc: Global, part: &Module) -> Result<Vec<Memory>, AllocError>
    ensures { (fns : List TypedFn) → IfOk result (λ memories. memories.items ≡ new_memories (module_of (part.now, fns))) }
{
    let mut limits = imported_memories(alloc, part.imports.as_slice())?;
    limits.extend_from_slice(part.memories.as_slice())?;
    memories_of(alloc, limits.as_slice())
}

/// Memories of these sizes.
fn memories_of(alloc: Global, limits: &[Limits]) -> Result<Vec<Memory>, AllocError>
    ensures { IfOk result (λ memories. memories.items ≡ map new_memory limits.now) }
{
    let mut memories = Vec::new(alloc);
    for size in limits {
        memories.push(Memory::new(alloc, *size)?)?;
    }
    Ok(memories)
}

/// The tables, those imported first.
fn new_tables(alloc: Global, part: &Module, globals: &[Slot]) -> Result<Vec<Table>, AllocError>
    ensures { (fns : List TypedFn) → IfOk result (λ tables. tables.items ≡ new_tables (module_of (part.now, fns)) globals.now) }
{
    let mut tables = imported_tables(alloc, part.imports.as_slice())?;
    push_tables(alloc, &mut tables, part.tables.as_slice(), globals)?;
    Ok(tables)
}

/// The imported tables, of null references.
fn imported_tables(alloc: Global, imports: &[Import]) -> Result<Vec<Table>, AllocError>
    ensures { IfOk result (λ tables. tables.items ≡ filter_map (λ i. table_import i.desc) imports.now) }
{
    let mut tables = Vec::new(alloc);
    for import in imports {
        if let ImportDesc::Table(ty, limits) = import.desc {
            tables.push(Table::new(alloc, Slot::null(ty), limits)?)?;
        }
    }
    Ok(tables)
}

/// Puts the module's own tables behind others.
fn push_tables(
    alloc: Global,
    tables: &mut Vec<Table>,
    own: &[ast::Table],
    globals: &[Slot],
) -> Result<(), AllocError>
    ensures { OnOk result (tables.new.items ≡ tables.old.items ++ map (λ t. new_table (first_entry globals.now t.ty t.init) t.limits) own.now) }
{
    for table in own {
        let reference = first_entry(alloc, globals, table.ty, &table.init)?;
        tables.push(Table::new(alloc, reference, table.limits)?)?;
    }
    Ok(())
}

/// What the entries of a table begin with.
fn first_entry(
    alloc: Global,
    globals: &[Slot],
    ty: Ty,
    init: &Option<Code>,
) -> Result<Slot, AllocError>
    ensures { IfOk result (λ value. value ≡ first_entry globals.now ty init.now) }
{
    match init {
        None => Ok(Slot::null(ty)),
        Some(code) => constant(alloc, globals, code.as_slice()),
    }
}

/// The references of the element segments.
fn new_elems(
    alloc: Global,
    globals: &[Slot],
    elems: &[Element],
) -> Result<Vec<Items<Slot>>, AllocError>
    ensures { IfOk result (λ all. all.items ≡ map (λ e. map (constant globals.now) e.items) elems.now) }
{
    let mut all = Vec::new(alloc);
    for elem in elems {
        all.push(references(alloc, globals, elem.items.as_slice())?)?;
    }
    Ok(all)
}

/// The references of an element segment.
fn references(alloc: Global, globals: &[Slot], items: &[Code]) -> Result<Items<Slot>, AllocError>
    ensures { IfOk result (λ references. references ≡ map (constant globals.now) items.now) }
{
    let mut references = Items::new(alloc);
    for code in items {
        references.push(constant(alloc, globals, code.as_slice())?)?;
    }
    Ok(references)
}

/// The bytes of the data segments.
fn new_datas<'a>(alloc: Global, datas: &'a [Segment]) -> Result<Vec<&'a [u8]>, AllocError>
    ensures { IfOk result (λ all. map (λ d. d.now) all.items ≡ map (λ d. d.bytes) datas.now) }
{
    let mut all = Vec::new(alloc);
    for data in datas {
        all.push(data.bytes.as_slice())?;
    }
    Ok(all)
}
