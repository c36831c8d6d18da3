// The parts of a module without its bodies.

ghost use Rattle.std.specs.Prelude.{◌≡◌, [], IfOk};

use num_core::lists::TryCopy;
use sqlite_items::Items;
use std::alloc::{AllocError, Global};
use wasm_ast::module::Module;

/// A copy of the module without bodies.
pub fn parts_of(alloc: Global, m: &Module) -> Result<Module, AllocError>
    ensures { IfOk result (λ parts. parts ≡ record m.now { codes = [] }) }
{
    Ok(Module {
        types: m.types.copy(alloc)?,
        imports: m.imports.copy(alloc)?,
        funcs: m.funcs.copy(alloc)?,
        tables: m.tables.copy(alloc)?,
        memories: Items::from_slice(alloc, m.memories.as_slice())?,
        tags: m.tags.copy(alloc)?,
        globals: m.globals.copy(alloc)?,
        exports: m.exports.copy(alloc)?,
        start: m.start,
        elems: m.elems.copy(alloc)?,
        data_count: m.data_count,
        codes: Items::new(alloc),
        datas: m.datas.copy(alloc)?,
    })
}
