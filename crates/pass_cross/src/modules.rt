// Comes in: a module of 3.0 that has nothing of 3.0 but typed selects. Goes out: a module of 1.0.
// Each part is written as 1.0 writes it, a typed select as a select; element segments that no instruction names are left out.
// Assumed: the module may stand between two stages, needs no region of memory, and has no feature but typed selects.
// Right because: each instruction that is left is one of 1.0, and does there what it does in 3.0.

ghost use Rattle.std.specs.Prelude.{◌≡◌, IfOk, OnOk};
ghost use Rattle.typed_trees.specs.Typed.{module_of};
ghost use Rattle.crossing.specs.Modules.{cross};
ghost use Rattle.core1_ast.specs.Typing.{Typed1};
ghost use Rattle.ranges_core1.specs.Ranges.{NumbersInRange};
ghost use Rattle.pass_cross.specs.Crossable.{Crossable};
ghost use Rattle.pass_cross.specs.Crossed.{IsCrossed};
ghost use Rattle.pass_cross.specs.Short.{IsShortThroughout, ConstantsInRange};

use crate::lengths::is_short_throughout;
use crate::parts::{
    cross_bodies, cross_elements, cross_exports, cross_func_types, cross_globals, cross_imports,
    cross_memories, cross_owned_bodies, cross_owned_segments, cross_segments, cross_tables,
};
use core1_ast::module::{Body1, Module1, Segment1};
use num_core::lists::TryCopy;
use sqlite_items::Items;
use std::alloc::{AllocError, Global};
use std::mem;
use typed_trees::TypedModule;
use wasm_ast::module::Module;

/// The module of 1.0 that has these bodies and data segments, part by part. It fails for want of memory alone.
fn cross_parts(
    alloc: Global,
    part: &Module,
    codes: Items<Body1>,
    datas: Items<Segment1>,
) -> Result<Module1, AllocError>
    ensures { IfOk result (λ out. out ≡ record (cross part.now) { codes = codes; datas = datas }) }
{
    let types = cross_func_types(alloc, part.types.as_slice())?;
    let imports = cross_imports(alloc, part.imports.as_slice())?;
    let funcs = part.funcs.copy(alloc)?;
    let tables = cross_tables(alloc, part.tables.as_slice())?;
    let memories = cross_memories(alloc, part.memories.as_slice())?;
    let globals = cross_globals(alloc, part.globals.as_slice())?;
    let exports = cross_exports(alloc, part.exports.as_slice())?;
    let elems = cross_elements(alloc, part.elems.as_slice())?;
    Ok(Module1 {
        types,
        imports,
        funcs,
        tables,
        memories,
        globals,
        exports,
        start: part.start,
        elems,
        codes,
        datas,
    })
}

/// Fails if a list of the module has 2^32 items or more, for which there is no room.
fn check_lengths(m: &Module1) -> Result<(), AllocError>
    ensures short { OnOk result (IsShortThroughout m.now) }
    ensures ranges { OnOk result (ConstantsInRange m.now) }
{
    if is_short_throughout(m) {
        Ok(())
    } else {
        Err(AllocError)
    }
}

/// The module of 1.0 that a typed module becomes which has nothing of 3.0 but typed selects. It fails for want of memory
/// alone; a list of 2^32 items or more has no room. Time and memory are linear in the size of the module, and the recursion
/// goes as deep as its blocks nest.
pub fn cross(alloc: Global, m: &TypedModule) -> Result<Module1, AllocError>
    // The module may stand between two stages, needs no region, and has no feature but typed selects.
    requires { Crossable (module_of m.now) }
    // Which module it is.
    ensures value { IfOk result (λ out. out ≡ cross (module_of m.now)) }
    // It is typed by the rules of 1.0.
    ensures typed { IfOk result Typed1 }
    // Its constants, bytes and sizes lie in the ranges of their types.
    ensures ranges { IfOk result NumbersInRange }
    // It is linked as the module is, and the same to a host under every fitting script.
    ensures crossed { IfOk result (IsCrossed (module_of m.now)) }
{
    let (part, functions) = m.tree();
    let codes = cross_bodies(alloc, functions)?;
    let datas = cross_segments(alloc, part.datas.as_slice())?;
    let out = cross_parts(alloc, part, codes, datas)?;
    check_lengths(&out)?;
    Ok(out)
}

/// The module of 1.0 that `cross` gives, from a typed module by value. It fails for want of memory alone; a list of 2^32
/// items or more has no room. Time is linear in the size of the module, and the recursion goes as deep as its blocks nest.
/// Memory is linear too: each typed body is dropped as soon as its body of 1.0 is written, and the bytes of data segments
/// are moved, so that the two modules are never both whole in memory.
pub fn cross_owned(alloc: Global, m: TypedModule) -> Result<Module1, AllocError>
    // The module may stand between two stages, needs no region, and has no feature but typed selects.
    requires { Crossable (module_of m) }
    // Which module it is.
    ensures value { IfOk result (λ out. out ≡ cross (module_of m)) }
    // It is typed by the rules of 1.0.
    ensures typed { IfOk result Typed1 }
    // Its constants, bytes and sizes lie in the ranges of their types.
    ensures ranges { IfOk result NumbersInRange }
    // It is linked as the module is, and the same to a host under every fitting script.
    ensures crossed { IfOk result (IsCrossed (module_of m)) }
{
    let (mut part, functions) = m.into_tree();
    let codes = cross_owned_bodies(alloc, functions)?;
    let segments = mem::replace(&mut part.datas, Items::new(alloc));
    let datas = cross_owned_segments(alloc, segments)?;
    let out = cross_parts(alloc, &part, codes, datas)?;
    check_lengths(&out)?;
    Ok(out)
}
