// A module that is built from nothing, and finished.

ghost use Rattle.std.specs.Prelude.{◌≡◌, [], IsTrue};
ghost use Rattle.typed_trees.specs.Typed.{IsTypedTree};
ghost use Rattle.emit_kit_tests.specs.Small.{nothing, small};

use crate::calls::counts;
use emit_kit::Emit;
use num_core::lists::Text;
use sqlite_items::Items;
use std::alloc::Global;
use std::test::Fail;
use typed_trees::{TypedFn, TypedModule};
use wasm_ast::lists::Types;
use wasm_ast::module::{Export, ExportDesc, FuncType, Module, Ty};

/// A module with nothing in it.
pub fn nothing(alloc: Global) -> Module
    ensures { result ≡ nothing }
{
    Module {
        types: Items::new(alloc),
        imports: Items::new(alloc),
        funcs: Items::new(alloc),
        tables: Items::new(alloc),
        memories: Items::new(alloc),
        tags: Items::new(alloc),
        globals: Items::new(alloc),
        exports: Items::new(alloc),
        start: None,
        elems: Items::new(alloc),
        data_count: Some(0),
        codes: Items::new(alloc),
        datas: Items::new(alloc),
    }
}

/// Adds a function that does nothing, and says whether memory was found.
#[tactic(auto, using(crate::proofs::Building::has_type, crate::proofs::Building::is_small))]
fn add_function(alloc: Global, emit: &mut Emit) -> bool
    requires { emit.old ≡ (nothing, []) }
    ensures { IsTrue result → emit.new ≡ small }
{
    let ty = FuncType {
        params: Types::new(alloc),
        results: Types::new(alloc),
    };
    let Ok(index) = emit.add_type(ty) else {
        return false;
    };
    let f = TypedFn {
        locals: Types::new(alloc),
        body: Items::new(alloc),
    };
    emit.add_function(index, f).is_ok()
}

/// Adds a global of 64 bits under the name `g`, and says whether memory was found.
#[tactic(auto, using(crate::proofs::Building::has_no_export))]
fn add_global(alloc: Global, emit: &mut Emit) -> bool
    requires { emit.old ≡ small }
    ensures { IsTrue result → IsTypedTree emit.new }
{
    let Ok(name) = Text::new(alloc, "g") else {
        return false;
    };
    match emit.add_global(Ty::I64, Some(name)) {
        Ok(_) => true,
        Err(_) => false,
    }
}

fn is_exported(found: Option<&Export>) -> bool {
    match found {
        Some(export) => export.name.as_str() == "g" && export.desc == ExportDesc::Global(0),
        None => false,
    }
}

/// Whether the module has the parts that were added, and nothing else.
fn is_whole(m: &TypedModule) -> bool {
    (counts(m.part()) == [1, 0, 1, 0, 0, 0, 1, 1, 0, 0, 0, 0])
        & (m.functions().len() == 1)
        & is_exported(m.part().exports.get(0))
}

fn is_finished(emit: Emit) -> bool
    requires { IsTypedTree emit }
{
    match emit.finish() {
        Ok(m) => is_whole(&m),
        Err(_) => false,
    }
}

fn is_built(alloc: Global) -> bool {
    let Ok(mut emit) = Emit::new(alloc, nothing(alloc), Items::new(alloc)) else {
        return false;
    };
    if !add_function(alloc, &mut emit) {
        return false;
    }
    if !add_global(alloc, &mut emit) {
        return false;
    }
    is_finished(emit)
}

#[test]
fn what_is_finished_has_the_parts_that_were_added(rt: HostRuntime) -> Result<(), Fail> {
    assert!(rt; is_built(rt.alloc()));
    Ok(())
}
