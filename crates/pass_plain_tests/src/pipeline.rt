// Both stages in a row, which are one stage.

ghost use Rattle.typed_trees.specs.Typed.{module_of};
ghost use Rattle.pass_law.specs.Stages.{Stage};

use pass_law::{Pass, Settings, Then};
use pass_plain::{Sign, Trim};
use sqlite_items::Items;
use std::alloc::{AllocError, Global};
use std::test::Fail;
use typed_trees::TypedModule;
use wasm_ast::module::Module;

/// A module without code.
fn without_code(alloc: Global) -> TypedModule
    ensures { Stage (module_of result) }
{
    let parts = Module {
        types: Items::new(alloc),
        imports: Items::new(alloc),
        funcs: Items::new(alloc),
        tables: Items::new(alloc),
        memories: Items::new(alloc),
        tags: Items::new(alloc),
        globals: Items::new(alloc),
        exports: Items::new(alloc),
        start: None,
        elems: Items::new(alloc),
        data_count: Some(0),
        codes: Items::new(alloc),
        datas: Items::new(alloc),
    };
    TypedModule::build(parts, Items::new(alloc))
}

/// What both stages make of it.
fn lowered(alloc: Global) -> Result<TypedModule, AllocError> {
    let both = Then {
        first: Trim,
        second: Sign,
    };
    both.lower(alloc, &without_code(alloc), &Settings { captures: 1 })
}

#[test]
fn a_count_that_no_body_asks_for_goes_through_both_stages(rt: HostRuntime) -> Result<(), Fail> {
    let m = lowered(rt.alloc())?;
    assert!(rt; m.part().data_count.is_none());
    Ok(())
}
