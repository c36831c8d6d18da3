// A pipeline of eleven stages: what each owes alone makes it a stage.

ghost use Rattle.typed_trees.specs.Typed.{module_of};
ghost use Rattle.pass_law.specs.Stages.{Stage};

use crate::{Loose, Same};
use pass_law::{Pass, Settings, Then};
use sqlite_items::Items;
use std::alloc::Global;
use std::test::Fail;
use typed_trees::TypedModule;
use wasm_ast::module::Module;

type Two = Then<Same, Loose>;

type Four = Then<Two, Two>;

type Eleven = Then<
    Four,
    Then<Same, Then<Loose, Then<Same, Then<Loose, Then<Same, Then<Loose, Same>>>>>>,
>;

/// Eleven stages in a row.
fn eleven() -> Eleven {
    let two = Then {
        first: Same,
        second: Loose,
    };
    let four = Then {
        first: two,
        second: two,
    };
    let three = Then {
        first: Same,
        second: Then {
            first: Loose,
            second: Same,
        },
    };
    let five = Then {
        first: Same,
        second: Then {
            first: Loose,
            second: three,
        },
    };
    let seven = Then {
        first: Same,
        second: Then {
            first: Loose,
            second: five,
        },
    };
    Then {
        first: four,
        second: seven,
    }
}

/// A module with nothing in it.
fn nothing(alloc: Global) -> TypedModule
    ensures { Stage (module_of result) }
{
    let parts = Module {
        types: Items::new(alloc),
        imports: Items::new(alloc),
        funcs: Items::new(alloc),
        tables: Items::new(alloc),
        memories: Items::new(alloc),
        tags: Items::new(alloc),
        globals: Items::new(alloc),
        exports: Items::new(alloc),
        start: None,
        elems: Items::new(alloc),
        data_count: None,
        codes: Items::new(alloc),
        datas: Items::new(alloc),
    };
    TypedModule::build(parts, Items::new(alloc))
}

#[test]
fn eleven_stages_in_a_row_are_a_stage(rt: HostRuntime) -> Result<(), Fail> {
    let alloc = rt.alloc();
    let m = nothing(alloc);
    let lowered = eleven().lower(alloc, &m, &Settings { captures: 1 })?;
    assert!(rt; lowered.functions().is_empty() && lowered.part().types.as_slice().is_empty());
    Ok(())
}
