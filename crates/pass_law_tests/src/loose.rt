// A stage that says less than it does: it leaves a module as it is.

ghost use Rattle.std.specs.Prelude.{◌≡◌, ◌≤◌, true, IfOk};
ghost use Rattle.typed_trees.specs.Typed.{module_of};
ghost use Rattle.pass_law.specs.Law.{Law};
ghost use Rattle.pass_law.specs.Needs.{needs_of};
ghost use Rattle.pass_law.specs.Stages.{Stage};
ghost use Rattle.pass_law_tests.specs.Stages.{loose_plan, loose_lawful};

use pass_law::{Pass, Settings};
use std::alloc::{AllocError, Global};
use typed_trees::TypedModule;

/// The module is handed on.
#[derive(Clone, Copy)]
pub struct Loose;

impl Pass for Loose {
    ghost plan = { loose_plan };

    fn lower_owned(
        &self,
        _alloc: Global,
        m: TypedModule,
        settings: &Settings,
    ) -> Result<TypedModule, AllocError>
        requires takes { loose_plan.takes (needs_of (module_of m)) ≡ true }
        requires stage { Stage (module_of m) }
        requires least { 1 ≤ settings.now.captures }
        requires most { settings.now.captures ≤ 16384 }
        ensures law { IfOk result (λ o. Law loose_plan (module_of m) (module_of o) settings.now.captures) }
    {
        Ok(m)
    }

    ghost lawful = { loose_lawful };
}
