// Comes in: a module of 3.0 whose values are integers of two widths. Goes out: the same module, each constant expression
// of which is one constant or one imported global.
// An expression that folds becomes the instruction to which it folds. A global whose initial value does not fold begins as
// zero, and a function that runs first sets it and then calls the start function.
// Assumed: imported globals cannot be changed, and offsets fold.
// Right because: an expression that folds has the value to which it folds, and nothing is seen of a module before its start
// function has run.

ghost use Rattle.std.specs.Prelude.{◌≡◌, ◌≤◌, true, IfOk};
ghost use Rattle.typed_trees.specs.Typed.{module_of};
ghost use Rattle.pass_law.specs.Law.{Law};
ghost use Rattle.pass_law.specs.Needs.{needs_of};
ghost use Rattle.pass_law.specs.Stages.{Stage};
ghost use Rattle.pass_plain.specs.ConstantPlan.{constant_plan, constant_lawful};
ghost use Rattle.pass_plain.specs.Foldable.{Foldable};
ghost use Rattle.pass_plain.specs.Folding.{tree_without_constants};

use crate::folding::ranges::constants_in_range;
use crate::folding::setting::setting_code;
use crate::folding::starting::started;
use pass_law::{Pass, Settings};
use std::alloc::{AllocError, Global};
use typed_trees::TypedModule;

/// The stage that leaves no constant expressions that compute.
pub struct Const;

/// The module without constant expressions that compute, in time linear in its parts. It fails for want of memory alone:
/// an index past the greatest is memory that is never found.
fn without_constants(alloc: Global, m: TypedModule) -> Result<TypedModule, AllocError>
    requires foldable { Foldable (module_of m) }
    ensures { IfOk result (λ o. o ≡ tree_without_constants m) }
{
    let (part, fns) = m.into_tree();
    let code = setting_code(alloc, &part)?;
    let (new, all) = started(alloc, part, code, fns)?;
    Ok(TypedModule::build(new, all))
}

impl Pass for Const {
    ghost plan = { constant_plan };

    fn lower_owned(
        &self,
        alloc: Global,
        m: TypedModule,
        settings: &Settings,
    ) -> Result<TypedModule, AllocError>
        requires takes { constant_plan.takes (needs_of (module_of m)) ≡ true }
        requires stage { Stage (module_of m) }
        requires least { 1 ≤ settings.now.captures }
        requires most { settings.now.captures ≤ 16384 }
        ensures law { IfOk result (λ o. Law constant_plan (module_of m) (module_of o) settings.now.captures) }
    {
        let (part, _) = m.tree();
        constants_in_range(part);
        without_constants(alloc, m)
    }

    ghost lawful = { constant_lawful };
}
