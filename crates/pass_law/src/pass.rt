// The trait of the stages of lowering.

ghost use Rattle.std.specs.Prelude.{◌≡◌, ◌≤◌, true, IfOk};
ghost use Rattle.typed_trees.specs.Typed.{module_of};
ghost use Rattle.pass_law.specs.Law.{Law};
ghost use Rattle.pass_law.specs.Needs.{needs_of};
ghost use Rattle.pass_law.specs.Plans.{Plan, Lawful};
ghost use Rattle.pass_law.specs.Stages.{Stage};

use crate::settings::Settings;
use num_core::lists::TryCopy;
use std::alloc::{AllocError, Global};
use typed_trees::TypedModule;

/// A stage of lowering: it makes a typed module of a typed module, and both show the same.
pub trait Pass {
    /// What it says of itself.
    ghost plan: { Plan };

    /// The lowered module; what stays of the module is moved. It fails for want of memory alone.
    fn lower_owned(
        &self,
        alloc: Global,
        m: TypedModule,
        settings: &Settings,
    ) -> Result<TypedModule, AllocError>
        requires takes { plan.takes (needs_of (module_of m)) ≡ true }
        requires stage { Stage (module_of m) }
        requires least { 1 ≤ settings.now.captures }
        requires most { settings.now.captures ≤ 16384 }
        ensures law { IfOk result (λ o. Law plan (module_of m) (module_of o) settings.now.captures) };

    /// The same of a copy of the module, which stays as it is.
    fn lower(
        &self,
        alloc: Global,
        m: &TypedModule,
        settings: &Settings,
    ) -> Result<TypedModule, AllocError>
        requires takes { plan.takes (needs_of (module_of m.now)) ≡ true }
        requires stage { Stage (module_of m.now) }
        requires least { 1 ≤ settings.now.captures }
        requires most { settings.now.captures ≤ 16384 }
        ensures law { IfOk result (λ o. Law plan (module_of m.now) (module_of o) settings.now.captures) }
    {
        let copy = m.copy(alloc)?;
        self.lower_owned(alloc, copy, settings)
    }

    /// The plan is as every plan is.
    ghost lawful: { Lawful plan };
}
