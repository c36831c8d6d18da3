// One stage after another.

ghost use Rattle.std.specs.Prelude.{◌≡◌, ◌≤◌, true, IfOk};
ghost use Rattle.typed_trees.specs.Typed.{module_of};
ghost use Rattle.pass_law.specs.Law.{Law};
ghost use Rattle.pass_law.specs.Needs.{needs_of};
ghost use Rattle.pass_law.specs.Plans.{then};
ghost use Rattle.pass_law.specs.Stages.{Stage};
ghost use Rattle.pass_law.specs.ThenLawful.{then_lawful};

use crate::pass::Pass;
use crate::settings::Settings;
use std::alloc::{AllocError, Global};
use typed_trees::TypedModule;

/// Two stages as one: it takes the modules that the first takes and of which the second takes what is left.
#[derive(Clone, Copy)]
pub struct Then<P, Q> {
    /// What is done first.
    pub first: P,
    /// What is done with its output.
    pub second: Q,
}

impl<P: Pass, Q: Pass> Pass for Then<P, Q> {
    ghost plan = { then P.plan Q.plan };

    fn lower_owned(
        &self,
        alloc: Global,
        m: TypedModule,
        settings: &Settings,
    ) -> Result<TypedModule, AllocError>
        requires takes { (then P.plan Q.plan).takes (needs_of (module_of m)) ≡ true }
        requires stage { Stage (module_of m) }
        requires least { 1 ≤ settings.now.captures }
        requires most { settings.now.captures ≤ 16384 }
        ensures law { IfOk result (λ o. Law (then P.plan Q.plan) (module_of m) (module_of o) settings.now.captures) }
    {
        let between = self.first.lower_owned(alloc, m, settings)?;
        self.second.lower_owned(alloc, between, settings)
    }

    ghost lawful = { then_lawful P.plan Q.plan P.lawful Q.lawful };
}
