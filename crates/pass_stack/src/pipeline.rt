// Comes in: a typed module of 3.0 that the stack takes. Goes out: a module of 1.0.
// Each stage takes what the one before it leaves, and the last module is written as 1.0 writes it.
// Assumed: nothing of the profile's list holds of the module, and it has nothing that no pass takes yet.
// Right because: each stage keeps the law, stages in a row keep it together, and what crosses shows the same.

ghost use Rattle.std.specs.Prelude.{◌≡◌, ◌≤◌, None, IfOk};
ghost use Rattle.core1_ast.specs.Typing.{Typed1};
ghost use Rattle.headline.specs.Headline.{Same};
ghost use Rattle.headline.specs.MappedInterface.{SameInterface};
ghost use Rattle.pass_cross.specs.Crossable.{Crossable};
ghost use Rattle.pass_law.specs.Law.{Law};
ghost use Rattle.pass_stack.specs.Pipeline.{pipeline};
ghost use Rattle.pass_stack.specs.Profile.{outside_stack};
ghost use Rattle.typed_trees.specs.Typed.{module_of};

use core1_ast::module::Module1;
use num_core::lists::TryCopy;
use pass_cross::cross_owned;
use pass_law::{Pass, Settings, Then};
use pass_plain::{Const, Sign, Trim};
use std::alloc::{AllocError, Global};
use typed_trees::TypedModule;

/// The stages of lowering in their order. They nest to the left, so that no more than two of their outputs are held at once.
type Stages = Then<Then<Trim, Sign>, Const>;

const STAGES: Stages = Then {
    first: Then {
        first: Trim,
        second: Sign,
    },
    second: Const,
};

/// What the stages make of a typed module, with room for so many captured exceptions: a typed module that has nothing of
/// 3.0 but typed selects. Each stage moves what it leaves as it is. It fails for want of memory alone. Time is about linear
/// in the size of the module, and the recursion goes as deep as its blocks nest.
pub fn lower_stages(
    alloc: Global,
    m: TypedModule,
    settings: &Settings,
) -> Result<TypedModule, AllocError>
    // The module lies in the profile, and has nothing that no pass takes yet.
    requires stack { outside_stack (module_of m) ≡ None }
    requires least { 1 ≤ settings.now.captures }
    requires most { settings.now.captures ≤ 16384 }
    // The law of the stages in a row.
    ensures law { IfOk result (λ last. Law pipeline (module_of m) (module_of last) settings.now.captures) }
    // Nothing is left that 1.0 lacks, typed selects aside.
    ensures crossable { IfOk result (λ last. Crossable (module_of last)) }
{
    STAGES.lower_owned(alloc, m, settings)
}

/// The module of 1.0 that the stages make of a typed module, with room for so many captured exceptions. The typed module is
/// used up: each body is moved from stage to stage, and dropped when it is written as 1.0 has it. It fails for want of
/// memory alone. Time is about linear in the size of the module, and the recursion goes as deep as its blocks nest.
pub fn lower_module_owned(
    alloc: Global,
    m: TypedModule,
    settings: &Settings,
) -> Result<Module1, AllocError>
    // The module lies in the profile, and has nothing that no pass takes yet.
    requires stack { outside_stack (module_of m) ≡ None }
    requires least { 1 ≤ settings.now.captures }
    requires most { settings.now.captures ≤ 16384 }
    // It is typed by the rules of 1.0.
    ensures typed { IfOk result Typed1 }
    // A host links it as it links the module, by mapped types.
    ensures linked { IfOk result (SameInterface (module_of m)) }
    // Under every fitting script and for any number of turns both show the same, in both directions, and where d calls are
    // open in the module at most d + 1 are in this one.
    ensures same { IfOk result (λ out. Same 1 1 (module_of m) out settings.now.captures) }
{
    let last = lower_stages(alloc, m, settings)?;
    let (_part, _functions) = last.tree();
    cross_owned(alloc, last)
}

/// The same of a copy of the typed module, which stays as it is.
pub fn lower_module(
    alloc: Global,
    m: &TypedModule,
    settings: &Settings,
) -> Result<Module1, AllocError>
    requires stack { outside_stack (module_of m.now) ≡ None }
    requires least { 1 ≤ settings.now.captures }
    requires most { settings.now.captures ≤ 16384 }
    ensures typed { IfOk result Typed1 }
    ensures linked { IfOk result (SameInterface (module_of m.now)) }
    ensures same { IfOk result (λ out. Same 1 1 (module_of m.now) out settings.now.captures) }
{
    let copy = m.copy(alloc)?;
    lower_module_owned(alloc, copy, settings)
}
