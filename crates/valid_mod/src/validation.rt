// The verdict on a module: its parts in their order, then its bodies.

ghost use Rattle.std.specs.Prelude.{◌≡◌, [], IfOk, Result};
ghost use Rattle.wasm_ast.specs.Counts.{Agrees};
ghost use Rattle.valid_mod.specs.declared.invalid.Invalid.{Invalid};
ghost use Rattle.valid_mod.specs.Bodies.{filled, TellsOfBodies};
ghost use Rattle.valid_mod.specs.Standing.{StandsFor};
ghost use Rattle.valid_mod.specs.Meaning.{SameRuns};
ghost use Rattle.typed_trees.specs.Typed.{module_of};
ghost use Rattle.valid_mod.specs.Verdict.{IsVerdict, Settles, Tells, verdict_of};

use crate::bare::parts_of;
use crate::bodies::{check_bodies, type_bodies, type_owned_bodies};
use crate::invalid::Invalid;
use crate::parts::type_parts;
use sqlite_items::Items;
use std::alloc::Global;
use std::mem;
use typed_trees::{TypedFn, TypedModule};
use wasm_ast::module::{Body, Module};

/// The parts are typed, and then the bodies, which are given with their types.
fn type_module(alloc: Global, m: &Module) -> Result<Items<TypedFn>, Invalid>
    requires { Agrees m.now }
    ensures { TellsOfBodies m.now result }
{
    let spaces = type_parts(alloc, m)?;
    type_bodies(alloc, &spaces, m)
}

/// The same of a module whose bodies are beside its parts. Each body is dropped once it is typed.
fn type_apart(alloc: Global, parts: &Module, bodies: Items<Body>) -> Result<Items<TypedFn>, Invalid>
    requires none { parts.now.codes ≡ [] }
    requires counts { Agrees (filled parts.now bodies) }
    ensures { TellsOfBodies (filled parts.now bodies) result }
{
    let spaces = type_parts(alloc, parts)?;
    type_owned_bodies(alloc, &spaces, parts, bodies)
}

/// Whether a module is typed as 3.0 ("Modules" of chapter 3), and then the module with its types and without code that
/// cannot be reached. Its parts are tested in the order of their sections and places, and then its bodies; the answer
/// names the first that is not typed. The time is about linear in the size of the module, and the recursion goes as deep
/// as its blocks nest.
pub fn validate(alloc: Global, m: &Module) -> Result<TypedModule, Invalid>
    requires { Agrees m.now }
    // What the answer says of the module.
    ensures tells { Tells m.now (verdict_of result) }
    // The typed module is that module.
    ensures stands { IfOk result (StandsFor m.now) }
    // It has the runs of that module: what it lacks is never run.
    ensures meaning { IfOk result (λ typed. SameRuns m.now (module_of typed)) }
    // No other answer is right, want of memory aside.
    ensures only { (other : Result (Unit {0}) Invalid) → Settles m.now other → IsVerdict (verdict_of result) other }
{
    let fns = type_module(alloc, m)?;
    let parts = parts_of(alloc, m)?;
    Ok(TypedModule::build(parts, fns))
}

/// The same by value, which takes the module apart: no part is copied, and each body is dropped once it is typed, so that
/// the module that was read and the typed one are never both whole in memory.
pub fn validate_owned(alloc: Global, m: Module) -> Result<TypedModule, Invalid>
    requires { Agrees m }
    // What the answer says of the module.
    ensures tells { Tells m (verdict_of result) }
    // The typed module is that module.
    ensures stands { IfOk result (StandsFor m) }
    // It has the runs of that module: what it lacks is never run.
    ensures meaning { IfOk result (λ typed. SameRuns m (module_of typed)) }
    // No other answer is right, want of memory aside.
    ensures only { (other : Result (Unit {0}) Invalid) → Settles m other → IsVerdict (verdict_of result) other }
{
    let mut parts = m;
    let bodies = mem::replace(&mut parts.codes, Items::new(alloc));
    let fns = type_apart(alloc, &parts, bodies)?;
    Ok(TypedModule::build(parts, fns))
}

/// The same verdict, for which nothing of a body is kept.
pub fn check(alloc: Global, m: &Module) -> Result<(), Invalid>
    requires { Agrees m.now }
    // What the answer says of the module.
    ensures tells { Tells m.now result }
    // No other answer is right, want of memory aside.
    ensures only { (other : Result (Unit {0}) Invalid) → Settles m.now other → IsVerdict result other }
{
    let spaces = type_parts(alloc, m)?;
    check_bodies(alloc, &spaces, m)
}
