// The verdict on the module of a file, in either version.

ghost use Rattle.std.specs.Prelude.{◌≡◌, ◌≤◌, length, None, IfErr, IfOk, OnOk};
ghost use Rattle.wasm_ast.specs.Counts.{Agrees};
ghost use Rattle.wasm_frame.specs.declared.sections.Version.TheVariants as versions;
ghost use Rattle.lower_tool.specs.Stops.{IfNotFine};
ghost use Rattle.module_reading.specs.Limits.{file_limit};
ghost use Rattle.lower_tool.specs.Verdict.{IsValid, IsValid1, IsValid3, IsUntypedAt, CanLower, RefusesAsInvalid, RefusesModule1, RefusesModule3, RefusesLowering};
ghost use Rattle.pass_stack.specs.Profile.{outside_profile, outside_stack};
ghost use Rattle.typed_trees.specs.Modules.{IsTyped};
ghost use Rattle.typed_trees.specs.Typed.{module_of};
ghost use Rattle.valid_mod.specs.Meaning.{SameRuns};
ghost use Rattle.valid_mod.specs.Standing.{StandsFor};

use crate::verdict::{NotFine, Refusal};
use core1_ast::floats::has_floats;
use core1_ast::module::Module1;
use core1_bytes::read1;
use pass_law::Settings;
use pass_stack::{outside_profile, profile};
use read_new::read;
use std::alloc::Global;
use typed_trees::TypedModule;
use valid_core1::{Typed1, validate1};
use valid_mod::{validate, validate_owned};
use wasm_ast::module::Module;
use wasm_frame::sections::Version;

/// Whether bytes spell a valid module of this version within the limits, and one of 3.0 that lies in the profile. All
/// others are refused by the first step of the verdict that holds.
pub fn check_bytes(alloc: Global, version: Version, bytes: &[u8]) -> Result<(), NotFine>
    requires { length bytes.now ≤ file_limit }
    ensures fine { OnOk result (IsValid version bytes.now) }
    ensures refused { IfErr result (λ fault. IfNotFine fault (λ refusal. RefusesAsInvalid version refusal bytes.now)) }
{
    match version {
        Version::One => check1_bytes(alloc, bytes),
        Version::Three => check3_bytes(alloc, bytes),
    }
}

fn check1_bytes(alloc: Global, bytes: &[u8]) -> Result<(), NotFine>
    requires { length bytes.now ≤ file_limit }
    ensures fine { OnOk result (IsValid versions.One bytes.now) }
    ensures refused { IfErr result (λ fault. IfNotFine fault (λ refusal. RefusesAsInvalid versions.One refusal bytes.now)) }
{
    let source = read1(alloc, bytes)?;
    check1_module(alloc, &source)
}

/// Whether a module of 1.0 that was read has no floats and is typed.
fn check1_module(alloc: Global, source: &Module1) -> Result<(), NotFine>
    requires { length source.now.funcs ≡ length source.now.codes }
    ensures fine { OnOk result (IsValid1 source.now) }
    ensures refused { IfErr result (λ fault. IfNotFine fault (λ refusal. RefusesModule1 refusal source.now)) }
{
    type1(alloc, source)?;
    Ok(())
}

/// A module of 1.0 that was read, as one that is typed. One with floats, or that is not typed, is refused.
pub fn type1(alloc: Global, source: &Module1) -> Result<Typed1<'_>, NotFine>
    requires { length source.now.funcs ≡ length source.now.codes }
    ensures same { IfOk result (λ typed. typed ≡ source.now) }
    ensures fine { OnOk result (IsValid1 source.now) }
    ensures refused { IfErr result (λ fault. IfNotFine fault (λ refusal. RefusesModule1 refusal source.now)) }
{
    if has_floats(source) {
        return Err(NotFine::Refused(Refusal::Floats));
    }
    match validate1(alloc, source) {
        Ok(typed) => Ok(typed),
        Err(invalid) => Err(NotFine::from(invalid)),
    }
}

fn check3_bytes(alloc: Global, bytes: &[u8]) -> Result<(), NotFine>
    requires { length bytes.now ≤ file_limit }
    ensures fine { OnOk result (IsValid versions.Three bytes.now) }
    ensures refused { IfErr result (λ fault. IfNotFine fault (λ refusal. RefusesAsInvalid versions.Three refusal bytes.now)) }
{
    let source = read(alloc, bytes)?;
    check3_module(alloc, &source)
}

/// Whether a module of 3.0 that was read lies in the profile and is typed. One typed body is kept at a time.
fn check3_module(alloc: Global, source: &Module) -> Result<(), NotFine>
    requires { Agrees source.now }
    ensures fine { OnOk result (IsValid3 source.now) }
    ensures refused { IfErr result (λ fault. IfNotFine fault (λ refusal. RefusesModule3 refusal source.now)) }
{
    check_profile(alloc, source)?;
    match valid_mod::check(alloc, source) {
        Ok(()) => Ok(()),
        Err(invalid) => Err(NotFine::from(invalid)),
    }
}

/// A module of 3.0 that was read, with its types and with the runs that it has. One outside the profile, or that is not
/// typed, is refused.
pub fn type3(alloc: Global, source: &Module) -> Result<TypedModule, NotFine>
    requires { Agrees source.now }
    ensures runs { IfOk result (λ typed. SameRuns source.now (module_of typed)) }
    ensures fine { OnOk result (IsValid3 source.now) }
    ensures refused { IfErr result (λ fault. IfNotFine fault (λ refusal. RefusesModule3 refusal source.now)) }
{
    check_profile(alloc, source)?;
    type_source(alloc, source)
}

/// The same of a module that is to be lowered, which is used up: one with what no pass takes yet is refused too.
pub fn type_to_lower(
    alloc: Global,
    source: Module,
    settings: &Settings,
) -> Result<TypedModule, NotFine>
    requires { Agrees source }
    ensures stands { IfOk result (StandsFor source) }
    ensures runs { IfOk result (λ typed. SameRuns source (module_of typed)) }
    ensures fine { OnOk result (CanLower source) }
    ensures refused { IfErr result (λ fault. IfNotFine fault (λ refusal. RefusesLowering refusal source)) }
{
    check_stack(alloc, &source, settings)?;
    type_owned(alloc, source)
}

/// A module of 3.0 with its types, made of its own parts.
fn type_owned(alloc: Global, source: Module) -> Result<TypedModule, NotFine>
    requires { Agrees source }
    ensures stands { IfOk result (StandsFor source) }
    ensures runs { IfOk result (λ typed. SameRuns source (module_of typed)) }
    ensures fine { OnOk result (IsTyped source) }
    ensures refused { IfErr result (λ fault. IfNotFine fault (λ refusal. IsUntypedAt refusal source)) }
{
    match validate_owned(alloc, source) {
        Ok(typed) => Ok(typed),
        Err(invalid) => Err(NotFine::from(invalid)),
    }
}

/// A module of 3.0 with its types.
fn type_source(alloc: Global, source: &Module) -> Result<TypedModule, NotFine>
    requires { Agrees source.now }
    ensures runs { IfOk result (λ typed. SameRuns source.now (module_of typed)) }
    ensures fine { OnOk result (IsTyped source.now) }
    ensures refused { IfErr result (λ fault. IfNotFine fault (λ refusal. IsUntypedAt refusal source.now)) }
{
    match validate(alloc, source) {
        Ok(typed) => Ok(typed),
        Err(invalid) => Err(NotFine::from(invalid)),
    }
}

/// Refuses a module of 3.0 that lies outside the profile.
fn check_profile(alloc: Global, source: &Module) -> Result<(), NotFine>
    ensures fine { OnOk result (outside_profile source.now ≡ None) }
    ensures refused { IfErr result (λ fault. IfNotFine fault (λ refusal. RefusesModule3 refusal source.now)) }
{
    match outside_profile(alloc, source)? {
        Some(entry) => Err(NotFine::Refused(Refusal::Outside(entry))),
        None => Ok(()),
    }
}

/// The same, and one with what no pass takes yet.
fn check_stack(alloc: Global, source: &Module, settings: &Settings) -> Result<(), NotFine>
    ensures fine { OnOk result (outside_stack source.now ≡ None) }
    ensures refused { IfErr result (λ fault. IfNotFine fault (λ refusal. RefusesLowering refusal source.now)) }
{
    match profile(alloc, source, settings)? {
        Some(entry) => Err(NotFine::Refused(Refusal::Outside(entry))),
        None => Ok(()),
    }
}
