// From the bytes of a module of 3.0 to the bytes of a module of 1.0.

ghost use Rattle.std.specs.Prelude.{◌≡◌, ◌≤◌, length, None, IfOk, IfErr, OnOk};
ghost use Rattle.lower_tool.specs.Lowering.{IsWrittenFor, Lowers};
ghost use Rattle.lower_tool.specs.Stops.{IfNotFine};
ghost use Rattle.lower_tool.specs.Verdict.{CanLower, RefusesLowering, IsFineToLower, RefusesToLower};
ghost use Rattle.module_reading.specs.Limits.{file_limit};
ghost use Rattle.pass_stack.specs.Profile.{outside_stack};
ghost use Rattle.typed_trees.specs.Typed.{module_of};
ghost use Rattle.wasm_ast.specs.Counts.{Agrees};

use crate::checking::type_to_lower;
use crate::verdict::NotFine;
use core1_bytes::write1;
use num_core::lists::Bytes;
use pass_law::Settings;
use pass_stack::lower_module_owned;
use read_new::read;
use std::alloc::{AllocError, Global};
use typed_trees::TypedModule;
use wasm_ast::module::Module;

/// The lowered module, with room for so many captured exceptions. It takes the bytes of a module that lies in the profile,
/// that passes take and that is typed, and refuses all others by the first step of the verdict that holds. Each form of the
/// module is used up while the next one is made.
pub fn lower_bytes(alloc: Global, bytes: Bytes, captures: u32) -> Result<Bytes, NotFine>
    requires limit { length bytes ≤ file_limit }
    requires least { 1 ≤ captures }
    requires most { captures ≤ 16384 }
    ensures lowered { IfOk result (Lowers captures bytes) }
    ensures fine { OnOk result (IsFineToLower bytes) }
    ensures refused { IfErr result (λ fault. IfNotFine fault (λ refusal. RefusesToLower refusal bytes)) }
{
    let source = read(alloc, bytes.as_slice())?;
    drop(bytes);
    lower_source(alloc, source, Settings { captures })
}

/// The same of the module that was read.
fn lower_source(alloc: Global, source: Module, settings: Settings) -> Result<Bytes, NotFine>
    requires counts { Agrees source }
    requires least { 1 ≤ settings.captures }
    requires most { settings.captures ≤ 16384 }
    ensures lowered { IfOk result (IsWrittenFor settings.captures source) }
    ensures fine { OnOk result (CanLower source) }
    ensures refused { IfErr result (λ fault. IfNotFine fault (λ refusal. RefusesLowering refusal source)) }
{
    let typed = type_to_lower(alloc, source, &settings)?;
    Ok(write_lowered(alloc, typed, settings)?)
}

/// The bytes of what the passes make of a typed module. It fails for want of memory alone.
fn write_lowered(alloc: Global, typed: TypedModule, settings: Settings) -> Result<Bytes, AllocError>
    requires profile { outside_stack (module_of typed) ≡ None }
    requires least { 1 ≤ settings.captures }
    requires most { settings.captures ≤ 16384 }
    ensures { IfOk result (IsWrittenFor settings.captures (module_of typed)) }
{
    let lowered = lower_module_owned(alloc, typed, &settings)?;
    write1(alloc, &lowered)
}
