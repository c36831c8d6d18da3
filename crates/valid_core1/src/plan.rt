// The plan of each instruction of 1.0 by its form, in the order of the standard.

ghost use Rattle.std.specs.Prelude.{◌≡◌, ◌&&◌, List, [], ◌∷◌, ◌++◌, cond, slice_get};
ghost use Rattle.std.specs.List.{list_all};
ghost use Rattle.core1_ast.specs.declared.module.ty.Ty1.{Ty1};
ghost use Rattle.core1_ast.specs.declared.module.ty.Ty1.TheVariants.{I32};
ghost use Rattle.core1_ast.specs.Operands.{block_results};
ghost use Rattle.core1_ast.specs.Code.{func_type};
ghost use Rattle.core1_ast.specs.declared.module.code.Instr1.{out-Instr1};
ghost use Rattle.core1_ast.specs.declared.module.code.Instr1.TheOpen.{Instr1-F};
ghost use Rattle.typing_kit.specs.Form.{Flat, Leaves};
ghost use Rattle.typing_kit.specs.Steps.{IsPlanOf, IsLeaf};
ghost use Rattle.valid_core1.specs.Forms.{form_of, found, where_true, is_some_of, is_label, is_short as is_short_list, language};
ghost use Rattle.valid_core1.specs.Scopes.{AreSpaces, context_of, label_types};
ghost use Rattle.valid_core1.specs.Checks.{HoldsNone};

use crate::accesses::{is_aligned, load_exponent, loaded, store_exponent, stored};
use crate::labels::{all_labels, label};
use crate::scope::Scope;
use crate::types::{gives, one, results, takes};
use core1_ast::module::{BlockType1, Instr1, MemArg1, Ty1};
use num_core::operators::{Load, Store};
use sqlite_items::Items;
use typing_kit::{Kind, Plan};

/// An access of a variable of a type, which takes a value, gives one, or both.
fn access_plan(ty: Option<Ty1>, takes: bool, gives: bool) -> Plan<'static, Ty1>
    ensures { IsPlanOf result (found ty (λ t. Flat (cond takes (t ∷ []) []) (cond gives (t ∷ []) []))) }
{
    match ty {
        Some(ty) => match (takes, gives) {
            (true, true) => Plan::Flat(one(ty), None, one(ty)),
            (true, false) => Plan::Flat(one(ty), None, &[]),
            (false, true) => Plan::Flat(&[], None, one(ty)),
            (false, false) => Plan::Flat(&[], None, &[]),
        },
        None => Plan::Untyped,
    }
}

/// global.get.
fn global_get_plan(scope: &Scope<'_>, index: u32) -> Plan<'static, Ty1>
    requires { AreSpaces scope.now.module.now scope.now.spaces.now }
    ensures { IsPlanOf result (form_of (context_of scope.now) [] (Instr1-F.GlobalGet index)) }
{
    match scope.global(index) {
        Some(global) => Plan::Flat(&[], None, one(global.ty)),
        None => Plan::Untyped,
    }
}

/// global.set.
fn global_set_plan(scope: &Scope<'_>, index: u32) -> Plan<'static, Ty1>
    requires { AreSpaces scope.now.module.now scope.now.spaces.now }
    ensures { IsPlanOf result (form_of (context_of scope.now) [] (Instr1-F.GlobalSet index)) }
{
    match scope.global(index) {
        Some(global) if global.mutable => Plan::Flat(one(global.ty), None, &[]),
        _ => Plan::Untyped,
    }
}

/// A load.
fn load_plan(scope: &Scope<'_>, op: Load, at: &MemArg1) -> Plan<'static, Ty1>
    requires { AreSpaces scope.now.module.now scope.now.spaces.now }
    ensures { IsPlanOf result (form_of (context_of scope.now) [] (Instr1-F.Load op at.now)) }
{
    if scope.has_memory() && is_aligned(at, load_exponent(op)) {
        Plan::Flat(&[Ty1::I32], None, loaded(op))
    } else {
        Plan::Untyped
    }
}

/// A store.
fn store_plan(scope: &Scope<'_>, op: Store, at: &MemArg1) -> Plan<'static, Ty1>
    requires { AreSpaces scope.now.module.now scope.now.spaces.now }
    ensures { IsPlanOf result (form_of (context_of scope.now) [] (Instr1-F.Store op at.now)) }
{
    if scope.has_memory() && is_aligned(at, store_exponent(op)) {
        Plan::Flat(stored(op), None, &[])
    } else {
        Plan::Untyped
    }
}

/// memory.size.
fn memory_size_plan(scope: &Scope<'_>) -> Plan<'static, Ty1>
    requires { AreSpaces scope.now.module.now scope.now.spaces.now }
    ensures { IsPlanOf result (form_of (context_of scope.now) [] Instr1-F.MemorySize) }
{
    if scope.has_memory() {
        Plan::Flat(&[], None, &[Ty1::I32])
    } else {
        Plan::Untyped
    }
}

/// memory.grow.
fn memory_grow_plan(scope: &Scope<'_>) -> Plan<'static, Ty1>
    requires { AreSpaces scope.now.module.now scope.now.spaces.now }
    ensures { IsPlanOf result (form_of (context_of scope.now) [] Instr1-F.MemoryGrow) }
{
    if scope.has_memory() {
        Plan::Flat(&[Ty1::I32], None, &[Ty1::I32])
    } else {
        Plan::Untyped
    }
}

/// br.
fn br_plan(labels: &[BlockType1], index: u32) -> Plan<'static, Ty1>
    ensures { IsPlanOf result (found (slice_get (label_types labels.now) index) (λ ts. Leaves ts)) }
{
    match label(labels, index) {
        Some(ty) => Plan::Leaves(results(ty), None),
        None => Plan::Untyped,
    }
}

/// br_if.
fn br_if_plan(labels: &[BlockType1], index: u32) -> Plan<'static, Ty1>
    ensures { IsPlanOf result (found (slice_get (label_types labels.now) index) (λ ts. Flat (ts ++ I32 ∷ []) ts)) }
{
    match label(labels, index) {
        Some(ty) => Plan::Flat(results(ty), Some(Ty1::I32), results(ty)),
        None => Plan::Untyped,
    }
}

/// br_table whose last label takes these results, where each other label does.
fn table_plan(ty: BlockType1, fits: bool) -> Plan<'static, Ty1>
    ensures { IsPlanOf result (where_true fits (Leaves (block_results ty ++ I32 ∷ []))) }
{
    if fits {
        Plan::Leaves(results(ty), Some(Ty1::I32))
    } else {
        Plan::Untyped
    }
}

/// br_table.
fn br_table_plan(labels: &[BlockType1], indices: &Items<u32>, last: u32) -> Plan<'static, Ty1>
    ensures { IsPlanOf result (found (slice_get (label_types labels.now) last)
        (λ ts. where_true (is_short_list indices.now && list_all (λ l. is_label (slice_get (label_types labels.now) l) ts) indices.now) (Leaves (ts ++ I32 ∷ [])))) }
{
    match label(labels, last) {
        Some(ty) => table_plan(ty, all_labels(labels, indices, ty)),
        None => Plan::Untyped,
    }
}

/// call.
fn call_plan<'a>(scope: &'a Scope<'_>, index: u32) -> Plan<'a, Ty1>
    requires { AreSpaces scope.now.module.now scope.now.spaces.now }
    ensures { IsPlanOf result (found (func_type (context_of scope.now) index) (λ t. Flat t.params t.results)) }
{
    match scope.func_type(index) {
        Some(ty) => Plan::Flat(ty.params.as_slice(), None, ty.results.as_slice()),
        None => Plan::Untyped,
    }
}

/// call_indirect.
fn call_indirect_plan<'a>(scope: &'a Scope<'_>, index: u32) -> Plan<'a, Ty1>
    requires { AreSpaces scope.now.module.now scope.now.spaces.now }
    ensures { IsPlanOf result (where_true (is_some_of (context_of scope.now).tables) (found (slice_get (context_of scope.now).types index) (λ t. Flat (t.params ++ I32 ∷ []) t.results))) }
{
    match scope.type_at(index) {
        Some(ty) if scope.has_table() => Plan::Flat(
            ty.params.as_slice(),
            Some(Ty1::I32),
            ty.results.as_slice(),
        ),
        _ => Plan::Untyped,
    }
}

/// The plan of an instruction under labels, which holds no code.
pub fn plan_of<'a>(scope: &'a Scope<'_>, labels: &[BlockType1], instr: &Instr1) -> Plan<'a, Ty1>
    requires spaces { AreSpaces scope.now.module.now scope.now.spaces.now }
    requires leaf { HoldsNone (out-Instr1 instr.now) }
    ensures form { IsPlanOf result ((language (context_of scope.now)).form (label_types labels.now) instr.now) }
    ensures leaf { IsLeaf result }
{
    match instr {
        Instr1::Unreachable => Plan::Leaves(&[], None),
        Instr1::Nop => Plan::Flat(&[], None, &[]),
        Instr1::Br(index) => br_plan(labels, *index),
        Instr1::BrIf(index) => br_if_plan(labels, *index),
        Instr1::BrTable(indices, last) => br_table_plan(labels, indices, *last),
        Instr1::Return => Plan::Leaves(results(scope.results), None),
        Instr1::Call(index) => call_plan(scope, *index),
        Instr1::CallIndirect(index) => call_indirect_plan(scope, *index),
        Instr1::Drop => Plan::Any(Kind::Every, &[]),
        Instr1::Select => Plan::Select,
        Instr1::LocalGet(index) => access_plan(scope.local(*index), false, true),
        Instr1::LocalSet(index) => access_plan(scope.local(*index), true, false),
        Instr1::LocalTee(index) => access_plan(scope.local(*index), true, true),
        Instr1::GlobalGet(index) => global_get_plan(scope, *index),
        Instr1::GlobalSet(index) => global_set_plan(scope, *index),
        Instr1::Load(op, at) => load_plan(scope, *op, at),
        Instr1::Store(op, at) => store_plan(scope, *op, at),
        Instr1::MemorySize => memory_size_plan(scope),
        Instr1::MemoryGrow => memory_grow_plan(scope),
        Instr1::Pure(op) => Plan::Flat(takes(*op), None, gives(*op)),
        Instr1::Float(_, _) => Plan::Untyped,
        Instr1::Block(_, _) => Plan::Untyped,
        Instr1::Loop(_, _) => Plan::Untyped,
        Instr1::If(_, _, _) => Plan::Untyped,
    }
}
