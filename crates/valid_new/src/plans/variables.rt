// Parametric and variable instructions.

ghost use Rattle.std.specs.Prelude.{◌≡◌};
ghost use Rattle.typing_kit.specs.Steps.{IsPlanOf};
ghost use Rattle.typed_trees.specs.Contexts.{is_value_type};
ghost use Rattle.typed_trees.specs.Forms.{form, select_form};
ghost use Rattle.wasm_ast.specs.declared.module.code.Instr.{out-Instr};
ghost use Rattle.valid_new.specs.Groups.{group, IsPlanned};
ghost use Rattle.valid_new.specs.Scopes.{context_of, labels_of};

use crate::groups::Group;
use crate::scope::{Scope, global_type, local_type};
use crate::types::{is_value_type, one, two};
use typing_kit::{Kind, Plan};
use wasm_ast::module::{Instr, Ty};

/// The plan of a parametric or variable instruction.
pub fn plan_of_variable<'a>(scope: Scope<'a>, labels: &[&'a [Ty]], instr: &'a Instr) -> Plan<'a, Ty>
    requires { group (out-Instr instr.now) ≡ Group.Variables }
    ensures { IsPlanned result (context_of scope.entry) (labels_of labels.now) instr.now }
{
    match instr {
        Instr::Nop => Plan::Flat(&[], None, &[]),
        Instr::Unreachable => Plan::Leaves(&[], None),
        Instr::Drop => Plan::Any(Kind::Every, &[]),
        Instr::Select => Plan::Select,
        Instr::SelectTyped(types) => plan_of_select(types.as_slice()),
        Instr::LocalGet(local) => match local_type(scope, *local) {
            Some(ty) => Plan::Flat(&[], None, one(ty)),
            None => Plan::Untyped,
        },
        Instr::LocalSet(local) => match local_type(scope, *local) {
            Some(ty) => Plan::Flat(&[], Some(ty), &[]),
            None => Plan::Untyped,
        },
        Instr::LocalTee(local) => match local_type(scope, *local) {
            Some(ty) => Plan::Flat(&[], Some(ty), one(ty)),
            None => Plan::Untyped,
        },
        Instr::GlobalGet(global) => match global_type(scope, *global) {
            Some(global) => Plan::Flat(&[], None, one(global.ty)),
            None => Plan::Untyped,
        },
        Instr::GlobalSet(global) => match global_type(scope, *global) {
            Some(global) => {
                if global.mutable {
                    Plan::Flat(&[], Some(global.ty), &[])
                } else {
                    Plan::Untyped
                }
            }
            None => Plan::Untyped,
        },
        _ => Plan::Untyped,
    }
}

/// The plan of a select with these types.
fn plan_of_select<'a>(types: &'a [Ty]) -> Plan<'a, Ty>
    ensures { IsPlanOf result (select_form types.now) }
{
    match types {
        [ty] => {
            if is_value_type(*ty) {
                Plan::Flat(two(*ty), Some(Ty::I32), one(*ty))
            } else {
                Plan::Untyped
            }
        }
        _ => Plan::Untyped,
    }
}
