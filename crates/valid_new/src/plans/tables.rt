// Instructions on tables.

ghost use Rattle.std.specs.Prelude.{◌≡◌};
ghost use Rattle.typing_kit.specs.Steps.{IsPlanOf};
ghost use Rattle.typed_trees.specs.Forms.{form, copy_form};
ghost use Rattle.wasm_ast.specs.declared.module.code.Instr.{out-Instr};
ghost use Rattle.valid_new.specs.Groups.{group, IsPlanned};
ghost use Rattle.valid_new.specs.Scopes.{context_of, labels_of};

use crate::groups::Group;
use crate::scope::{Scope, element_type, table_type};
use crate::types::{index_and, matches, one, two};
use typing_kit::Plan;
use wasm_ast::module::{Instr, Ty};

/// The plan of an instruction on tables.
pub fn plan_of_table<'a>(scope: Scope<'a>, labels: &[&'a [Ty]], instr: &'a Instr) -> Plan<'a, Ty>
    requires { group (out-Instr instr.now) ≡ Group.Tables }
    ensures { IsPlanned result (context_of scope.entry) (labels_of labels.now) instr.now }
{
    match instr {
        Instr::TableGet(table) => match table_type(scope, *table) {
            Some(ty) => Plan::Flat(&[], Some(Ty::I32), one(ty)),
            None => Plan::Untyped,
        },
        Instr::TableSet(table) => match table_type(scope, *table) {
            Some(ty) => Plan::Flat(one(Ty::I32), Some(ty), &[]),
            None => Plan::Untyped,
        },
        Instr::TableSize(table) => match table_type(scope, *table) {
            Some(_) => Plan::Flat(&[], None, one(Ty::I32)),
            None => Plan::Untyped,
        },
        Instr::TableGrow(table) => match table_type(scope, *table) {
            Some(ty) => Plan::Flat(one(ty), Some(Ty::I32), one(Ty::I32)),
            None => Plan::Untyped,
        },
        Instr::TableFill(table) => match table_type(scope, *table) {
            Some(ty) => Plan::Flat(index_and(ty), Some(Ty::I32), &[]),
            None => Plan::Untyped,
        },
        Instr::TableCopy(to, from) => match (table_type(scope, *to), table_type(scope, *from)) {
            (Some(to), Some(from)) => plan_of_copy(to, from),
            _ => Plan::Untyped,
        },
        Instr::TableInit(segment, table) => {
            match (table_type(scope, *table), element_type(scope, *segment)) {
                (Some(to), Some(from)) => plan_of_copy(to, from),
                _ => Plan::Untyped,
            }
        }
        Instr::ElemDrop(segment) => match element_type(scope, *segment) {
            Some(_) => Plan::Flat(&[], None, &[]),
            None => Plan::Untyped,
        },
        _ => Plan::Untyped,
    }
}

/// The plan of a copy of references of the second type to places of the first.
fn plan_of_copy(to: Ty, from: Ty) -> Plan<'static, Ty>
    ensures { IsPlanOf result (copy_form to from) }
{
    if matches(from, to) {
        Plan::Flat(two(Ty::I32), Some(Ty::I32), &[])
    } else {
        Plan::Untyped
    }
}
