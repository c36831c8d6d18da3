// Control instructions that hold no code, br_table aside, and operators.

ghost use Rattle.std.specs.Prelude.{◌≡◌, option_map, ◌++◌, [], ◌∷◌};
ghost use Rattle.wasm_ast.specs.declared.module.ty.Ty.TheVariants.{I32};
ghost use Rattle.typing_kit.specs.Steps.{IsPlanOf, with_top};
ghost use Rattle.typed_trees.specs.Forms.{form, indirect_type, tail_form};
ghost use Rattle.wasm_ast.specs.declared.module.code.Instr.{out-Instr};
ghost use Rattle.valid_new.specs.Groups.{group, IsPlanned};
ghost use Rattle.valid_new.specs.Scopes.{context_of, labels_of};

use super::operators::plan_of_op;
use crate::groups::Group;
use crate::scope::{Scope, func_type, label_types, table_type, tag_type, type_at};
use crate::types::{all_match, one};
use typing_kit::Plan;
use wasm_ast::module::{FuncType, Instr, Ty};

/// The plan of a control instruction without code or of an operator. There is no rule for an instruction on floats.
pub fn plan_of_control<'a>(scope: Scope<'a>, labels: &[&'a [Ty]], instr: &'a Instr) -> Plan<'a, Ty>
    requires { group (out-Instr instr.now) ≡ Group.Control }
    ensures { IsPlanned result (context_of scope.entry) (labels_of labels.now) instr.now }
{
    match instr {
        Instr::Br(label) => match label_types(labels, *label) {
            Some(types) => Plan::Leaves(types, None),
            None => Plan::Untyped,
        },
        Instr::BrIf(label) => match label_types(labels, *label) {
            Some(types) => Plan::Flat(types, Some(Ty::I32), types),
            None => Plan::Untyped,
        },
        Instr::Return => match scope.returns {
            Some(types) => Plan::Leaves(types, None),
            None => Plan::Untyped,
        },
        Instr::Throw(tag) => match tag_type(scope, *tag) {
            Some(ty) => Plan::Leaves(ty.params.as_slice(), None),
            None => Plan::Untyped,
        },
        Instr::ThrowRef => Plan::Leaves(&[], Some(Ty::Exn)),
        Instr::Call(func) => match func_type(scope, *func) {
            Some(ty) => Plan::Flat(ty.params.as_slice(), None, ty.results.as_slice()),
            None => Plan::Untyped,
        },
        Instr::ReturnCall(func) => match func_type(scope, *func) {
            Some(ty) => plan_of_tail(scope, ty, None),
            None => Plan::Untyped,
        },
        Instr::CallIndirect(ty, table) => match indirect_type(scope, *ty, *table) {
            Some(ty) => Plan::Flat(ty.params.as_slice(), Some(Ty::I32), ty.results.as_slice()),
            None => Plan::Untyped,
        },
        Instr::ReturnCallIndirect(ty, table) => match indirect_type(scope, *ty, *table) {
            Some(ty) => plan_of_tail(scope, ty, Some(Ty::I32)),
            None => Plan::Untyped,
        },
        Instr::Pure(op) => plan_of_op(scope, *op),
        _ => Plan::Untyped,
    }
}

/// The type by which a table of functions is called.
fn indirect_type<'a>(scope: Scope<'a>, ty: u32, table: u32) -> Option<&'a FuncType>
    ensures { option_map (λ t. t.now) result ≡ indirect_type (context_of scope.entry) ty table }
{
    match table_type(scope, table) {
        Some(Ty::Func) => type_at(scope, ty),
        _ => None,
    }
}

/// The plan of a tail call of a function of the type, with an operand above its arguments or none.
fn plan_of_tail<'a>(scope: Scope<'a>, ty: &'a FuncType, top: Option<Ty>) -> Plan<'a, Ty>
    ensures { IsPlanOf result (tail_form (context_of scope.entry).returns ty.now (with_top ty.now.params top)) }
{
    match scope.returns {
        Some(returns) => {
            if all_match(ty.results.as_slice(), returns) {
                Plan::Leaves(ty.params.as_slice(), top)
            } else {
                Plan::Untyped
            }
        }
        None => Plan::Untyped,
    }
}
