// Operators: instructions that touch no state.

ghost use Rattle.std.specs.Prelude.{◌≡◌};
ghost use Rattle.typing_kit.specs.Steps.{IsPlanOf};
ghost use Rattle.typed_trees.specs.Forms.{op_form};
ghost use Rattle.valid_new.specs.Scopes.{context_of};

use crate::scope::{Scope, is_declared};
use crate::types::{int_type, is_reference_type, lane_type, one, two};
use crate::widths::{are_places, extract_shape, lane_count, width_from, width_to};
use typing_kit::{Kind, Plan};
use wasm_ast::module::{Op, Ty};

/// The plan of an operator.
pub fn plan_of_op<'a>(scope: Scope<'a>, op: Op) -> Plan<'a, Ty>
    ensures { IsPlanOf result (op_form (context_of scope.entry) op) }
{
    match op {
        Op::I32Const(_) => Plan::Flat(&[], None, one(Ty::I32)),
        Op::I64Const(_) => Plan::Flat(&[], None, one(Ty::I64)),
        Op::Eqz(width) => Plan::Flat(&[], Some(int_type(width)), one(Ty::I32)),
        Op::Compare(width, _) => {
            Plan::Flat(one(int_type(width)), Some(int_type(width)), one(Ty::I32))
        }
        Op::Unary(width, _) => Plan::Flat(&[], Some(int_type(width)), one(int_type(width))),
        Op::Binary(width, _) => Plan::Flat(
            one(int_type(width)),
            Some(int_type(width)),
            one(int_type(width)),
        ),
        Op::Convert(op) => Plan::Flat(
            &[],
            Some(int_type(width_from(op))),
            one(int_type(width_to(op))),
        ),
        Op::RefNull(ty) => {
            if is_reference_type(ty) {
                Plan::Flat(&[], None, one(ty))
            } else {
                Plan::Untyped
            }
        }
        Op::RefIsNull => Plan::Any(Kind::Reference, one(Ty::I32)),
        Op::RefFunc(func) => {
            if (func as usize) < scope.spaces.funcs.len() && is_declared(scope, func) {
                Plan::Flat(&[], None, one(Ty::Func))
            } else {
                Plan::Untyped
            }
        }
        Op::V128Const(_) => Plan::Flat(&[], None, one(Ty::V128)),
        Op::Shuffle(places) => {
            if are_places(places) {
                Plan::Flat(one(Ty::V128), Some(Ty::V128), one(Ty::V128))
            } else {
                Plan::Untyped
            }
        }
        Op::Splat(shape) => Plan::Flat(&[], Some(lane_type(shape)), one(Ty::V128)),
        Op::Extract(op, lane) => {
            if lane < lane_count(extract_shape(op)) {
                Plan::Flat(&[], Some(Ty::V128), one(lane_type(extract_shape(op))))
            } else {
                Plan::Untyped
            }
        }
        Op::Replace(shape, lane) => {
            if lane < lane_count(shape) {
                Plan::Flat(one(Ty::V128), Some(lane_type(shape)), one(Ty::V128))
            } else {
                Plan::Untyped
            }
        }
        Op::Bitselect => Plan::Flat(two(Ty::V128), Some(Ty::V128), one(Ty::V128)),
        Op::Lanes1(_) => Plan::Flat(&[], Some(Ty::V128), one(Ty::V128)),
        Op::Lanes2(_) => Plan::Flat(one(Ty::V128), Some(Ty::V128), one(Ty::V128)),
        Op::ShiftLanes(_) => Plan::Flat(one(Ty::V128), Some(Ty::I32), one(Ty::V128)),
        Op::TestLanes(_) => Plan::Flat(&[], Some(Ty::V128), one(Ty::I32)),
    }
}
