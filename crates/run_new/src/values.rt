// Values (the standard's "Values" of chapter 4), and how they meet the host.
ghost use Rattle.std.specs.Prelude.{◌≡◌, ◌<◌, ◌^◌, [], ◌∷◌, not, nat_eq};
ghost use Rattle.num_core.specs.Integers.{bits};
ghost use Rattle.meaning_new.specs.Store.{default, missing, number, int, address_width, truth, from_null, to_host, from_host};
ghost use Rattle.meaning_new.specs.Numeric.{is_null, first};
ghost use Rattle.evaluation_kit.specs.Leaves.{on_operands, branch_if, branch_table};
ghost use Rattle.meaning_new.specs.Store.{State};
ghost use Rattle.meaning_new.specs.Forms.{function_of, holds, select};
ghost use Rattle.run_new.specs.Leaves.{Does, fits_or_trap};

use crate::slot::Slot;
use evaluation_kit::Jump;
use host_kit::Value;
use meaning_new::Val;
use num_core::operators::Width;
use run_kit::Change;
use wasm_ast::module::Ty;

/// The width of the addresses of a memory.
pub(crate) fn address_width(wide: bool) -> Width
    ensures { result ≡ address_width wide }
{
    if wide { Width::W64 } else { Width::W32 }
}

/// Whether a value is a null reference.
pub(crate) fn is_null(value: Slot) -> bool
    ensures { result ≡ is_null value }
{
    matches!(value.value(), Val::Null(_))
}

/// The function to which a value refers, if it refers to one.
pub(crate) fn function_of(value: Slot) -> Option<u32>
    ensures { result ≡ function_of value }
{
    match value.value() {
        Val::Func(func) => Some(func),
        _ => None,
    }
}

/// What a declared local of a type begins with (the standard's "Default Values").
pub(crate) fn default(ty: Ty) -> Slot
    ensures { result ≡ default ty }
{
    match ty {
        Ty::I64 => Slot::i64(0),
        Ty::V128 => Slot::v128(0),
        Ty::Func | Ty::Extern | Ty::Exn => Slot::null(ty),
        Ty::I32 | Ty::F32 | Ty::F64 => Slot::i32(0),
    }
}

/// A value as its host sees it.
pub(crate) fn to_host(value: Slot) -> Value
    ensures { result ≡ to_host value }
{
    match value.value() {
        Val::I32(i) => Value::I32(i),
        Val::I64(i) => Value::I64(i),
        Val::V128(v) => Value::V128((v % (1 << 64)) as u64, (v / (1 << 64)) as u64),
        Val::Func(func) => Value::Func(func),
        Val::Extern(number) => Value::Extern(number),
        Val::Exn(_) => Value::NullExtern,
        Val::Null(ty) => null_to_host(ty),
    }
}

/// The null reference of a type as the host sees it.
fn null_to_host(ty: Ty) -> Value
    ensures { result ≡ from_null ty }
{
    match ty {
        Ty::Func => Value::NullFunc,
        _ => Value::NullExtern,
    }
}

/// A value of the host's.
pub(crate) fn from_host(value: Value) -> Slot
    ensures { result ≡ from_host value }
{
    match value {
        Value::I32(i) => Slot::i32(i),
        Value::I64(i) => Slot::i64(i),
        Value::V128(low, high) => Slot::v128(low as u128 + high as u128 * (1 << 64)),
        Value::Func(func) => Slot::func(func),
        Value::Extern(number) => Slot::external(number),
        Value::NullFunc => Slot::null(Ty::Func),
        Value::NullExtern => Slot::null(Ty::Extern),
    }
}

/// What select does: the first of the lower two operands where the condition on the top holds, else the second (the
/// standard's "Parametric Instructions").
#[inline(always)]
pub(crate) fn select(top: Slot, second: Slot, first: Slot) -> Change<Slot>
    ensures { (s : State) → Does (on_operands select) (top ∷ second ∷ first ∷ []) s result s }
{
    Change::Put(3, if top.is_true() { first } else { second })
}

/// What br_if does: the branch to a label where the condition on the top holds (the standard's "Control Instructions").
#[inline(always)]
pub(crate) fn branch_if(label: u32, top: Slot) -> Change<Slot>
    ensures { (s : State) → Does (branch_if holds label) (top ∷ []) s result s }
{
    if top.is_true() {
        Change::Exit(1, Jump::Branch(label))
    } else {
        Change::Take(1)
    }
}

/// What br_table does: the branch to the label that the top numbers, or to the last one (the standard's "Control
/// Instructions").
pub(crate) fn branch_table(labels: &[u32], last: u32, top: Slot) -> Change<Slot>
    ensures { (s : State) → Does (branch_table first labels.now last) (top ∷ []) s result s }
{
    let label = match usize::try_from(top.number()) {
        Ok(place) => labels.get(place).copied().unwrap_or(last),
        Err(_) => last,
    };
    Change::Exit(1, Jump::Branch(label))
}

/// What an instruction does that takes so many operands where a range is inside, and else traps.
pub(crate) fn fits_or_trap(fits: bool, count: usize) -> Change<Slot>
    ensures { result ≡ fits_or_trap fits count }
{
    if fits {
        Change::Take(count)
    } else {
        Change::Exit(0, Jump::Trap)
    }
}
