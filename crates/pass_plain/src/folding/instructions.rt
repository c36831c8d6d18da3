// Expressions that become one instruction.

ghost use Rattle.std.specs.Prelude.{◌≡◌, [], ◌∷◌, IfOk};
ghost use Rattle.wasm_ast.specs.Fold.{known_at};
ghost use Rattle.pass_plain.specs.Folding.{folded_instr, folded_code, folded_mode, zero_of, folded_global};

use sqlite_items::Items;
use std::alloc::{AllocError, Global};
use wasm_ast::folding::{Folded, fold_of};
use wasm_ast::module::{self, Code, Instr, Mode, Op, Ty};

/// The instruction to which an expression folds. It fails where no code can name the global: such memory is never found.
fn folded_instr(value: Folded) -> Result<Instr, AllocError>
    ensures { IfOk result (λ instr. instr ≡ folded_instr value) }
{
    match value {
        Folded::I32(n) => Ok(Instr::Pure(Op::I32Const(n))),
        Folded::I64(n) => Ok(Instr::Pure(Op::I64Const(n))),
        Folded::Imported(j, _) => match u32::try_from(j) {
            Ok(x) => Ok(Instr::GlobalGet(x)),
            Err(_) => Err(AllocError),
        },
    }
}

/// One instruction as code.
fn alone(alloc: Global, instr: Instr) -> Result<Code, AllocError>
    ensures { IfOk result (λ code. code ≡ instr ∷ []) }
{
    let mut code = Items::new(alloc);
    code.push(instr)?;
    Ok(code)
}

/// The one instruction to which an expression folds, as code.
fn alone_folded(alloc: Global, value: Folded) -> Result<Code, AllocError>
    ensures { IfOk result (λ code. code ≡ folded_instr value ∷ []) }
{
    alone(alloc, folded_instr(value)?)
}

/// An expression, by what it folds to.
fn folded_code(alloc: Global, code: Code, folded: Option<Folded>) -> Result<Code, AllocError>
    ensures { IfOk result (λ new. new ≡ folded_code code folded) }
{
    match folded {
        Some(value) => alone_folded(alloc, value),
        None => Ok(code),
    }
}

/// How a segment comes into its table or memory, with a folded offset.
pub(crate) fn folded_mode(
    alloc: Global,
    known: &[Option<Folded>],
    mode: Mode,
) -> Result<Mode, AllocError>
    ensures { IfOk result (λ new. new ≡ folded_mode known.now mode) }
{
    match mode {
        Mode::Active(index, offset) => {
            let folded = fold_of(alloc, known, offset.as_slice())?;
            Ok(Mode::Active(index, folded_code(alloc, offset, folded)?))
        }
        Mode::Passive => Ok(Mode::Passive),
        Mode::Declarative => Ok(Mode::Declarative),
    }
}

/// The zero of a type.
fn zero_of(ty: Ty) -> Instr
    ensures { result ≡ zero_of ty }
{
    match ty {
        Ty::I64 => Instr::Pure(Op::I64Const(0)),
        _ => Instr::Pure(Op::I32Const(0)),
    }
}

/// A global, by what its initial value folds to.
pub(crate) fn folded_global(
    alloc: Global,
    global: &module::Global,
    folded: Option<Folded>,
) -> Result<module::Global, AllocError>
    ensures { IfOk result (λ new. new ≡ folded_global global.now folded) }
{
    match folded {
        Some(value) => Ok(module::Global {
            ty: global.ty,
            mutable: global.mutable,
            init: alone_folded(alloc, value)?,
        }),
        None => Ok(module::Global {
            ty: global.ty,
            mutable: true,
            init: alone(alloc, zero_of(global.ty))?,
        }),
    }
}

/// What the global with this index is known to fold to, if it does.
pub(crate) fn known_at(known: &[Option<Folded>], global: u32) -> Option<Folded>
    ensures { result ≡ known_at known.now global }
{
    match known.get(global as usize) {
        Some(folded) => *folded,
        None => None,
    }
}
