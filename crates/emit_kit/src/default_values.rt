// The global that the builder adds.

ghost use Rattle.std.specs.Prelude.{◌≡◌, IfOk};
ghost use Rattle.emit_kit.specs.Built.{default_value, new_global};

use lane_core::vector::V;
use sqlite_items::Items;
use std::alloc::{AllocError, Global};
use wasm_ast::module;
use wasm_ast::module::{FloatCode, FloatImmediates, Instr, Op, Ty};

/// The instruction that gives the default value of the type: zero, and null of a reference type.
fn default_value(ty: Ty) -> Instr
    ensures { result ≡ default_value ty }
{
    match ty {
        Ty::I32 => Instr::Pure(Op::I32Const(0)),
        Ty::I64 => Instr::Pure(Op::I64Const(0)),
        Ty::F32 => Instr::Float(FloatCode::Plain(0x43), FloatImmediates::Bits32(0)),
        Ty::F64 => Instr::Float(FloatCode::Plain(0x44), FloatImmediates::Bits64(0)),
        Ty::V128 => Instr::Pure(Op::V128Const(V(0))),
        Ty::Func | Ty::Extern | Ty::Exn => Instr::Pure(Op::RefNull(ty)),
    }
}

/// A mutable global of the type, which begins with its default value. It fails for want of memory alone.
pub fn new_global(alloc: Global, ty: Ty) -> Result<module::Global, AllocError>
    ensures { IfOk result (λ global. global ≡ new_global ty) }
{
    let mut init = Items::new(alloc);
    init.push(default_value(ty))?;
    Ok(module::Global {
        ty,
        mutable: true,
        init,
    })
}
