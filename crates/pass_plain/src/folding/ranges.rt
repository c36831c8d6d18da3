// The numbers in constant expressions are integers of their widths, as all numbers of code are.

ghost use Rattle.std.specs.Prelude.{◌<◌, ◌^◌};
ghost use Rattle.std.specs.List.{AllByRecursion};
ghost use Rattle.wasm_ast.specs.declared.module.code.Instr.{out-Instr};
ghost use Rattle.pass_plain.specs.Constants.{InstrInRange, CodeInRange, ModeInRange};

use wasm_ast::module::{Element, Global, Instr, Mode, Module, Op, Segment};

/// A number of 32 bits.
fn is_narrow(_n: u32)
    ensures { _n < 2 ^ 32 }
{}

/// A number of 64 bits.
fn is_wide(_n: u64)
    ensures { _n < 2 ^ 64 }
{}

/// Each constant of an instruction is an integer of its width.
fn instr_in_range(instr: &Instr)
    ensures { InstrInRange (out-Instr instr.now) }
{
    match instr {
        Instr::Pure(Op::I32Const(n)) => is_narrow(*n),
        Instr::Pure(Op::I64Const(n)) => is_wide(*n),
        _ => {}
    }
}

/// Each constant of code is.
fn code_in_range(code: &[Instr])
    ensures { CodeInRange code.now }
{
    for instr in code {
        instr_in_range(instr);
    }
}

/// Each constant of an offset is.
fn mode_in_range(mode: &Mode)
    ensures { ModeInRange mode.now }
{
    match mode {
        Mode::Active(_, offset) => code_in_range(offset.as_slice()),
        Mode::Passive => {}
        Mode::Declarative => {}
    }
}

/// Each constant of initial values is.
fn globals_in_range(globals: &[Global])
    ensures { AllByRecursion (λ g. CodeInRange g.init) globals.now }
{
    for global in globals {
        code_in_range(global.init.as_slice());
    }
}

/// Each constant of the offsets of element segments is.
fn elems_in_range(elems: &[Element])
    ensures { AllByRecursion (λ e. ModeInRange e.mode) elems.now }
{
    for elem in elems {
        mode_in_range(&elem.mode);
    }
}

/// Each constant of the offsets of data segments is.
fn datas_in_range(datas: &[Segment])
    ensures { AllByRecursion (λ d. ModeInRange d.mode) datas.now }
{
    for data in datas {
        mode_in_range(&data.mode);
    }
}

/// Each constant of the initial values and offsets of a module is.
pub(crate) fn constants_in_range(m: &Module)
    ensures globals { AllByRecursion (λ g. CodeInRange g.init) m.now.globals }
    ensures elems { AllByRecursion (λ e. ModeInRange e.mode) m.now.elems }
    ensures datas { AllByRecursion (λ d. ModeInRange d.mode) m.now.datas }
{
    globals_in_range(m.globals.as_slice());
    elems_in_range(m.elems.as_slice());
    datas_in_range(m.datas.as_slice());
}
