// The code that sets the globals whose initial values do not fold.

ghost use Rattle.std.specs.Prelude.{◌≡◌, ◌+◌, ◌<◌, ◌^◌, ◌++◌, [], length, IfOk, OnOk};
ghost use Rattle.pass_plain.specs.Folding.{set_global, set_globals, setting_code};
ghost use Rattle.stage_kit.specs.Prepared.{call_start};

use super::instructions::known_at;
use super::parts::first_own;
use num_core::lists::TryCopy;
use sqlite_items::Items;
use std::alloc::{AllocError, Global};
use wasm_ast::folding::{Folded, known_globals};
use wasm_ast::module::{self, Code, Instr, Module};

/// Puts copies of instructions behind code.
fn put_copies(alloc: Global, code: &[Instr], out: &mut Code) -> Result<(), AllocError>
    ensures { OnOk result (out.new ≡ out.old ++ code.now) }
{
    for instr in code {
        out.push(instr.copy(alloc)?)?;
    }
    Ok(())
}

/// Puts the code that sets the global with this index behind other code, where its initial value does not fold.
fn put_set(
    alloc: Global,
    x: u32,
    init: &[Instr],
    folded: Option<Folded>,
    out: &mut Code,
) -> Result<(), AllocError>
    ensures { OnOk result (out.new ≡ out.old ++ set_global x init.now folded) }
{
    match folded {
        Some(_) => Ok(()),
        None => {
            put_copies(alloc, init, out)?;
            out.push(Instr::GlobalSet(x))
        }
    }
}

/// The code that sets the module's own globals, the first of which has this index.
fn set_globals(
    alloc: Global,
    known: &[Option<Folded>],
    first: u32,
    globals: &[module::Global],
) -> Result<Code, AllocError>
    requires { first + length globals.now < 2 ^ 32 }
    ensures { IfOk result (λ code. code ≡ set_globals known.now first globals.now) }
{
    let mut code = Items::new(alloc);
    let mut x = first;
    for global in globals {
        put_set(
            alloc,
            x,
            global.init.as_slice(),
            known_at(known, x),
            &mut code,
        )?;
        x += 1;
    }
    Ok(code)
}

/// Puts a call of the start function, if there is one, behind code.
pub(crate) fn put_call(start: Option<u32>, code: &mut Code) -> Result<(), AllocError>
    ensures { OnOk result (code.new ≡ code.old ++ call_start start) }
{
    match start {
        Some(f) => code.push(Instr::Call(f)),
        None => Ok(()),
    }
}

/// The code that sets the module's globals whose initial values do not fold.
pub(crate) fn setting_code(alloc: Global, part: &Module) -> Result<Code, AllocError>
    ensures { IfOk result (λ code. code ≡ setting_code part.now) }
{
    let known = known_globals(alloc, part)?;
    let first = first_own(part)?;
    set_globals(alloc, known.as_slice(), first, part.globals.as_slice())
}
