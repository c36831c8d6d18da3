// What holds of every module, whatever decides its typing.

ghost use Rattle.std.specs.Prelude.{◌≡◌, Result};
ghost use Rattle.wasm_ast.specs.declared.module.parts.Module.{Module};
ghost use Rattle.valid_mod.specs.declared.invalid.Invalid.{Invalid};
ghost use Rattle.valid_mod.specs.Verdict.{Settles};

/// Of any module one verdict is right, want of memory aside.
pub fn one_answer()
    ensures { (m : Module) (r s : Result (Unit {0}) Invalid) → Settles m r → Settles m s → r ≡ s }
{}
