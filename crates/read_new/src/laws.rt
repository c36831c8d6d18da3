// What holds of files and the modules that they spell, whatever reads or writes them.

ghost use Rattle.std.specs.Prelude.{◌≡◌, ℕ, List, Result};
ghost use Rattle.wasm_ast.specs.declared.module.parts.Module.{Module};
ghost use Rattle.module_reading.specs.declared.fault.ReadFault.{ReadFault};
ghost use Rattle.read_new.specs.Reads.{Reads};
ghost use Rattle.read_new.specs.Spells.{Spells};

/// One byte string spells one module at most, and has one answer at most.
pub fn one_module()
    ensures modules { (b : List ℕ) (m o : Module) → Spells b m → Spells b o → m ≡ o }
    ensures answers { (b : List ℕ) (r s : Result Module ReadFault) → Reads b r → Reads b s → r ≡ s }
{}
