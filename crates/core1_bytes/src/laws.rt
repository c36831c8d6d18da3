// What holds of spelled modules, whatever reads or writes them.

ghost use Rattle.std.specs.Prelude.{◌≡◌, ℕ, List, Result};
ghost use Rattle.core1_ast.specs.declared.module.parts.Module1.{Module1};
ghost use Rattle.module_reading.specs.declared.fault.ReadFault.{ReadFault};
ghost use Rattle.module_reading.specs.Reads.{Reads};
ghost use Rattle.core1_bytes.specs.Spells.{one, Spells1};

/// One byte string spells one module at most.
pub fn one_module()
    ensures { (b : List ℕ) (m o : Module1) → Spells1 b m → Spells1 b o → m ≡ o }
{}

/// Of any file one answer holds, want of memory aside: so each fault comes exactly where its cause holds, and what was
/// written is read again as the same module.
pub fn one_answer()
    ensures { (b : List ℕ) (r s : Result Module1 ReadFault) → Reads one b r → Reads one b s → r ≡ s }
{}
