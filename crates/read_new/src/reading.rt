ghost use Rattle.std.specs.Prelude.{◌≡◌, ◌≤◌, length, Result};
ghost use Rattle.wasm_ast.specs.declared.module.parts.Module.{Module};
ghost use Rattle.wasm_frame.specs.declared.sections.Version.TheVariants as version;
ghost use Rattle.module_reading.specs.declared.fault.ReadFault.{ReadFault};
ghost use Rattle.module_reading.specs.Limits.{file_limit};
ghost use Rattle.module_reading.specs.Reads.{UnlessMemory};
ghost use Rattle.read_new.specs.Reads.{Reads, Tells};

use crate::three::Three;
use module_reading::{File, ReadFault};
use std::alloc::Global;
use wasm_ast::module::Module;

/// The module of 3.0 that the bytes of a file spell ("Modules" of the standard, binary format). A file that spells none,
/// or passes a limit, is refused by the first of these that holds: its frame is broken; a section is not in its
/// grammar; a body is not; the counts disagree; a limit is passed. Nothing of a size that a limit bounds is built
/// before that limit was tested. Time and memory are linear in the file, and nothing recurses on its contents.
pub fn read(alloc: Global, b: &[u8]) -> Result<Module, ReadFault>
    requires { length b.now ≤ file_limit }
    ensures tells { Tells b.now result }
    ensures only { UnlessMemory result ((other : Result Module ReadFault) → Reads b.now other → other ≡ result) }
{
    module_reading::read::<Three>(alloc, b)
}

/// The same of a file whose sections are in place.
pub fn read_file(alloc: Global, file: &File<'_>) -> Result<Module, ReadFault>
    requires { file.now.version ≡ version.Three }
    ensures tells { Tells file.now.bytes result }
    ensures only { UnlessMemory result ((other : Result Module ReadFault) → Reads file.now.bytes other → other ≡ result) }
{
    module_reading::read_file::<Three>(alloc, file)
}
