ghost use Rattle.std.specs.Prelude.{◌≡◌, ◌≤◌, take, length};
ghost use Rattle.core1_ast.specs.Typing.{TypedImport};
ghost use Rattle.valid_core1.specs.Checks.{Decided};
ghost use Rattle.valid_core1.specs.Parts.{IsFirst, tables_in, memories_in};

use crate::labels::is_integer;
use crate::parts::limits::{MEMORY_BOUND, TABLE_BOUND, limits_are_typed};
use crate::search::PartTest;
use core1_ast::module::{Import1, ImportDesc1, Module1};

/// How many tables are imported.
pub fn count_tables(imports: &[Import1]) -> usize
    ensures count { result ≡ tables_in imports.now }
    ensures within { result ≤ length imports.now }
{
    let mut count = 0;
    for import in imports {
        if let ImportDesc1::Table(_) = import.desc {
            count += 1;
        }
    }
    count
}

/// How many memories are imported.
pub fn count_memories(imports: &[Import1]) -> usize
    ensures count { result ≡ memories_in imports.now }
    ensures within { result ≤ length imports.now }
{
    let mut count = 0;
    for import in imports {
        if let ImportDesc1::Memory(_) = import.desc {
            count += 1;
        }
    }
    count
}

/// The test of imports. A table or a memory looks through the imports before it. This takes no long, since no second one
/// is typed.
#[derive(Drop)]
pub struct ImportTest<'a> {
    /// The module.
    pub module: &'a Module1,
}

impl<'a> PartTest for ImportTest<'a> {
    ghost use Rattle.std.specs.Prelude.{take};
    ghost use Rattle.core1_ast.specs.Typing.{TypedImport};
    ghost use Rattle.valid_core1.specs.Parts.{IsFirst};

    type Part = Import1;

    ghost may = { λ _. Unit {0} };

    ghost typed = { λ self k i. TypedImport self.module.now i.desc × IsFirst (take k self.module.now.imports) i.desc };

    fn is_typed(&self, place: usize, import: &Import1) -> bool
        ensures { Decided result (TypedImport self.now.module.now import.now.desc × IsFirst (take place self.now.module.now.imports) import.now.desc) }
    {
        let imports = self.module.imports.as_slice();
        let before = &imports[..place.min(imports.len())];
        match import.desc {
            ImportDesc1::Func(ty) => (ty as usize) < self.module.types.len(),
            ImportDesc1::Table(limits) => {
                limits_are_typed(TABLE_BOUND, &limits) && count_tables(before) == 0
            }
            ImportDesc1::Memory(limits) => {
                limits_are_typed(MEMORY_BOUND, &limits) && count_memories(before) == 0
            }
            ImportDesc1::Global(ty, _) => is_integer(ty),
        }
    }
}
