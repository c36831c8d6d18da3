// The table that is kept: the single table of a module, where only indirect calls and active segments use it.

ghost use Rattle.std.specs.Prelude.{◌≡◌, false, length, replicate, IfOk};
ghost use Rattle.wasm_ast.specs.Facts.{facts_of};
ghost use Rattle.wasm_ast.specs.Kept.{are_told_apart, keeps_table, used_indices};
ghost use Rattle.wasm_ast.specs.Marking.{marked};

mod agreement;
mod conditions;
mod keys;
mod placed;
mod used;

use crate::facts::{Facts, facts_of};
use crate::features::anywhere_given;
use crate::folding::known_globals;
use crate::module::Module;
use crate::spaces::func_indices;
use agreement::all_agree;
pub use conditions::UsesTable;
use conditions::{are_plain_elements, export_table, has_one_plain_table};
use keys::marked_keys;
use placed::mark_placed;
use std::alloc::{AllocError, Global};
use used::mark_module;

/// Whether the single table of the module is kept. Without a table, or with several, none is.
/// It takes time linear in the module but for one look-up in a map for each function type, and fails for want of
/// memory alone.
pub fn keeps_table(alloc: Global, m: &Module) -> Result<bool, AllocError>
    ensures { IfOk result (λ yes. yes ≡ keeps_table m.now) }
{
    keeps_table_given(alloc, m, &facts_of(m))
}

/// The same, where it is known what the bodies of the module show.
pub fn keeps_table_given(alloc: Global, m: &Module, facts: &Facts) -> Result<bool, AllocError>
    requires { facts.now ≡ facts_of m.now }
    ensures { IfOk result (λ yes. yes ≡ keeps_table m.now) }
{
    if !has_one_plain_table(m)
        || anywhere_given(facts.table_use, &UsesTable, m)
        || export_table(m.exports.as_slice())
    {
        return Ok(false);
    }
    let known = known_globals(alloc, m)?;
    if !are_plain_elements(alloc, known.as_slice(), m.elems.as_slice())? {
        return Ok(false);
    }
    are_told_apart(alloc, m)
}

/// Whether no two unequal types among the used ones have equal lowered types.
#[tactic(auto, using(std::proofs::lemmas::Grind::common_steps, crate::proofs::Used::all_agree_marked))]
fn are_told_apart(alloc: Global, m: &Module) -> Result<bool, AllocError>
    ensures { IfOk result (λ yes. yes ≡ are_told_apart m.now) }
{
    let used = used_marks(alloc, m)?;
    let pairs = marked_keys(alloc, used.as_slice(), m.types.as_slice())?;
    all_agree(alloc, pairs.as_slice())
}

/// The marks of the used types, by type index.
#[tactic(auto, using(std::proofs::lemmas::Grind::common_steps, crate::proofs::Flags::marking))]
fn used_marks(alloc: Global, m: &Module) -> Result<Vec<bool>, AllocError>
    ensures { IfOk result (λ used. used.items ≡ marked (used_indices m.now) (replicate (length m.now.types) false)) }
{
    let mut used = vec![in alloc; false; m.types.len()]?;
    let indices = func_indices(alloc, m)?;
    mark_module(m, &mut used);
    mark_placed(indices.as_slice(), m.elems.as_slice(), &mut used);
    Ok(used)
}
