// Labels and blocks.

ghost use Rattle.std.specs.Prelude.{◌≡◌, ◌<◌, ◌^◌, ◌&&◌, nat_lt, slice_get};
ghost use Rattle.std.specs.List.{list_all};
ghost use Rattle.std.specs.Option.{option_map};
ghost use Rattle.core1_ast.specs.Operands.{block_results};
ghost use Rattle.valid_core1.specs.Forms.{same_types, is_integer, is_label, is_short as is_short_list, is_block as is_block_type};
ghost use Rattle.valid_core1.specs.Scopes.{label_types};

use core1_ast::module::{BlockType1, Code1, Ty1};
use sqlite_items::Items;

/// What a branch to the label takes, by the types of the blocks that are open, the innermost one last.
pub fn label(labels: &[BlockType1], index: u32) -> Option<BlockType1>
    ensures { option_map block_results result ≡ slice_get (label_types labels.now) index }
{
    let index = index as usize;
    if index < labels.len() {
        Some(labels[labels.len() - 1 - index])
    } else {
        None
    }
}

/// Whether two blocks have the same results.
fn same_results(a: BlockType1, b: BlockType1) -> bool
    ensures { result ≡ same_types (block_results a) (block_results b) }
{
    match (a, b) {
        (BlockType1::Empty, BlockType1::Empty) => true,
        (BlockType1::One(a), BlockType1::One(b)) => a == b,
        _ => false,
    }
}

/// Whether a list of so many items is short.
pub fn is_short(items: usize) -> bool
    ensures { result ≡ nat_lt items (2 ^ 32) }
{
    items < 0x1_0000_0000
}

/// Whether a branch to each of the labels takes the results of the block.
fn all_take(labels: &[BlockType1], indices: &[u32], ty: BlockType1) -> bool
    ensures { result ≡ list_all (λ l. is_label (slice_get (label_types labels.now) l) (block_results ty)) indices.now }
{
    for index in indices {
        match label(labels, *index) {
            Some(other) if same_results(other, ty) => {}
            _ => return false,
        }
    }
    true
}

/// Whether the labels are a short list, and a branch to each takes the results of the block.
pub fn all_labels(labels: &[BlockType1], indices: &Items<u32>, ty: BlockType1) -> bool
    ensures { result ≡ (is_short_list indices.now && list_all (λ l. is_label (slice_get (label_types labels.now) l) (block_results ty)) indices.now) }
{
    is_short(indices.len()) && all_take(labels, indices.as_slice(), ty)
}

/// Whether a type is an integer.
pub fn is_integer(ty: Ty1) -> bool
    ensures { result ≡ is_integer ty }
{
    matches!(ty, Ty1::I32 | Ty1::I64)
}

/// Whether the results of a block are integers, and its code is short.
pub fn is_block(ty: BlockType1, code: &Code1) -> bool
    ensures { result ≡ is_block_type ty code.now }
{
    let integers = match ty {
        BlockType1::Empty => true,
        BlockType1::One(ty) => is_integer(ty),
    };
    is_short(code.len()) && integers
}
