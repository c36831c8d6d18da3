// Whether pairs with equal firsts have equal seconds.

ghost use Rattle.std.specs.Prelude.{◌≡◌, map, IfOk};
ghost use Rattle.wasm_ast.specs.Kept.{all_agree};

use std::alloc::{AllocError, Global};
use std::collections::BTreeMap;

/// Whether any two of the pairs with equal firsts have equal seconds. It takes one look-up in a map for each pair,
/// and fails for want of memory alone.
pub fn all_agree(alloc: Global, pairs: &[(Vec<u8>, Vec<u8>)]) -> Result<bool, AllocError>
    ensures { IfOk result (λ yes. yes ≡ all_agree (map (λ p. (p.0.items, p.1.items)) pairs.now)) }
{
    let mut seen: BTreeMap<&[u8], &[u8]> = BTreeMap::new(alloc);
    for pair in pairs {
        let first = pair.0.as_slice();
        let second = pair.1.as_slice();
        match seen.get(&first) {
            Some(known) => {
                if *known != second {
                    return Ok(false);
                }
            }
            None => {
                seen.insert(first, second)?;
            }
        }
    }
    Ok(true)
}
