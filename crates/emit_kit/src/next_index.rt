ghost use Rattle.std.specs.Prelude.{◌≡◌, ◌+◌, IfOk};

use std::alloc::AllocError;

/// The index of what follows the items that are imported and the module's own. An index space has room for 2^32 - 1
/// items, and room past that is memory that is never found.
pub fn next_index(imported: usize, own: usize) -> Result<u32, AllocError>
    ensures { IfOk result (λ index. index ≡ imported + own) }
{
    let Some(count) = imported.checked_add(own) else {
        return Err(AllocError);
    };
    match u32::try_from(count) {
        Ok(index) if index < u32::MAX => Ok(index),
        _ => Err(AllocError),
    }
}
