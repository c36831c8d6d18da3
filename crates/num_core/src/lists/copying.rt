ghost use Rattle.std.specs.Prelude.{◌≡◌, IfOk};

use sqlite_items::Items;
use std::alloc::{AllocError, Global};

/// A value that can be copied where memory is found.
pub trait TryCopy {
    /// An equal value of its own. It fails for want of memory alone.
    fn copy(&self, alloc: Global) -> Result<Self, AllocError>
        ensures { IfOk result (λ copy. copy ≡ self.now) };
}

impl TryCopy for u32 {
    fn copy(&self, _alloc: Global) -> Result<u32, AllocError> {
        Ok(*self)
    }
}

impl<T: TryCopy + Drop> TryCopy for Items<T> {
    fn copy(&self, alloc: Global) -> Result<Items<T>, AllocError> {
        let mut copy = Items::new(alloc);
        for item in self.as_slice() {
            copy.push(item.copy(alloc)?)?;
        }
        Ok(copy)
    }
}
