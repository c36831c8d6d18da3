// The search for the first part of a section that is not typed.

ghost use Rattle.std.specs.Prelude.{length, IfOk};
ghost use Rattle.valid_new.specs.Judged.{Decided};
ghost use Rattle.valid_mod.specs.Searches.{At, Finds};

use std::alloc::AllocError;

/// A test of the parts of a section.
pub trait PartTest {
    /// A part.
    type Part;

    /// What the test rests on.
    ghost may: { Self → Type 0 };

    /// The part is typed.
    ghost typed: { Self → Self.Part → Type 0 };

    /// Whether the part is typed. It fails for want of memory alone.
    fn is_typed(&self, part: &Self::Part) -> Result<bool, AllocError>
        requires { may self.now }
        ensures { IfOk result (λ yes. Decided yes (typed self.now part.now)) };
}

/// The first part that is not typed.
pub fn first_untyped<T: PartTest>(test: &T, parts: &[T::Part]) -> Result<Option<usize>, AllocError>
    requires { T.may test.now }
    ensures { IfOk result (Finds (At parts.now (T.typed test.now)) (length parts.now)) }
{
    for (place, part) in parts.iter().enumerate() {
        if !test.is_typed(part)? {
            return Ok(Some(place));
        }
    }
    Ok(None)
}
