ghost use Rattle.std.specs.Prelude.{ℕ, length};
ghost use Rattle.valid_core1.specs.Checks.{Decided};
ghost use Rattle.valid_core1.specs.Sections.{Finds, At};

/// A test of the parts of a section.
pub trait PartTest {
    /// A part.
    type Part;

    /// What the test rests on.
    ghost may: { Self → Type 0 };

    /// The part at the place is typed.
    ghost typed: { Self → ℕ → Self.Part → Type 0 };

    /// Whether the part at the place is typed.
    fn is_typed(&self, place: usize, part: &Self::Part) -> bool
        requires { may self.now }
        ensures { Decided result (typed self.now place part.now) };
}

/// The first part that is not typed.
pub fn first_untyped<T: PartTest>(test: &T, parts: &[T::Part]) -> Option<usize>
    requires { T.may test.now }
    ensures { Finds (At parts.now (T.typed test.now)) (length parts.now) result }
{
    for (place, part) in parts.iter().enumerate() {
        if !test.is_typed(place, part) {
            return Some(place);
        }
    }
    None
}
