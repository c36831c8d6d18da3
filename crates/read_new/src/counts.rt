// Whether the counts of a module agree.

ghost use Rattle.std.specs.Prelude.{◌≡◌, ◌↔◌, IsTrue, Option, MatchOption, false};

/// Whether there are as many functions as bodies, and the data count is that of the data segments, or no body names one.
pub fn agree(
    funcs: u32,
    bodies: u32,
    data_count: Option<u32>,
    segments: u32,
    names_data: bool,
) -> bool
    ensures { IsTrue result ↔ ((funcs ≡ bodies) × MatchOption data_count (names_data ≡ false) (λ n. n ≡ segments)) }
{
    funcs == bodies
        && match data_count {
            Some(count) => count == segments,
            None => !names_data,
        }
}
