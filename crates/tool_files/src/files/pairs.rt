// Files as pairs of a name and bytes.

ghost use Rattle.std.specs.Prelude.{◌≡◌, ◌≢◌, ℕ, ◌-◌, ◌<◌, ◌≤◌, List, [], length, take, drop, min, None, Some, MatchOption, IfOk, OnOk, OnErr};
ghost use Rattle.tool_files.specs.Memory.{content_of, IsNamedOnce, StandsAt, AppendsAt};

use num_core::lists::{Bytes, Text};
use std::alloc::{AllocError, Global};

/// The place of a file.
pub fn place_of(files: &[(Text, Bytes)], name: &str) -> Option<usize>
    ensures { MatchOption result (content_of files.now name.now ≡ None)
        (λ place. (bytes : List ℕ) × StandsAt files.now place name.now bytes × (content_of files.now name.now ≡ Some bytes)) }
{
    for (place, file) in files.iter().enumerate() {
        if file.0.as_str() == name {
            return Some(place);
        }
    }
    None
}

/// Copies bytes from a place on, as many as there are and as may be moved, and says how many.
pub fn copy_from(bytes: &[u8], at: usize, most: u32, into: &mut [u8]) -> usize
    ensures count { result ≡ min most (min (length into.old) (length bytes.now - at)) }
    ensures front { take result into.new ≡ take result (drop at bytes.now) }
{
    if at >= bytes.len() {
        return 0;
    }
    let rest = &bytes[at..];
    let count = rest.len().min(into.len()).min(most as usize);
    into[..count].copy_from_slice(&rest[..count]);
    count
}

/// Makes a file empty, or an empty file, and gives its place.
pub fn empty_file(
    alloc: Global,
    files: &mut Vec<(Text, Bytes)>,
    name: &str,
) -> Result<usize, AllocError>
    requires { IsNamedOnce files.old.items }
    ensures empty { IfOk result (λ place. StandsAt files.new.items place name.now []) }
    ensures others { OnOk result ((other : List ℕ) → other ≢ name.now → content_of files.new.items other ≡ content_of files.old.items other) }
    ensures once { IsNamedOnce files.new.items }
    ensures longer { length files.old.items ≤ length files.new.items }
    ensures err { OnErr result (files.new.items ≡ files.old.items) }
{
    if let Some(place) = place_of(files.as_slice(), name) {
        files[place].1 = Bytes::new(alloc);
        return Ok(place);
    }
    let place = files.len();
    let name = Text::new(alloc, name)?;
    files.push((name, Bytes::new(alloc)))?;
    Ok(place)
}

/// Appends bytes to the file at a place. For want of memory nothing changes.
pub fn append(files: &mut Vec<(Text, Bytes)>, place: usize, piece: &[u8]) -> Result<(), AllocError>
    requires { place < length files.old.items }
    ensures ok { OnOk result (AppendsAt files.old.items files.new.items place piece.now) }
    ensures err { OnErr result (files.new.items ≡ files.old.items) }
{
    files[place].1.extend_from_slice(piece)
}
