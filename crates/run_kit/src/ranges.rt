// Ranges of a list, which are tested whole before anything is read or written.
ghost use Rattle.std.specs.Prelude.{◌≡◌, ◌+◌, ◌≤◌, ◌<◌, false, replicate, length, option_map, option_and_then, MatchOption, if◌then◌else◌, Some, None};
ghost use Rattle.evaluation_kit.specs.Leaves.{read_range, write_range};

/// The index at which so many items begin, or none where they are not all inside a list of this length.
pub fn place(length: usize, base: u128, offset: u64, count: u128) -> Option<usize>
    ensures { MatchOption result (length < (base + offset) + count) (λ at. (at ≡ base + offset) × (at + count ≤ length)) }
{
    let at = base.checked_add(offset.into())?;
    let end = at.checked_add(count)?;
    if end <= length as u128 {
        Some(at as usize)
    } else {
        None
    }
}

/// So many items from a place on, or none where they are not all inside.
pub fn read_range<T>(items: &[T], base: u128, offset: u64, count: u128) -> Option<&[T]>
    ensures { option_map (λ range. range.now) result ≡ read_range (base + offset) count items.now }
{
    let at = place(items.len(), base, offset, count)?;
    Some(&items[at..at + count as usize])
}

/// Writes items over those from a place on, and says whether they are all inside; else nothing changes.
pub fn write_range<T: Copy>(items: &mut [T], base: u128, offset: u64, new: &[T]) -> bool
    ensures range { write_range (base + offset) new.now items.old ≡ (if result then Some items.new else None) }
    ensures kept { result ≡ false → items.new ≡ items.old }
    ensures len { length items.new ≡ length items.old }
{
    match place(items.len(), base, offset, new.len() as u128) {
        Some(at) => {
            items[at..at + new.len()].copy_from_slice(new);
            true
        }
        None => false,
    }
}

/// Writes an item over so many from a place on, and says whether they are all inside; else nothing changes.
pub fn fill_range<T: Copy>(items: &mut [T], at: u128, count: u128, item: T) -> bool
    ensures range { write_range at (replicate count item) items.old ≡ (if result then Some items.new else None) }
    ensures kept { result ≡ false → items.new ≡ items.old }
    ensures len { length items.new ≡ length items.old }
{
    match place(items.len(), at, 0, count) {
        Some(at) => {
            fill(&mut items[at..at + count as usize], item);
            true
        }
        None => false,
    }
}

/// Writes an item over all others.
fn fill<T: Copy>(items: &mut [T], item: T)
    ensures { items.new ≡ replicate (length items.old) item }
{
    for index in 0..items.len() {
        items[index] = item;
    }
}

/// Copies so many items from one place to another as if all were read before any is written, and says whether both ranges
/// are inside; else nothing changes.
pub fn copy_range<T: Copy>(items: &mut [T], to: u128, from: u128, count: u128) -> bool
    ensures range { option_and_then (λ range. write_range to range items.old) (read_range from count items.old) ≡ (if result then Some items.new else None) }
    ensures kept { result ≡ false → items.new ≡ items.old }
    ensures len { length items.new ≡ length items.old }
{
    let Some(from) = place(items.len(), from, 0, count) else {
        return false;
    };
    let Some(to) = place(items.len(), to, 0, count) else {
        return false;
    };
    items.copy_within(from..from + count as usize, to);
    true
}
