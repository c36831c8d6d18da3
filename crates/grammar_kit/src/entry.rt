ghost use Rattle.grammar_kit.specs.Form.{Form, many};
ghost use Rattle.grammar_kit.specs.Gives.{Gives};

use crate::error::FormError;
use sqlite_items::Items;
use std::alloc::Global;

/// How an entry of a vector is read. It is a type of its own beside the values, which may be another crate's.
pub trait Entry {
    /// What an entry spells.
    type Value: Drop;

    /// Which bytes spell an entry.
    ghost form: { Form Self.Value };

    /// The entry at the front, and the bytes after it.
    fn entry(alloc: Global, bytes: &[u8]) -> Result<(Self::Value, &[u8]), FormError>
        ensures { Gives (λ p. (p.0, p.1.now)) result (form.read bytes.now) };
}

/// The first `count` entries, and the bytes after them. Room is taken for one entry at a time, so a count that
/// the bytes do not hold reserves nothing.
pub fn read_many<E: Entry>(
    alloc: Global,
    count: u32,
    bytes: &[u8],
) -> Result<(Items<E::Value>, &[u8]), FormError>
    ensures { Gives (λ p. (p.0, p.1.now)) result ((many E.form count).read bytes.now) }
{
    let mut entries = Items::new(alloc);
    let mut rest = bytes;
    for _ in 0..count {
        let (entry, after) = E::entry(alloc, rest)?;
        entries.push(entry)?;
        rest = after;
    }
    Ok((entries, rest))
}
