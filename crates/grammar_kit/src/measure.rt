ghost use Rattle.std.specs.Prelude.{ℕ};
ghost use Rattle.grammar_kit.specs.Form.{Form, many};
ghost use Rattle.grammar_kit.specs.Gives.{Gives};
ghost use Rattle.grammar_kit.specs.Measures.{through, extent};

use crate::entry::Entry;
use crate::error::FormError;
use std::alloc::Global;
use std::marker::PhantomData;

/// How large an entry of a vector is, found without keeping the entry.
pub trait Measure {
    /// What an entry spells.
    type Value: Drop;

    /// Which bytes spell an entry.
    ghost form: { Form Self.Value };

    /// The size of an entry.
    ghost size: { Self.Value → ℕ };

    /// The size of the entry at the front, and the bytes after it.
    fn measure(alloc: Global, bytes: &[u8]) -> Result<(u32, &[u8]), FormError>
        ensures { Gives (λ p. (p.0, p.1.now)) result (through size (form.read bytes.now)) };
}

/// How large the entries of a vector are.
#[derive(Clone, Copy, Debug, PartialEq, Eq)]
pub struct Extent {
    /// The greatest size of an entry, 0 where there is none.
    pub greatest: u32,
    /// The sum of the sizes.
    pub total: u64,
}

/// Entries that are read and dropped, one after the other: all of size 0.
pub struct Dropped<E> {
    entry: PhantomData<E>,
}

impl<E: Entry> Measure for Dropped<E> {
    type Value = E::Value;

    ghost form = { E.form };

    ghost size = { λ x. 0 };

    fn measure(alloc: Global, bytes: &[u8]) -> Result<(u32, &[u8]), FormError> {
        let (_, rest) = E::entry(alloc, bytes)?;
        Ok((0, rest))
    }
}

/// The extent of the first `count` entries, and the bytes after them. No entry is kept.
pub fn measure_many<M: Measure>(
    alloc: Global,
    count: u32,
    bytes: &[u8],
) -> Result<(Extent, &[u8]), FormError>
    ensures { Gives (λ p. ((p.0.greatest, p.0.total), p.1.now)) result (through (extent M.size) ((many M.form count).read bytes.now)) }
{
    let mut greatest = 0;
    let mut total = 0;
    let mut rest = bytes;
    for _ in 0..count {
        let (size, after) = M::measure(alloc, rest)?;
        greatest = greatest.max(size);
        total += u64::from(size);
        rest = after;
    }
    Ok((Extent { greatest, total }, rest))
}
