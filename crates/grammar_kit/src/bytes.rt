ghost use Rattle.grammar_kit.specs.Form.{byte, raw};
ghost use Rattle.grammar_kit.specs.Gives.{GivesOption};

/// The first byte, and the bytes after it. `None` exactly where there is no byte.
pub fn read_byte(bytes: &[u8]) -> Option<(u8, &[u8])>
    ensures { GivesOption (λ p. (p.0, p.1.now)) result (byte.read bytes.now) }
{
    let (first, rest) = bytes.split_first()?;
    Some((*first, rest))
}

/// The first `count` bytes, and the bytes after them. `None` exactly where there are fewer.
pub fn read_raw(count: usize, bytes: &[u8]) -> Option<(&[u8], &[u8])>
    ensures { GivesOption (λ p. (p.0.now, p.1.now)) result ((raw count).read bytes.now) }
{
    if bytes.len() < count {
        return None;
    }
    Some(bytes.split_at(count))
}
