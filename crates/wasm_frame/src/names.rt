ghost use Rattle.std.specs.Prelude.{◌↔◌, IsTrue};
ghost use Rattle.grammar_kit.specs.Gives.{GivesOption};
ghost use Rattle.wasm_frame.specs.Name.{byte_vector, name, utf8, IsCustom};

use crate::leb128::split_u32;
use grammar_kit::read_raw;

/// The vector of bytes at the front, and the bytes after it. `None` exactly where none stands there.
pub fn split_byte_vector(bytes: &[u8]) -> Option<(&[u8], &[u8])>
    ensures { GivesOption (λ p. (p.0.now, p.1.now)) result (byte_vector.read bytes.now) }
{
    let (count, rest) = split_u32(bytes)?;
    read_raw(count as usize, rest)
}

/// The first `count` bytes as a text, and the bytes after it. `None` exactly where there are fewer, or they are not
/// valid UTF-8.
#[tactic(auto, using(crate::proofs::Text::utf8_tests))]
fn split_utf8(count: usize, bytes: &[u8]) -> Option<(&str, &[u8])>
    ensures { GivesOption (λ p. (p.0.now, p.1.now)) result ((utf8 count).read bytes.now) }
{
    let (content, rest) = read_raw(count, bytes)?;
    match simdutf8::compat::from_utf8(content) {
        Ok(text) => Some((text, rest)),
        Err(_) => None,
    }
}

/// The name at the front, and the bytes after it. `None` exactly where none stands there: where there is no vector of
/// bytes, or its bytes are not valid UTF-8.
pub fn split_name(bytes: &[u8]) -> Option<(&str, &[u8])>
    ensures { GivesOption (λ p. (p.0.now, p.1.now)) result (name.read bytes.now) }
{
    let (count, rest) = split_u32(bytes)?;
    split_utf8(count as usize, rest)
}

/// Whether bytes are the content of a custom section: a name, and any bytes behind it.
pub fn is_custom(payload: &[u8]) -> bool
    ensures { IsTrue result ↔ IsCustom payload.now }
{
    split_name(payload).is_some()
}
