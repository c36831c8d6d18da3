// The words, numbers and bytes that stand in scripts.
ghost use Rattle.std.specs.Prelude.{◌≡◌, ◌<◌, IfOk, IfSome};
ghost use Rattle.host_kit.specs.Faults.{Tells};
ghost use Rattle.host_kit.specs.ScriptForms.{word_of, word_form, null_of, null_form, null_value, version_form, count_form, bytes_form, hex_digit, hex_byte, hex_bytes};

use super::fault::ScriptFault;
use super::tree::FromTree;
use super::value::Value;
use num_core::lists::Bytes;
use serde_json::Value as Tree;
use std::alloc::{AllocError, Global};

/// The version of the form of scripts.
#[derive(Clone, Copy)]
pub(crate) enum Version {
    /// The first, written 1.
    First,
}

impl FromTree for Version {
    ghost form = { version_form };

    fn from_tree(alloc: Global, tree: &Tree) -> Result<Version, ScriptFault> {
        match tree.as_u64() {
            Some(1) => Ok(Version::First),
            _ => Err(ScriptFault::here(alloc)),
        }
    }
}

/// The word with which a value begins.
#[derive(Clone, Copy)]
pub(crate) enum Word {
    /// `i32`, before its number.
    I32,
    /// `i64`, before its number.
    I64,
    /// `v128`, before its lower half and its upper half.
    V128,
    /// `func`, before the index of a function.
    Func,
    /// `extern`, before a number of the host's.
    Extern,
    /// `null`, before the word of its type.
    Null,
}

impl FromTree for Word {
    ghost form = { word_form };

    fn from_tree(alloc: Global, tree: &Tree) -> Result<Word, ScriptFault> {
        tree.as_str()
            .and_then(word_of)
            .ok_or(ScriptFault::here(alloc))
    }
}

fn word_of(text: &str) -> Option<Word>
    ensures { result ≡ word_of text.now }
{
    if text == "i32" {
        Some(Word::I32)
    } else if text == "i64" {
        Some(Word::I64)
    } else if text == "v128" {
        Some(Word::V128)
    } else if text == "func" {
        Some(Word::Func)
    } else if text == "extern" {
        Some(Word::Extern)
    } else if text == "null" {
        Some(Word::Null)
    } else {
        None
    }
}

/// The type of a null reference.
#[derive(Clone, Copy)]
pub(crate) enum Null {
    /// `func`: funcref.
    Func,
    /// `extern`: externref.
    Extern,
}

impl FromTree for Null {
    ghost form = { null_form };

    fn from_tree(alloc: Global, tree: &Tree) -> Result<Null, ScriptFault> {
        tree.as_str()
            .and_then(null_of)
            .ok_or(ScriptFault::here(alloc))
    }
}

fn null_of(text: &str) -> Option<Null>
    ensures { result ≡ null_of text.now }
{
    if text == "func" {
        Some(Null::Func)
    } else if text == "extern" {
        Some(Null::Extern)
    } else {
        None
    }
}

impl From<Null> for Value {
    ghost from_gives = { λ null value. value ≡ null_value null };

    fn from(null: Null) -> Value {
        match null {
            Null::Func => Value::NullFunc,
            Null::Extern => Value::NullExtern,
        }
    }
}

/// How many bytes a host reads at once.
#[derive(Clone, Copy)]
pub(crate) struct Count(pub(crate) u32);

impl Count {
    /// The most bytes that a host reads or writes at once.
    pub(crate) const MOST: u32 = 65536;
}

impl FromTree for Count {
    ghost form = { count_form };

    fn from_tree(alloc: Global, tree: &Tree) -> Result<Count, ScriptFault> {
        match tree.as_u64() {
            Some(count) if count <= Count::MOST as u64 => Ok(Count(count as u32)),
            _ => Err(ScriptFault::here(alloc)),
        }
    }
}

impl FromTree for Bytes {
    ghost form = { bytes_form };

    fn from_tree(alloc: Global, tree: &Tree) -> Result<Bytes, ScriptFault> {
        let Some(text) = tree.as_str() else {
            return Err(ScriptFault::here(alloc));
        };
        match hex_bytes(alloc, text.as_bytes())? {
            Some(bytes) if bytes.as_slice().len() <= Count::MOST as usize => Ok(bytes),
            _ => Err(ScriptFault::here(alloc)),
        }
    }
}

/// The bytes of hexadecimal digits, two for each byte, where the digits are such.
fn hex_bytes(alloc: Global, digits: &[u8]) -> Result<Option<Bytes>, AllocError>
    ensures { IfOk result (λ bytes. bytes ≡ hex_bytes digits.now) }
{
    let mut bytes = Bytes::new(alloc);
    let mut rest = digits;
    while let [high, low, more @ ..] = rest {
        let Some(byte) = hex_byte(*high, *low) else {
            return Ok(None);
        };
        bytes.push(byte)?;
        rest = more;
    }
    Ok(if rest.is_empty() { Some(bytes) } else { None })
}

fn hex_byte(high: u8, low: u8) -> Option<u8>
    ensures { result ≡ hex_byte high low }
{
    let high = hex_digit(high)?;
    let low = hex_digit(low)?;
    Some(16 * high + low)
}

fn hex_digit(digit: u8) -> Option<u8>
    ensures value { result ≡ hex_digit digit }
    ensures below { IfSome result (λ d. d < 16) }
{
    match digit {
        b'0'..=b'9' => Some(digit - b'0'),
        b'a'..=b'f' => Some(digit - b'a' + 10),
        _ => None,
    }
}
