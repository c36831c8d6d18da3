// Scripts, read from the text of a file.
ghost use Rattle.std.specs.Prelude.{◌≡◌, ◌≤◌, Some, IsUtf8, length};
ghost use Rattle.serde_json.specs.Read.{read as read_json};
ghost use Rattle.serde_json.specs.View.{view};
ghost use Rattle.host_kit.specs.ScriptTexts.{TextTells, text_fault, most_bytes};
ghost use Rattle.host_kit.specs.declared.script_text.TextFault.TheVariants.{Memory};

use super::fault::ScriptFault;
use super::reading::script_of;
use super::script::Script;
use num_core::lists::Text;
use serde_json::Value as Tree;
use std::alloc::{AllocError, Global};
use std::error::Error;
use std::fmt;

/// The most bytes that the text of a script may have.
pub const MOST_BYTES: usize = 67_108_864;

/// Why a text is no script: the first of these that holds.
#[derive(Debug, Drop)]
pub enum TextFault {
    /// It has more than 67,108,864 bytes.
    TooLarge,
    /// It is no JSON text in UTF-8, or its lists and objects nest deeper than 127.
    NotJson,
    /// It is JSON, and this is the path of the first place that is not of the form of scripts.
    Shape(Text),
    /// Memory was not found.
    Memory(AllocError),
}

impl fmt::Display for TextFault {
    ghost output = { λ fault. Some (text_fault fault) };

    fn fmt<W: fmt::Write>(&self, f: &mut fmt::Formatter<W>) -> fmt::Result {
        match self {
            TextFault::TooLarge => write!(f, "script: too large"),
            TextFault::NotJson => write!(f, "script: not json"),
            TextFault::Shape(path) => {
                let path = path.as_str();
                write!(f, "script: {path}")
            }
            TextFault::Memory(_) => write!(f, "out of memory"),
        }
    }
}

impl Error for TextFault {}

impl From<AllocError> for TextFault {
    ghost from_gives = { λ error fault. fault ≡ Memory error };

    fn from(error: AllocError) -> TextFault {
        TextFault::Memory(error)
    }
}

/// The script whose JSON a text is.
///
/// # Errors
///
/// `TooLarge`, `NotJson` and `Shape` exactly where each is the first of these that holds; `Memory` where memory was not
/// found.
pub fn read_script(alloc: Global, text: &[u8]) -> Result<Script, TextFault>
    ensures { TextTells text.now result }
{
    if text.len() > MOST_BYTES {
        return Err(TextFault::TooLarge);
    }
    match Tree::from_slice(alloc, text) {
        Ok(tree) => read_tree(alloc, text, &tree),
        Err(error) if error.is_memory() => Err(TextFault::Memory(AllocError)),
        Err(_) => Err(TextFault::NotJson),
    }
}

/// The script that a tree is, of which this is the text.
fn read_tree(alloc: Global, text: &[u8], tree: &Tree) -> Result<Script, TextFault>
    requires small { length text.now ≤ most_bytes }
    requires utf8 { IsUtf8 text.now }
    requires json { read_json text.now ≡ Some (view tree.now) }
    ensures { TextTells text.now result }
{
    match script_of(alloc, tree) {
        Ok(script) => Ok(script),
        Err(ScriptFault::Shape(path)) => Err(TextFault::Shape(path)),
        Err(ScriptFault::Memory(error)) => Err(TextFault::Memory(error)),
    }
}
