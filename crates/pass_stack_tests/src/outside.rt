// What keeps small modules out of the profile.

ghost use Rattle.std.specs.Prelude.{◌≤◌, length, IfSome};
ghost use Rattle.module_reading.specs.Limits.{file_limit};

use crate::rows::{ENTRIES, UNBUILT};
use module_reading::FILE_LIMIT;
use pass_law::Settings;
use pass_stack::{Outside, outside_profile, profile};
use read_new::read;
use std::alloc::{AllocError, Global};
use std::test::Fail;
use wasm_ast::module::Module;
use wasm_frame::sections::HEAD;

/// Settings, on which no entry depends.
pub const SETTINGS: Settings = Settings { captures: 4096 };

fn within_limit(file: &[u8]) -> Option<&[u8]>
    ensures { IfSome result (λ f. length f.now ≤ file_limit) }
{
    if file.len() <= FILE_LIMIT {
        Some(file)
    } else {
        None
    }
}

/// The module that these sections spell behind the head.
pub fn module_of(alloc: Global, sections: &[u8]) -> Result<Module, Fail> {
    let mut file = Vec::from_slice(alloc, &HEAD)?;
    file.extend_from_slice(sections)?;
    let file = within_limit(file.as_slice()).ok_or("too long a file")?;
    Ok(read(alloc, file).ok().ok_or("a row that cannot be read")?)
}

/// Whether the entry has this text, or there is none and the text is empty.
fn has_text(alloc: Global, found: Option<Outside>, text: &str) -> Result<bool, AllocError> {
    match found {
        Some(entry) => Ok(format!(in alloc; "{entry}")?.as_str() == text),
        None => Ok(text.is_empty()),
    }
}

/// The first row whose text is not that of what keeps its module out of the profile.
fn first_wrong(alloc: Global, rows: &[(&str, &[u8])]) -> Result<Option<usize>, Fail> {
    for (i, (text, sections)) in rows.iter().enumerate() {
        let found = outside_profile(alloc, &module_of(alloc, sections)?)?;
        if !has_text(alloc, found, text)? {
            return Ok(Some(i));
        }
    }
    Ok(None)
}

/// The same, with what is not built.
fn first_wrong_of_stack(alloc: Global, rows: &[(&str, &[u8])]) -> Result<Option<usize>, Fail> {
    for (i, (text, sections)) in rows.iter().enumerate() {
        let found = profile(alloc, &module_of(alloc, sections)?, &SETTINGS)?;
        if !has_text(alloc, found, text)? {
            return Ok(Some(i));
        }
    }
    Ok(None)
}

#[test]
fn each_entry_by_each_of_its_ways(rt: HostRuntime) -> Result<(), Fail> {
    assert_eq!(rt; first_wrong(rt.alloc(), &ENTRIES)?, None);
    Ok(())
}

#[test]
fn what_is_not_built(rt: HostRuntime) -> Result<(), Fail> {
    assert_eq!(rt; first_wrong_of_stack(rt.alloc(), &UNBUILT)?, None);
    Ok(())
}
