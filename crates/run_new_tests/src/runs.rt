// Each row from its bytes to the printed events. A helper holds one value at a time, which keeps its proof small.

ghost use Rattle.std.specs.Prelude.{IfSome};
ghost use Rattle.wasm_ast.specs.Counts.{Agrees};

use crate::control::CONTROL;
use crate::exceptions::EXCEPTIONS;
use crate::host::HOST;
use crate::memories::MEMORIES;
use crate::references::REFERENCES;
use crate::row::Row;
use crate::vectors::VECTORS;
use host_kit::{Event, Script, fits, print, read_script};
use module_reading::FILE_LIMIT;
use read_new::read;
use run_new::run_new;
use std::alloc::Global;
use std::test::Fail;
use typed_trees::TypedModule;
use valid_mod::validate;
use wasm_ast::module::Module;

/// The module that the bytes spell.
fn module_of(alloc: Global, bytes: &[u8]) -> Option<Module>
    ensures { IfSome result (λ m. Agrees m) }
{
    if bytes.len() > FILE_LIMIT {
        return None;
    }
    read(alloc, bytes).ok()
}

/// The module that the bytes spell, typed.
fn typed_of(alloc: Global, bytes: &[u8]) -> Option<TypedModule> {
    match module_of(alloc, bytes) {
        Some(m) => validate(alloc, &m).ok(),
        None => None,
    }
}

fn is_printed(alloc: Global, events: &[Event], expected: &str) -> bool {
    match print(alloc, events) {
        Ok(text) => text.as_str() == expected,
        Err(_) => false,
    }
}

/// Whether the script fits, and its run shows what is expected.
fn shows(alloc: Global, m: &TypedModule, script: &Script, row: &Row) -> bool {
    if !fits(m.part(), script) {
        return false;
    }
    match run_new(alloc, m, script, row.turns) {
        Ok(events) => is_printed(alloc, events.as_slice(), row.printed),
        Err(_) => false,
    }
}

fn runs(alloc: Global, m: &TypedModule, row: &Row) -> bool {
    match read_script(alloc, row.script.as_bytes()) {
        Ok(script) => shows(alloc, m, &script, row),
        Err(_) => false,
    }
}

fn is_right(alloc: Global, row: &Row) -> bool {
    match typed_of(alloc, row.module) {
        Some(m) => runs(alloc, &m, row),
        None => false,
    }
}

/// What the first row shows whose run shows something else.
fn first_wrong(alloc: Global, tables: &[&'static [Row]]) -> &'static str {
    for rows in tables {
        for row in *rows {
            if !is_right(alloc, row) {
                return row.shows;
            }
        }
    }
    "none"
}

#[test]
fn runs_show_what_the_rules_say(rt: HostRuntime) -> Result<(), Fail> {
    let tables: [&'static [Row]; 6] = [
        &CONTROL,
        &REFERENCES,
        &EXCEPTIONS,
        &MEMORIES,
        &VECTORS,
        &HOST,
    ];
    assert_eq!(rt; first_wrong(rt.alloc(), &tables), "none");
    Ok(())
}
