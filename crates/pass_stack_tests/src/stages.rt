// Each row from its bytes through all stages: what the module shows, its last stage shows too. A helper holds one value at a
// time, which keeps its proof small.

ghost use Rattle.std.specs.Prelude.{◌≡◌, None, IfSome};
ghost use Rattle.pass_stack.specs.Profile.{outside_stack};
ghost use Rattle.typed_trees.specs.Typed.{module_of};
ghost use Rattle.wasm_ast.specs.Counts.{Agrees};

use crate::outside::SETTINGS;
use host_kit::{Event, Script, fits, print, read_script};
use module_reading::FILE_LIMIT;
use pass_cross::cross;
use pass_stack::{lower_module, lower_stages, profile};
use read_new::read;
use run_new::run_new;
use std::alloc::Global;
use std::test::Fail;
use typed_trees::TypedModule;
use valid_mod::validate;
use wasm_ast::module::Module;

/// A module, a script, and what is printed of its run.
struct Row {
    module: &'static [u8],
    script: &'static str,
    printed: &'static str,
}

/// A function that gives the lowest byte of its argument with its sign; a global that is the sum of another and 40; initial
/// values and offsets of each kind, read by the start function and by segments; and sign extension, nops and a typed select in
/// nested code of every form.
static ROWS: [Row; 4] = [
    Row {
        module: b"\x00asm\x01\x00\x00\x00\x01\x06\x01`\x01\x7F\x01\x7F\x03\x02\x01\x00\x07\x05\x01\x01f\x00\x00\x0A\x07\x01\x05\x00\x20\x00\xC0\x0B",
        script: r#"{"version":1,"globals":[],"replies":[],"grows":[],"items":[{"call":["f",[["i32",127]]]},{"call":["f",[["i32",128]]]},{"call":["f",[["i32",4294967295]]]}]}"#,
        printed: "started\nreturned 0 (i32 127) []\nreturned 1 (i32 4294967168) []\nreturned 2 (i32 4294967295) []\ndone\n",
    },
    Row {
        module: b"\x00asm\x01\x00\x00\x00\x01\x04\x01`\x00\x00\x03\x02\x01\x00\x06\x0E\x02\x7F\x00A\x02\x0B\x7F\x00#\x00A(j\x0B\x07\x09\x02\x01g\x03\x01\x01f\x00\x00\x0A\x04\x01\x02\x00\x0B",
        script: r#"{"version":1,"globals":[],"replies":[],"grows":[],"items":[{"call":["f",[]]}]}"#,
        printed: "started\nreturned 0 () [i32 42]\ndone\n",
    },
    Row {
        module: b"\x00asm\x01\x00\x00\x00\x01\x0D\x03`\x02\x7F~\x00`\x00\x00`\x00\x01\x7F\x02\x13\x02\x01e\x04base\x03\x7F\x00\x01e\x03log\x00\x00\x03\x03\x02\x01\x02\x04\x04\x01p\x00\x04\x05\x03\x01\x00\x01\x063\x07\x7F\x00A\x02\x0B\x7F\x00#\x01A(j\x0B\x7F\x00#\x00A\x01j\x0B\x7F\x01#\x03#\x02l\x0B~\x00B\x06B\x07~\x0B\x7F\x00#\x00\x0B\x7F\x01A\x01A\x02k\x0B\x07\x14\x04\x01g\x03\x02\x04seen\x03\x07\x01m\x02\x00\x01f\x00\x02\x08\x01\x01\x09\x0A\x01\x00#\x01A\x01j\x0B\x01\x01\x0A\x1C\x02\x09\x00#\x04#\x04j$\x07\x0B\x10\x00#\x04#\x05\x10\x00A\x03\x11\x01\x00#\x03\xC0\x0B\x0B\x14\x02\x00#\x01A\x06j\x0B\x03abc\x00#\x06\x0B\x03xyz",
        script: r#"{"version":1,"globals":[["i32",9]],"replies":[[{"acts":[],"values":[]}]],"grows":[],"items":[{"call":["f",[]]},{"peek":["m",8,4]}]}"#,
        printed: "started\nhost 0 (i32 420, i64 42) [i32 42, i32 840]\nreturned 0 (i32 10) [i32 42, i32 840]\npeeked (6178797a)\ndone\n",
    },
    Row {
        module: b"\x00asm\x01\x00\x00\x00\x01\x0B\x02`\x01\x7F\x01\x7F`\x01~\x01~\x03\x04\x03\x00\x01\x00\x07\x09\x02\x01f\x00\x02\x01w\x00\x01\x0Ai\x03B\x00\x01\x02\x7F\x03\x7F\x20\x00E\x04\x7F\x01A\x7F\x05\x02@\x02@\x02@\x20\x00A\x03q\x0E\x02\x02\x01\x00\x0B\x20\x00\xC1\x0C\x04\x0B\x20\x00A\x01v!\x00\x0C\x02\x0B\x20\x00\xC0A\x07\x20\x00A\x80\x20I\x1C\x01\x7F\x0B\x0B\x0B\x0B\x0D\x00\x20\x00\xC2\x20\x00\xC3\x20\x00\xC4||\x0B\x16\x00\x20\x00A\xCD\x00F\x04@A\xC8\x01\xC0\x0F\x00\x01\x0B\x20\x00\x10\x00\x0B",
        script: r#"{"version":1,"globals":[],"replies":[],"grows":[],"items":[{"call":["f",[["i32",0]]]},{"call":["f",[["i32",132]]]},{"call":["f",[["i32",305419908]]]},{"call":["f",[["i32",5]]]},{"call":["f",[["i32",98307]]]},{"call":["f",[["i32",77]]]},{"call":["w",[["i64",18446744071570489472]]]}]}"#,
        printed: "started\nreturned 0 (i32 4294967295) []\nreturned 1 (i32 4294967172) []\nreturned 2 (i32 7) []\nreturned 3 (i32 2) []\nreturned 4 (i32 4294934531) []\nreturned 5 (i32 4294967240) []\nreturned 6 (i64 18446744071570456704) []\ndone\n",
    },
];

/// The module that the bytes spell.
fn module_in(alloc: Global, bytes: &[u8]) -> Option<Module>
    ensures { IfSome result (λ m. Agrees m) }
{
    if bytes.len() > FILE_LIMIT {
        return None;
    }
    read(alloc, bytes).ok()
}

/// A module that the stack takes, typed.
fn typed_where_taken(alloc: Global, m: &Module) -> Option<TypedModule>
    requires { Agrees m.now }
    ensures { IfSome result (λ typed. outside_stack (module_of typed) ≡ None) }
{
    match profile(alloc, m, &SETTINGS) {
        Ok(None) => validate(alloc, m).ok(),
        _ => None,
    }
}

/// The typed module that the bytes spell, where the stack takes it.
fn typed_of(alloc: Global, bytes: &[u8]) -> Option<TypedModule>
    ensures { IfSome result (λ typed. outside_stack (module_of typed) ≡ None) }
{
    match module_in(alloc, bytes) {
        Some(m) => typed_where_taken(alloc, &m),
        None => None,
    }
}

fn is_printed(alloc: Global, events: &[Event], expected: &str) -> bool {
    match print(alloc, events) {
        Ok(text) => text.as_str() == expected,
        Err(_) => false,
    }
}

/// Whether the script fits, and its run shows what is expected.
fn shows(alloc: Global, m: &TypedModule, script: &Script, row: &Row) -> bool {
    if !fits(m.part(), script) {
        return false;
    }
    match run_new(alloc, m, script, 1000) {
        Ok(events) => is_printed(alloc, events.as_slice(), row.printed),
        Err(_) => false,
    }
}

/// Whether what the stages leave shows what is expected, and can be written as 1.0 has it.
fn last_shows(alloc: Global, m: TypedModule, script: &Script, row: &Row) -> bool
    requires { outside_stack (module_of m) ≡ None }
{
    match lower_stages(alloc, m, &SETTINGS) {
        Ok(last) => shows(alloc, &last, script, row) && cross(alloc, &last).is_ok(),
        Err(_) => false,
    }
}

fn both_show(alloc: Global, m: TypedModule, row: &Row) -> bool
    requires { outside_stack (module_of m) ≡ None }
{
    let Ok(script) = read_script(alloc, row.script.as_bytes()) else {
        return false;
    };
    shows(alloc, &m, &script, row)
        && lower_module(alloc, &m, &SETTINGS).is_ok()
        && last_shows(alloc, m, &script, row)
}

/// How many of the rows come to what they should.
fn right_rows(alloc: Global) -> usize {
    let mut right: usize = 0;
    for row in &ROWS {
        if let Some(m) = typed_of(alloc, row.module) {
            if both_show(alloc, m, row) {
                right = right.wrapping_add(1);
            }
        }
    }
    right
}

#[test]
fn the_last_stage_shows_what_the_module_shows(rt: HostRuntime) -> Result<(), Fail> {
    assert_eq!(rt; right_rows(rt.alloc()), ROWS.len());
    Ok(())
}
