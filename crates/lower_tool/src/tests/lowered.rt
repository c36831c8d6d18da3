// What was lowered, run beside what it was lowered from.
use super::{CALLS, CALM, EXTEND, SHOWN, texts, two_files};
use crate::files::MemFiles;
use crate::sink::MemSink;
use crate::tool::tool;
use std::alloc::Global;
use std::test::Fail;

/// A module as a C compiler and its linker make it: `run` fills a range of `memory` with 128, calls the import, and gives
/// the first byte of the range with its sign.
const FILL: &[u8] =
    b"\x00asm\x01\x00\x00\x00\x01\x0C\x02`\x02\x7F\x7F\x00`\x02\x7F\x7F\x01\x7F\x02\x0B\x01\x03env\x03put\x00\x00\x03\x02\x01\x01\x04\x04\x01p\x00\x02\x05\x03\x01\x00\x02\x06\x08\x01\x7F\x01A\x80\x88\x04\x0B\x07\x10\x02\x06memory\x02\x00\x03run\x00\x01\x09\x07\x01\x00A\x01\x0B\x01\x01\x0A,\x01*\x01\x01\x7F\x03@\x20\x00\x20\x02jA\x80\x01:\x00\x00\x20\x02A\x01j\x22\x02\x20\x01I\x0D\x00\x0B\x20\x00\x20\x01\x10\x00\x20\x00-\x00\x00\xC0\x0B";

/// An immutable global `g` that is the sum of another and 40, and a function `f` that does nothing.
const SUM: &[u8] =
    b"\x00asm\x01\x00\x00\x00\x01\x04\x01`\x00\x00\x03\x02\x01\x00\x06\x0E\x02\x7F\x00A\x02\x0B\x7F\x00#\x00A(j\x0B\x07\x09\x02\x01g\x03\x01\x01f\x00\x00\x0A\x04\x01\x02\x00\x0B";

/// Initial values and offsets of each kind: constants, sums of globals before them, and what rests on an imported global.
/// The start function reads a global that is known only then, and stands in the table at a computed offset; two data segments
/// overlap.
const BEGINS: &[u8] =
    b"\x00asm\x01\x00\x00\x00\x01\x0D\x03`\x02\x7F~\x00`\x00\x00`\x00\x01\x7F\x02\x13\x02\x01e\x04base\x03\x7F\x00\x01e\x03log\x00\x00\x03\x03\x02\x01\x02\x04\x04\x01p\x00\x04\x05\x03\x01\x00\x01\x063\x07\x7F\x00A\x02\x0B\x7F\x00#\x01A(j\x0B\x7F\x00#\x00A\x01j\x0B\x7F\x01#\x03#\x02l\x0B~\x00B\x06B\x07~\x0B\x7F\x00#\x00\x0B\x7F\x01A\x01A\x02k\x0B\x07\x14\x04\x01g\x03\x02\x04seen\x03\x07\x01m\x02\x00\x01f\x00\x02\x08\x01\x01\x09\x0A\x01\x00#\x01A\x01j\x0B\x01\x01\x0A\x1C\x02\x09\x00#\x04#\x04j$\x07\x0B\x10\x00#\x04#\x05\x10\x00A\x03\x11\x01\x00#\x03\xC0\x0B\x0B\x14\x02\x00#\x01A\x06j\x0B\x03abc\x00#\x06\x0B\x03xyz";

/// Sign extension and nops in nested code of every form, beside a typed select and jumps of every kind; `w` sums the three
/// extensions of an i64.
const NESTED: &[u8] =
    b"\x00asm\x01\x00\x00\x00\x01\x0B\x02`\x01\x7F\x01\x7F`\x01~\x01~\x03\x04\x03\x00\x01\x00\x07\x09\x02\x01f\x00\x02\x01w\x00\x01\x0Ai\x03B\x00\x01\x02\x7F\x03\x7F\x20\x00E\x04\x7F\x01A\x7F\x05\x02@\x02@\x02@\x20\x00A\x03q\x0E\x02\x02\x01\x00\x0B\x20\x00\xC1\x0C\x04\x0B\x20\x00A\x01v!\x00\x0C\x02\x0B\x20\x00\xC0A\x07\x20\x00A\x80\x20I\x1C\x01\x7F\x0B\x0B\x0B\x0B\x0D\x00\x20\x00\xC2\x20\x00\xC3\x20\x00\xC4||\x0B\x16\x00\x20\x00A\xCD\x00F\x04@A\xC8\x01\xC0\x0F\x00\x01\x0B\x20\x00\x10\x00\x0B";

/// Whether a module shows this text, and shows it once more when it was lowered.
fn shows_twice(alloc: Global, row: (&[u8], &str, &str)) -> Result<bool, Fail> {
    let (module, script, shown) = row;
    let held = two_files(
        alloc,
        module.to_vec(alloc)?,
        script.as_bytes().to_vec(alloc)?,
    )?;
    let mut files = MemFiles::new(alloc, held, 1024, CALM.of_files(alloc)?);
    let mut out = MemSink::new(alloc, 64, Vec::new(alloc));
    let commands: [&[&str]; 4] = [
        &["run3", "a", "s", "1000000"],
        &["lower", "a", "b", "7"],
        &["check1", "b"],
        &["run1", "b", "s", "1000000"],
    ];
    for words in commands {
        if tool(alloc, &texts(alloc, words)?, &mut files, &mut out) != 0 {
            return Ok(false);
        }
    }
    let text = format!(in alloc; "{shown}ok\n{shown}")?;
    Ok(out.written() == text.as_str().as_bytes())
}

#[test]
fn a_lowered_module_shows_what_its_source_shows(rt: HostRuntime) -> Result<(), Fail> {
    let alloc = rt.alloc();
    let rows: [(&[u8], &str, &str); 7] = [
        (&EXTEND, CALLS, SHOWN),
        (
            SUM,
            r#"{"version":1,"globals":[],"replies":[],"grows":[],"items":[{"call":["f",[]]}]}"#,
            "started\nreturned 0 () [i32 42]\ndone\n",
        ),
        (
            FILL,
            r#"{"version":1,"globals":[],"replies":[[{"acts":[{"peek":["memory",1024,4]},{"poke":["memory",1024,"05"]}],"values":[]}]],"grows":[],"items":[{"call":["run",[["i32",1024],["i32",4]]]},{"peek":["memory",1024,4]},{"peek":["memory",131072,1]}]}"#,
            "started\nhost 0 (i32 1024, i32 4) []\npeeked (80808080)\nreturned 0 (i32 5) []\npeeked (05808080)\nout of range\ndone\n",
        ),
        // The host has no reply.
        (
            FILL,
            r#"{"version":1,"globals":[],"replies":[[]],"grows":[],"items":[{"call":["run",[["i32",1024],["i32",4]]]}]}"#,
            "started\nhost 0 (i32 1024, i32 4) []\nno reply 0\n",
        ),
        (
            BEGINS,
            r#"{"version":1,"globals":[["i32",9]],"replies":[[{"acts":[],"values":[]}]],"grows":[],"items":[{"call":["f",[]]},{"peek":["m",8,4]}]}"#,
            "started\nhost 0 (i32 420, i64 42) [i32 42, i32 840]\nreturned 0 (i32 10) [i32 42, i32 840]\npeeked (6178797a)\ndone\n",
        ),
        // A data segment past the end of the memory fails to be placed.
        (
            BEGINS,
            r#"{"version":1,"globals":[["i32",65534]],"replies":[[]],"grows":[],"items":[]}"#,
            "failed\n",
        ),
        (
            NESTED,
            r#"{"version":1,"globals":[],"replies":[],"grows":[],"items":[{"call":["f",[["i32",0]]]},{"call":["f",[["i32",132]]]},{"call":["f",[["i32",305419908]]]},{"call":["f",[["i32",5]]]},{"call":["f",[["i32",98307]]]},{"call":["f",[["i32",77]]]},{"call":["w",[["i64",128]]]},{"call":["w",[["i64",18446744071570489472]]]}]}"#,
            "started\nreturned 0 (i32 4294967295) []\nreturned 1 (i32 4294967172) []\nreturned 2 (i32 7) []\nreturned 3 (i32 2) []\nreturned 4 (i32 4294934531) []\nreturned 5 (i32 4294967240) []\nreturned 6 (i64 128) []\nreturned 7 (i64 18446744071570456704) []\ndone\n",
        ),
    ];
    for row in rows {
        assert!(rt; shows_twice(alloc, row)?);
    }
    Ok(())
}
