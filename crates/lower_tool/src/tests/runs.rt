// Runs of modules under a script, in both versions.
use super::{CALLS, CALM, DIVIDE, EXTEND, Failing, LOWERED, Outcome, SHOWN, runs_to};
use std::alloc::{AllocError, Global};
use std::test::Fail;

/// `f` is a loop without an end.
const LOOP: &[u8] =
    b"\x00asm\x01\x00\x00\x00\x01\x04\x01`\x00\x00\x03\x02\x01\x00\x07\x05\x01\x01f\x00\x00\x0A\x09\x01\x07\x00\x03@\x0C\x00\x0B\x0B";

/// `even` and `odd` of a number, which are 1 or 0 at 0, and else end in a tail call of one another.
const EVEN: &[u8] =
    b"\x00asm\x01\x00\x00\x00\x01\x06\x01`\x01\x7F\x01\x7F\x03\x03\x02\x00\x00\x07\x08\x01\x04even\x00\x00\x0A'\x02\x12\x00\x20\x00E\x04\x7FA\x01\x05\x20\x00A\x01k\x12\x01\x0B\x0B\x12\x00\x20\x00E\x04\x7FA\x00\x05\x20\x00A\x01k\x12\x00\x0B\x0B";

/// A module as a C compiler and its linker make it: an import, two pages `memory`, a table, a stack pointer, and custom
/// sections. `run` fills a range with 128 and calls the import, and extends the first byte of the range.
const FILL: &[u8] =
    b"\x00asm\x01\x00\x00\x00\x01\x0C\x02`\x02\x7F\x7F\x00`\x02\x7F\x7F\x01\x7F\x02\x0B\x01\x03env\x03put\x00\x00\x03\x02\x01\x01\x04\x05\x01p\x01\x02\x02\x05\x03\x01\x00\x02\x06\x08\x01\x7F\x01A\x80\x88\x04\x0B\x07\x10\x02\x06memory\x02\x00\x03run\x00\x01\x09\x07\x01\x00A\x01\x0B\x01\x01\x0A\x1A\x01\x18\x00\x20\x00A\x80\x01\x20\x01\xFC\x0B\x00\x20\x00\x20\x01\x10\x00\x20\x00-\x00\x00\xC0\x0B\x00\x0B\x09producers\x00\x00\x11\x0Ftarget_features\x00";

/// `f` calls the import, which gives an i32, an i64 and an i32.
const RESULTS: &[u8] =
    b"\x00asm\x01\x00\x00\x00\x01\x07\x01`\x00\x03\x7F~\x7F\x02\x07\x01\x01e\x01i\x00\x00\x03\x02\x01\x00\x07\x05\x01\x01f\x00\x01\x0A\x06\x01\x04\x00\x10\x00\x0B";

/// `s` stores a vector of ones into the page `m`.
const STORE: &[u8] =
    b"\x00asm\x01\x00\x00\x00\x01\x05\x01`\x01\x7F\x00\x03\x02\x01\x00\x05\x03\x01\x00\x01\x07\x09\x02\x01m\x02\x00\x01s\x00\x00\x0A\x1C\x01\x1A\x00\x20\x00\xFD\x0C\xFF\xFF\xFF\xFF\xFF\xFF\xFF\xFF\xFF\xFF\xFF\xFF\xFF\xFF\xFF\xFF\xFD\x0B\x00\x00\x0B";

/// `p` multiplies lanes of 64 bits, and `q` takes places of a vector that are all outside it.
const VECTORS: &[u8] =
    b"\x00asm\x01\x00\x00\x00\x01\x05\x01`\x00\x01{\x03\x03\x02\x00\x00\x07\x09\x02\x01p\x00\x00\x01q\x00\x01\x0AT\x02)\x00\xFD\x0C\x00\x00\x00\x00\x01\x00\x00\x00\x03\x00\x00\x00\x00\x00\x00\x00\xFD\x0C\x00\x00\x00\x00\x01\x00\x00\x00\x05\x00\x00\x00\x00\x00\x00\x00\xFD\xD5\x01\x0B(\x00\xFD\x0C\x00\x01\x02\x03\x04\x05\x06\x07\x08\x09\x0A\x0B\x0C\x0D\x0E\x0F\xFD\x0C\x10\x10\x10\x10\x10\x10\x10\x10\xFF\xFF\xFF\xFF\xFF\xFF\xFF\xFF\xFD\x0E\x0B";

/// `q` and `d` are the rounding product and the dot product of lanes of -32768, and `s` stores a lane past the page `m`.
const LANES: &[u8] =
    b"\x00asm\x01\x00\x00\x00\x01\x08\x02`\x00\x01{`\x00\x00\x03\x04\x03\x00\x00\x01\x05\x03\x01\x00\x01\x07\x11\x04\x01m\x02\x00\x01q\x00\x00\x01d\x00\x01\x01s\x00\x02\x0AC\x03\x11\x00A\x80\x80\x02\xFD\x10A\x80\x80\x02\xFD\x10\xFD\x82\x01\x0B\x11\x00A\x80\x80\x02\xFD\x10A\x80\x80\x02\xFD\x10\xFD\xBA\x01\x0B\x1D\x00A\xF9\xFF\x03\xFD\x0C\xFF\xFF\xFF\xFF\xFF\xFF\xFF\xFF\xFF\xFF\xFF\xFF\xFF\xFF\xFF\xFF\xFD[\x00\x00\x00\x0B";

/// `id` of an external reference.
const SAME: &[u8] =
    b"\x00asm\x01\x00\x00\x00\x01\x06\x01`\x01o\x01o\x03\x02\x01\x00\x07\x06\x01\x02id\x00\x00\x0A\x06\x01\x04\x00\x20\x00\x0B";

/// A table of four functions that give 10 to 13, with a maximum of 5, and a segment with the last one: `grow` by null, `call`
/// an entry, `fill` from the segment, `drop` it, and `copy` the first three entries one place up.
const TABLE: &[u8] =
    b"\x00asm\x01\x00\x00\x00\x01\x11\x04`\x00\x01\x7F`\x01\x7F\x01\x7F`\x00\x00`\x01\x7F\x00\x03\x0A\x09\x00\x00\x00\x00\x01\x01\x03\x02\x02\x04\x05\x01p\x01\x04\x05\x07$\x05\x04grow\x00\x04\x04call\x00\x05\x04fill\x00\x06\x04drop\x00\x07\x04copy\x00\x08\x09\x0E\x02\x00A\x00\x0B\x04\x00\x01\x02\x03\x01\x00\x01\x03\x0AG\x09\x04\x00A\x0A\x0B\x04\x00A\x0B\x0B\x04\x00A\x0C\x0B\x04\x00A\x0D\x0B\x09\x00\xD0p\x20\x00\xFC\x0F\x00\x0B\x07\x00\x20\x00\x11\x00\x00\x0B\x0C\x00A\x00A\x00\x20\x00\xFC\x0C\x01\x00\x0B\x05\x00\xFC\x0D\x01\x0B\x0C\x00A\x01A\x00A\x03\xFC\x0E\x00\x00\x0B";

/// Two memories of a page: `a` and `b` grow them, `s` and `l` store and load across the end of the second's first page, and
/// `r` loads from it.
const MEMORIES: &[u8] =
    b"\x00asm\x01\x00\x00\x00\x01\x0D\x03`\x01\x7F\x01\x7F`\x00\x00`\x00\x01~\x03\x06\x05\x00\x00\x01\x02\x00\x05\x05\x02\x00\x01\x00\x01\x07\x15\x05\x01a\x00\x00\x01b\x00\x01\x01s\x00\x02\x01l\x00\x03\x01r\x00\x04\x0A8\x05\x06\x00\x20\x00@\x00\x0B\x06\x00\x20\x00@\x01\x0B\x14\x00A\xFC\xFF\x03B\x88\x8E\x98\xA8\xC0\xE0\x80\x81\x017C\x01\x00\x0B\x0A\x00A\xFC\xFF\x03)C\x01\x00\x0B\x08\x00\x20\x00(B\x01\x00\x0B";

/// A memory of a page with 64-bit addresses: `l` loads at an address, `o` at the one behind it, and `g` grows it.
const WIDE: &[u8] =
    b"\x00asm\x01\x00\x00\x00\x01\x0B\x02`\x01~\x01\x7F`\x01~\x01~\x03\x04\x03\x00\x00\x01\x05\x03\x01\x04\x01\x07\x0D\x03\x01l\x00\x00\x01o\x00\x01\x01g\x00\x02\x0A\x18\x03\x07\x00\x20\x00(\x02\x00\x0B\x07\x00\x20\x00(\x02\x01\x0B\x06\x00\x20\x00@\x00\x0B";

/// `f` ends in a tail call of a function that throws, which leaves the handler around it.
const UNCAUGHT: &[u8] =
    b"\x00asm\x01\x00\x00\x00\x01\x08\x02`\x00\x00`\x01\x7F\x00\x03\x03\x02\x00\x00\x0D\x03\x01\x00\x01\x07\x05\x01\x01f\x00\x01\x0A\x16\x02\x06\x00A\x07\x08\x00\x0B\x0D\x00\x02@\x1F@\x01\x02\x00\x12\x00\x0B\x0B\x0B";

/// `f` catches its own exception, `g` throws it again, and `h` throws a null reference.
const THROWS: &[u8] =
    b"\x00asm\x01\x00\x00\x00\x01\x14\x04`\x00\x00`\x02\x7F{\x00`\x00\x02\x7F{`\x00\x03\x7F{i\x03\x04\x03\x02\x00\x00\x0D\x03\x01\x00\x01\x07\x0D\x03\x01f\x00\x00\x01g\x00\x01\x01h\x00\x02\x0AP\x03#\x00\x02\x02\x1F@\x01\x00\x00\x00A\x05\xFD\x0C\x01\x00\x00\x00\x00\x00\x00\x00\x02\x00\x00\x00\x00\x00\x00\x00\x08\x00\x0B\x00\x0B\x0B$\x00\x02\x03\x1F@\x01\x01\x00\x00A\x05\xFD\x0C\x01\x00\x00\x00\x00\x00\x00\x00\x02\x00\x00\x00\x00\x00\x00\x00\x08\x00\x0B\x00\x0B\x0A\x0B\x05\x00\xD0i\x0A\x0B";

/// Two memories, the first exported.
const MOVED: &[u8] =
    b"\x00asm\x01\x00\x00\x00\x05\x05\x02\x00\x00\x00\x00\x07\x05\x01\x01m\x02\x00";

/// A function that gives an i32, with an empty body.
const UNTYPED: &[u8] =
    b"\x00asm\x01\x00\x00\x00\x01\x05\x01`\x00\x01\x7F\x03\x02\x01\x00\x0A\x04\x01\x02\x00\x0B";

/// A module, a script, how many turns there are, which call of print fails, the status, and what is printed.
type RunRow<'a> = (&'a [u8], &'a str, &'a str, u64, u8, &'a str);

/// Whether a command that runs modules does what the row says.
fn runs_as(alloc: Global, word: &str, row: RunRow<'_>) -> Result<bool, AllocError> {
    let (module, script, turns, print, status, printed) = row;
    let outcome = Outcome {
        status,
        printed,
        written: None,
    };
    let failing = Failing { print, ..CALM };
    let s = script.as_bytes().to_vec(alloc)?;
    let words = [word, "a", "s", turns];
    runs_to(alloc, &words, module.to_vec(alloc)?, s, failing, outcome)
}

#[test]
fn runs_of_modules_of_1_0(rt: HostRuntime) -> Result<(), Fail> {
    let alloc = rt.alloc();
    let start: &[u8] =
        b"\x00asm\x01\x00\x00\x00\x01\x04\x01\x60\x00\x00\x03\x02\x01\x00\x08\x01\x00\x0A\x04\x01\x02\x00\x0B";
    let nothing = r#"{"version":1,"globals":[],"replies":[],"grows":[],"items":[]}"#;
    let rows: [RunRow<'_>; 14] = [
        (&LOWERED, CALLS, "1000000", 0, 0, SHOWN),
        (&LOWERED, CALLS, "18446744073709551615", 0, 0, SHOWN),
        // A trap, a global that is set, and then another call.
        (
            &DIVIDE,
            r#"{"version":1,"globals":[],"replies":[],"grows":[],"items":[{"call":["f",[]]},{"set":["g",["i32",9]]},{"call":["h",[]]}]}"#,
            "1000000",
            0,
            0,
            "started\ntrapped 0 [i32 5]\nreturned 2 () [i32 9]\ndone\n",
        ),
        // Too few turns, for a start function too.
        (
            &LOWERED,
            CALLS,
            "1",
            0,
            0,
            "started\nreturned 0 (i32 127) []\nrunning\n",
        ),
        (&LOWERED, CALLS, "0", 0, 0, "started\nrunning\n"),
        (start, nothing, "0", 0, 0, "running\n"),
        (start, nothing, "1", 0, 0, "started\ndone\n"),
        // The sink fails in the first line, and in the last.
        (&LOWERED, CALLS, "0", 4, 4, "starte"),
        (&LOWERED, CALLS, "0", 5, 4, "started\n"),
        // The module is looked at before the script, and the script before it is run.
        (&EXTEND, "{", "5", 0, 1, "refused: body 0\n"),
        (&LOWERED, "{", "5", 0, 1, "refused: script: not json\n"),
        (
            &DIVIDE,
            r#"{"version":2,"globals":[],"replies":[],"grows":[],"items":[]}"#,
            "5",
            0,
            1,
            "refused: script: /version\n",
        ),
        (
            &LOWERED,
            r#"{"version":1,"globals":[],"replies":[],"grows":[],"items":[{"call":["absent",[]]}]}"#,
            "5",
            0,
            1,
            "refused: script: does not fit\n",
        ),
        (
            &LOWERED,
            r#"{"version":1,"globals":[],"replies":[],"grows":[],"items":[{"call":["f",[["i64",1]]]}]}"#,
            "5",
            0,
            1,
            "refused: script: does not fit\n",
        ),
    ];
    for row in rows {
        assert!(rt; runs_as(alloc, "run1", row)?);
    }
    Ok(())
}

#[test]
fn runs_of_modules_of_3_0(rt: HostRuntime) -> Result<(), Fail> {
    let alloc = rt.alloc();
    let rows: [RunRow<'_>; 28] = [
        (&EXTEND, CALLS, "1000000", 0, 0, SHOWN),
        // Too few turns, and none.
        (
            &EXTEND,
            CALLS,
            "1",
            0,
            0,
            "started\nreturned 0 (i32 127) []\nrunning\n",
        ),
        (
            LOOP,
            r#"{"version":1,"globals":[],"replies":[],"grows":[],"items":[{"call":["f",[]]}]}"#,
            "5",
            0,
            0,
            "started\nrunning\n",
        ),
        (
            LOOP,
            r#"{"version":1,"globals":[],"replies":[],"grows":[],"items":[{"call":["f",[]]}]}"#,
            "0",
            0,
            0,
            "started\nrunning\n",
        ),
        // Each tail call is a turn.
        (
            EVEN,
            r#"{"version":1,"globals":[],"replies":[],"grows":[],"items":[{"call":["even",[["i32",10000]]]}]}"#,
            "10001",
            0,
            0,
            "started\nreturned 0 (i32 1) []\ndone\n",
        ),
        (
            EVEN,
            r#"{"version":1,"globals":[],"replies":[],"grows":[],"items":[{"call":["even",[["i32",10000]]]}]}"#,
            "10000",
            0,
            0,
            "started\nrunning\n",
        ),
        // A trap, a global that is set, and then another call.
        (
            &DIVIDE,
            r#"{"version":1,"globals":[],"replies":[],"grows":[],"items":[{"call":["f",[]]},{"set":["g",["i32",9]]},{"call":["h",[]]}]}"#,
            "1000000",
            0,
            0,
            "started\ntrapped 0 [i32 5]\nreturned 2 () [i32 9]\ndone\n",
        ),
        // A host that looks into the memory and changes it, and one without a reply.
        (
            FILL,
            r#"{"version":1,"globals":[],"replies":[[{"acts":[{"peek":["memory",1024,4]},{"poke":["memory",1024,"05"]}],"values":[]}]],"grows":[],"items":[{"call":["run",[["i32",1024],["i32",4]]]},{"peek":["memory",1024,4]}]}"#,
            "1000000",
            0,
            0,
            "started\nhost 0 (i32 1024, i32 4) []\npeeked (80808080)\nreturned 0 (i32 5) []\npeeked (05808080)\ndone\n",
        ),
        (
            FILL,
            r#"{"version":1,"globals":[],"replies":[[]],"grows":[],"items":[{"peek":["memory",131072,1]},{"call":["run",[["i32",1024],["i32",4]]]}]}"#,
            "1000000",
            0,
            0,
            "started\nout of range\nhost 0 (i32 1024, i32 4) []\nno reply 0\n",
        ),
        // Several results, of the host too.
        (
            RESULTS,
            r#"{"version":1,"globals":[],"replies":[[{"acts":[],"values":[["i32",1],["i64",18446744073709551615],["i32",4294967295]]}]],"grows":[],"items":[{"call":["f",[]]}]}"#,
            "1000000",
            0,
            0,
            "started\nhost 0 () []\nreturned 0 (i32 1, i64 18446744073709551615, i32 4294967295) []\ndone\n",
        ),
        // Vectors.
        (
            STORE,
            r#"{"version":1,"globals":[],"replies":[],"grows":[],"items":[{"call":["s",[["i32",65528]]]},{"peek":["m",65528,8]}]}"#,
            "1000000",
            0,
            0,
            "started\ntrapped 0 []\npeeked (0000000000000000)\ndone\n",
        ),
        (
            VECTORS,
            r#"{"version":1,"globals":[],"replies":[],"grows":[],"items":[{"call":["p",[]]},{"call":["q",[]]}]}"#,
            "1000000",
            0,
            0,
            "started\nreturned 0 (v128 0 15) []\nreturned 1 (v128 0 0) []\ndone\n",
        ),
        (
            LANES,
            r#"{"version":1,"globals":[],"replies":[],"grows":[],"items":[{"call":["q",[]]},{"call":["d",[]]},{"call":["s",[]]},{"peek":["m",65528,8]}]}"#,
            "1000000",
            0,
            0,
            "started\nreturned 0 (v128 9223231297218904063 9223231297218904063) []\nreturned 1 (v128 9223372039002259456 9223372039002259456) []\ntrapped 2 []\npeeked (0000000000000000)\ndone\n",
        ),
        // References, and a table that grows and is filled.
        (
            SAME,
            r#"{"version":1,"globals":[],"replies":[],"grows":[],"items":[{"call":["id",[["extern",4294967294]]]},{"call":["id",[["null","extern"]]]}]}"#,
            "1000000",
            0,
            0,
            "started\nreturned 0 (extern 4294967294) []\nreturned 1 (null extern) []\ndone\n",
        ),
        (
            TABLE,
            r#"{"version":1,"globals":[],"replies":[],"grows":[],"items":[{"call":["grow",[["i32",0]]]},{"call":["grow",[["i32",2]]]},{"call":["grow",[["i32",1]]]},{"call":["copy",[]]},{"call":["call",[["i32",3]]]},{"call":["drop",[]]},{"call":["fill",[["i32",1]]]},{"call":["fill",[["i32",0]]]}]}"#,
            "1000000",
            0,
            0,
            "started\nreturned 0 (i32 4) []\nreturned 1 (i32 4294967295) []\nreturned 2 (i32 4) []\nreturned 3 () []\nreturned 4 (i32 12) []\nreturned 5 () []\ntrapped 6 []\nreturned 7 () []\ndone\n",
        ),
        // Two memories, of which one is told that it cannot grow; and one with 64-bit addresses.
        (
            MEMORIES,
            r#"{"version":1,"globals":[],"replies":[],"grows":[true,false,true],"items":[{"call":["a",[["i32",1]]]},{"call":["b",[["i32",1]]]},{"call":["b",[["i32",2]]]},{"call":["s",[]]},{"call":["l",[]]},{"call":["r",[["i32",65536]]]}]}"#,
            "1000000",
            0,
            0,
            "started\nreturned 0 (i32 1) []\nreturned 1 (i32 4294967295) []\nreturned 2 (i32 1) []\nreturned 3 () []\nreturned 4 (i64 72623859790382856) []\nreturned 5 (i32 16909060) []\ndone\n",
        ),
        (
            WIDE,
            r#"{"version":1,"globals":[],"replies":[],"grows":[false],"items":[{"call":["l",[["i64",4294967296]]]},{"call":["o",[["i64",18446744073709551615]]]},{"call":["g",[["i64",1099511627776]]]}]}"#,
            "1000000",
            0,
            0,
            "started\ntrapped 0 []\ntrapped 1 []\nreturned 2 (i64 18446744073709551615) []\ndone\n",
        ),
        // Exceptions.
        (
            UNCAUGHT,
            r#"{"version":1,"globals":[],"replies":[],"grows":[],"items":[{"call":["f",[]]}]}"#,
            "1000000",
            0,
            0,
            "started\nuncaught 0 0 (i32 7) []\ndone\n",
        ),
        (
            THROWS,
            r#"{"version":1,"globals":[],"replies":[],"grows":[],"items":[{"call":["f",[]]},{"call":["g",[]]},{"call":["h",[]]}]}"#,
            "1000000",
            0,
            0,
            "started\nreturned 0 (i32 5, v128 1 2) []\nuncaught 1 0 (i32 5, v128 1 2) []\ntrapped 2 []\ndone\n",
        ),
        // The sink fails in the first line, and in the last.
        (&EXTEND, CALLS, "0", 4, 4, "starte"),
        (&EXTEND, CALLS, "0", 5, 4, "started\n"),
        // The steps in their order: reading, the profile, typing, the script, and whether it fits.
        (&EXTEND[..33], "{", "5", 0, 1, "refused: frame: bad size\n"),
        (MOVED, "{", "5", 0, 1, "refused: outside: memory moved\n"),
        (UNTYPED, "{", "5", 0, 1, "refused: invalid: body 0\n"),
        (&EXTEND, "{", "5", 0, 1, "refused: script: not json\n"),
        (
            &DIVIDE,
            r#"{"version":2,"globals":[],"replies":[],"grows":[],"items":[]}"#,
            "5",
            0,
            1,
            "refused: script: /version\n",
        ),
        (
            RESULTS,
            r#"{"version":1,"globals":[],"replies":[[{"acts":[],"values":7}]],"grows":[],"items":[]}"#,
            "5",
            0,
            1,
            "refused: script: /replies/0/0/values\n",
        ),
        (
            SAME,
            r#"{"version":1,"globals":[],"replies":[],"grows":[],"items":[{"call":["id",[["i32",0]]]}]}"#,
            "5",
            0,
            1,
            "refused: script: does not fit\n",
        ),
    ];
    for row in rows {
        assert!(rt; runs_as(alloc, "run3", row)?);
    }
    Ok(())
}
