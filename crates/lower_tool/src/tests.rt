// The whole command over files in memory: each status, each line, and what stands in the output. Runs stand in `runs`.

ghost use Rattle.std.specs.Prelude.{◌≡◌, ◌≢◌, ◌<◌, [], ◌∷◌, IfOk, None, codes};
ghost use Rattle.tool_files.specs.Safe.{IsHeld};
ghost use Rattle.lower_tool.specs.Words.{Say, lower};

mod lowered;
mod runs;

use crate::files::{FailAt, MemFiles, SafeFiles};
use crate::sink::{MemSink, SafeSink};
use crate::tool::tool;
use num_core::lists::{Bytes, Text, Texts};
use std::alloc::{AllocError, Global};
use std::test::Fail;

/// A module of one function, `local.get 0 i32.extend8_s`, that is exported as `f`.
const EXTEND: [u8; 36] = [
    0x00, 0x61, 0x73, 0x6D, 0x01, 0x00, 0x00, 0x00, 0x01, 0x06, 0x01, 0x60, 0x01, 0x7F, 0x01, 0x7F,
    0x03, 0x02, 0x01, 0x00, 0x07, 0x05, 0x01, 0x01, 0x66, 0x00, 0x00, 0x0A, 0x07, 0x01, 0x05, 0x00,
    0x20, 0x00, 0xC0, 0x0B,
];

/// What it is lowered to: `local.get 0`, and twice a shift by 24.
const LOWERED: [u8; 41] = [
    0x00, 0x61, 0x73, 0x6D, 0x01, 0x00, 0x00, 0x00, 0x01, 0x06, 0x01, 0x60, 0x01, 0x7F, 0x01, 0x7F,
    0x03, 0x02, 0x01, 0x00, 0x07, 0x05, 0x01, 0x01, 0x66, 0x00, 0x00, 0x0A, 0x0C, 0x01, 0x0A, 0x00,
    0x20, 0x00, 0x41, 0x18, 0x74, 0x41, 0x18, 0x75, 0x0B,
];

/// A module of 1.0: an exported mutable global `g` that is 5, `f`, which divides -2147483648 by -1, and `h`, which does
/// nothing.
const DIVIDE: [u8; 64] = [
    0x00, 0x61, 0x73, 0x6D, 0x01, 0x00, 0x00, 0x00, 0x01, 0x08, 0x02, 0x60, 0x00, 0x01, 0x7F, 0x60,
    0x00, 0x00, 0x03, 0x03, 0x02, 0x00, 0x01, 0x06, 0x06, 0x01, 0x7F, 0x01, 0x41, 0x05, 0x0B, 0x07,
    0x0D, 0x03, 0x01, 0x66, 0x00, 0x00, 0x01, 0x68, 0x00, 0x01, 0x01, 0x67, 0x03, 0x00, 0x0A, 0x10,
    0x02, 0x0B, 0x00, 0x41, 0x80, 0x80, 0x80, 0x80, 0x78, 0x41, 0x7F, 0x6D, 0x0B, 0x02, 0x00, 0x0B,
];

/// Four calls of `f`.
const CALLS: &str =
    r#"{"version":1,"globals":[],"replies":[],"grows":[],"items":[{"call":["f",[["i32",127]]]},{"call":["f",[["i32",128]]]},{"call":["f",[["i32",255]]]},{"call":["f",[["i32",4294967295]]]}]}"#;

/// What they show of a module that extends a byte.
const SHOWN: &str =
    "started\nreturned 0 (i32 127) []\nreturned 1 (i32 4294967168) []\nreturned 2 (i32 4294967295) []\nreturned 3 (i32 4294967295) []\ndone\n";

/// Two files, the module `a` and the script `s`.
fn two_files(alloc: Global, a: Vec<u8>, s: Vec<u8>) -> Result<Vec<(Text, Bytes)>, AllocError>
    ensures { IfOk result (λ files. files.items ≡ (codes "a", a.items) ∷ (codes "s", s.items) ∷ []) }
{
    let mut files = Vec::new(alloc);
    files.push((Text::new(alloc, "a")?, Bytes::from_vec(a)))?;
    files.push((Text::new(alloc, "s")?, Bytes::from_vec(s)))?;
    Ok(files)
}

fn texts(alloc: Global, words: &[&str]) -> Result<Texts, AllocError> {
    let mut texts = Texts::new(alloc);
    for word in words {
        texts.push(Text::new(alloc, word)?)?;
    }
    Ok(texts)
}

/// How many bytes a call moves at most, and which call of each kind fails, counted from 1; none where the number is 0.
#[derive(Clone, Copy)]
struct Failing {
    most: u32,
    begin: u64,
    take: u64,
    create: u64,
    give: u64,
    print: u64,
}

/// No call fails.
const CALM: Failing = Failing {
    most: 16,
    begin: 0,
    take: 0,
    create: 0,
    give: 0,
    print: 0,
};

impl Failing {
    fn of_files(self, alloc: Global) -> Result<FailAt, AllocError> {
        Ok(FailAt {
            begin: vec![in alloc; self.begin]?,
            take: vec![in alloc; self.take]?,
            create: vec![in alloc; self.create]?,
            give: vec![in alloc; self.give]?,
        })
    }
}

/// What a run comes to: the status, what is printed, and what stands in the file `b`.
#[derive(Clone, Copy)]
struct Outcome<'a> {
    status: u8,
    printed: &'a str,
    written: Option<&'a [u8]>,
}

fn bytes_of<'a>(files: &'a [(Text, Bytes)], name: &str) -> Option<&'a [u8]> {
    for file in files {
        if file.0.as_str() == name {
            return Some(file.1.as_slice());
        }
    }
    None
}

/// Whether the words come to this, over the file `a` and an empty script.
fn comes_to(
    alloc: Global,
    words: &[&str],
    a: Vec<u8>,
    failing: Failing,
    outcome: Outcome,
) -> Result<bool, AllocError>
    requires { 0 < failing.most }
{
    runs_to(alloc, words, a, Vec::new(alloc), failing, outcome)
}

/// Whether the words come to this, over the files `a` and `s` and a sink that takes two bytes at once. It has no clause: the
/// tests compare what ran.
fn runs_to(
    alloc: Global,
    words: &[&str],
    a: Vec<u8>,
    s: Vec<u8>,
    failing: Failing,
    outcome: Outcome,
) -> Result<bool, AllocError>
    requires { 0 < failing.most }
{
    let words = texts(alloc, words)?;
    let held = two_files(alloc, a, s)?;
    let fails = failing.of_files(alloc)?;
    let prints = vec![in alloc; failing.print]?;
    let mut files = MemFiles::new(alloc, held, failing.most, fails);
    let mut out = MemSink::new(alloc, 2, prints);
    let status = tool(alloc, &words, &mut files, &mut out);
    Ok(
        status == outcome.status
            && out.written() == outcome.printed.as_bytes()
            && bytes_of(files.holds(), "b") == outcome.written,
    )
}

#[test]
fn one_fault_at_a_time(rt: HostRuntime) -> Result<(), Fail> {
    let alloc = rt.alloc();
    // Which call of begin, take, create and give fails, the status, what is printed, and what is written.
    let rows: [(u64, u64, u64, u64, u8, &str, Option<&[u8]>); 7] = [
        (0, 0, 0, 0, 0, "", Some(&LOWERED)),
        (1, 0, 0, 0, 3, "cannot read\n", None),
        (0, 1, 0, 0, 3, "cannot read\n", None),
        (0, 3, 0, 0, 3, "cannot read\n", None),
        (0, 0, 1, 0, 4, "", None),
        (0, 0, 0, 1, 4, "", Some(&[])),
        (0, 0, 0, 2, 4, "", Some(&LOWERED[..16])),
    ];
    for (begin, take, create, give, status, printed, written) in rows {
        let failing = Failing {
            begin,
            take,
            create,
            give,
            ..CALM
        };
        let outcome = Outcome {
            status,
            printed,
            written,
        };
        let a = EXTEND.to_vec(alloc)?;
        assert!(rt; comes_to(alloc, &["lower", "a", "b"], a, failing, outcome)?);
    }
    Ok(())
}

/// Whether a file is refused with this line, and no output is left.
fn is_refused(alloc: Global, bytes: Vec<u8>, printed: &str) -> Result<bool, AllocError> {
    let outcome = Outcome {
        status: 1,
        printed,
        written: None,
    };
    comes_to(alloc, &["lower", "a", "b"], bytes, CALM, outcome)
}

#[test]
fn one_changed_byte_of_the_example(rt: HostRuntime) -> Result<(), Fail> {
    let alloc = rt.alloc();
    // The place of a byte, and what stands there: a result of type i64, and i64.extend8_s.
    let rows: [(usize, u8, &str); 2] = [
        (15, 0x7E, "refused: invalid: body 0\n"),
        (34, 0xC2, "refused: invalid: body 0\n"),
    ];
    for (place, byte, printed) in rows {
        let mut bytes = EXTEND;
        bytes[place] = byte;
        assert!(rt; is_refused(alloc, bytes.to_vec(alloc)?, printed)?);
    }
    Ok(())
}

/// Whether `lower` and `check3` both refuse a file with this line.
fn is_unread(alloc: Global, bytes: &[u8], printed: &str) -> Result<bool, AllocError> {
    Ok(
        is_refused(alloc, bytes.to_vec(alloc)?, printed)?
            && is_checked(alloc, "check3", bytes.to_vec(alloc)?, CALM, 1, printed)?,
    )
}

#[test]
fn the_example_damaged(rt: HostRuntime) -> Result<(), Fail> {
    let alloc = rt.alloc();
    // The place of a byte, and what stands there: another head, a section twice, a section of another kind, the size of
    // a body that then ends too late, and a body without its end.
    let rows: [(usize, u8, &str); 5] = [
        (4, 0x02, "refused: frame: bad head\n"),
        (16, 0x01, "refused: frame: bad order\n"),
        (16, 0x04, "refused: section 1\n"),
        (30, 0x06, "refused: section 3\n"),
        (35, 0x01, "refused: body 0\n"),
    ];
    for (place, byte, printed) in rows {
        let mut bytes = EXTEND;
        bytes[place] = byte;
        assert!(rt; is_unread(alloc, &bytes, printed)?);
    }
    assert!(rt; is_unread(alloc, &EXTEND[..33], "refused: frame: bad size\n")?);
    Ok(())
}

#[test]
fn sections_behind_the_head(rt: HostRuntime) -> Result<(), Fail> {
    let alloc = rt.alloc();
    // A count of 6 bytes, a function without a body, and a bad section behind ten others; a reserved name; two results of a
    // type; a data segment at an imported i32 global plus 1, which wants a region; an immutable global that is exported and
    // known only when the module runs; a memory that is too small at most, and that behind what is not built.
    let rows: [(&[u8], &str); 9] = [
        (b"\x01\x06\x80\x80\x80\x80\x80\x00", "refused: section 0\n"),
        (
            b"\x01\x04\x01\x60\x00\x00\x03\x02\x01\x00",
            "refused: counts\n",
        ),
        (
            b"\0\x01\0\0\x01\0\0\x01\0\0\x01\0\0\x01\0\0\x01\0\0\x01\0\0\x01\0\0\x01\0\0\x01\0\x01\x01\x01",
            "refused: section 10\n",
        ),
        (
            b"\x01\x06\x01\x60\x01\x7F\x01\x7F\x03\x02\x01\x00\x07\x0B\x01\x07lower.f\x00\x00\x0A\x07\x01\x05\x00\x20\x00\xC0\x0B",
            "refused: outside: reserved name 0\n",
        ),
        (
            b"\x01\x06\x01\x60\x00\x02\x7F\x7F",
            "refused: outside: not built multi\n",
        ),
        (
            b"\x02\x08\x01\x01e\x01i\x03\x7F\x00\x05\x03\x01\x00\x01\x0B\x0A\x01\x00#\x00A\x01j\x0B\x01a",
            "refused: outside: not built memories\n",
        ),
        (
            b"\x02\x08\x01\x01e\x01i\x03\x7F\x00\x06\x09\x01\x7F\x00#\x00A\x01j\x0B\x07\x05\x01\x01g\x03\x01",
            "refused: outside: not built constants\n",
        ),
        (b"\x05\x04\x01\x01\x02\x01", "refused: invalid: part 5 0\n"),
        (
            b"\x01\x06\x01\x60\x00\x02\x7F\x7F\x05\x04\x01\x01\x02\x01",
            "refused: outside: not built multi\n",
        ),
    ];
    for (sections, printed) in rows {
        let mut bytes = EXTEND[..8].to_vec(alloc)?;
        bytes.extend_from_slice(sections)?;
        assert!(rt; is_refused(alloc, bytes, printed)?);
    }
    Ok(())
}

#[test]
fn modules_that_stay(rt: HostRuntime) -> Result<(), Fail> {
    let alloc = rt.alloc();
    // local.get 0 local.get 0 i32.add, and nothing but the head.
    let mut sum = EXTEND[..27].to_vec(alloc)?;
    sum.extend_from_slice(b"\x0A\x09\x01\x07\x00\x20\x00\x20\x00\x6A\x0B")?;
    for bytes in [sum.as_slice(), &EXTEND[..8]] {
        let outcome = Outcome {
            status: 0,
            printed: "",
            written: Some(bytes),
        };
        assert!(rt;
            comes_to(
                alloc,
                &["lower", "a", "b"],
                bytes.to_vec(alloc)?,
                CALM,
                outcome
            )?
        );
    }
    Ok(())
}

#[test]
fn one_memory_past_the_limit(rt: HostRuntime) -> Result<(), Fail> {
    let alloc = rt.alloc();
    // A memory section of 203 bytes, with 101 memories of no pages and no maximum.
    let mut bytes = EXTEND[..8].to_vec(alloc)?;
    bytes.extend_from_slice(&[0x05, 0xCB, 0x01, 0x65])?;
    bytes.extend_from_slice(&[0; 202])?;
    assert!(rt; is_refused(alloc, bytes, "refused: limit: memories\n")?);
    Ok(())
}

#[test]
fn files_of_1_0(rt: HostRuntime) -> Result<(), Fail> {
    let alloc = rt.alloc();
    // What stands behind the head: nothing, a count of 5 and of 6 bytes, a type with a float, a memory whose greatest size
    // is below its least, and a function of type [] -> [i32] whose body is empty.
    let rows: [(&[u8], u8, &str); 6] = [
        (b"", 0, "ok\n"),
        (b"\x01\x05\x80\x80\x80\x80\x00", 0, "ok\n"),
        (
            b"\x01\x06\x80\x80\x80\x80\x80\x00",
            1,
            "refused: section 0\n",
        ),
        (
            b"\x01\x05\x01\x60\x01\x7D\x00",
            1,
            "refused: outside: floats\n",
        ),
        (
            b"\x05\x04\x01\x01\x02\x01",
            1,
            "refused: invalid: part 5 0\n",
        ),
        (
            b"\x01\x05\x01\x60\x00\x01\x7F\x03\x02\x01\x00\x0A\x04\x01\x02\x00\x0B",
            1,
            "refused: invalid: body 0\n",
        ),
    ];
    for (sections, status, printed) in rows {
        let mut bytes = EXTEND[..8].to_vec(alloc)?;
        bytes.extend_from_slice(sections)?;
        assert!(rt; is_checked(alloc, "check1", bytes, CALM, status, printed)?);
    }
    // The lowered example; what it was lowered from has an instruction that 1.0 lacks.
    assert!(rt; is_checked(alloc, "check1", LOWERED.to_vec(alloc)?, CALM, 0, "ok\n")?);
    assert!(rt;
        is_checked(
            alloc,
            "check1",
            EXTEND.to_vec(alloc)?,
            CALM,
            1,
            "refused: body 0\n"
        )?
    );
    Ok(())
}

#[test]
fn files_of_3_0(rt: HostRuntime) -> Result<(), Fail> {
    let alloc = rt.alloc();
    // What stands behind the head: nothing, a count of 5 and of 6 bytes; six modules outside the profile; an empty body
    // of type [] -> [i32], a memory whose greatest size is below its least, and that with a reserved name; code behind
    // unreachable that is typed and that is not; a data segment at an imported i32 global plus 1.
    let rows: [(&[u8], u8, &str); 15] = [
        (b"", 0, "ok\n"),
        (b"\x01\x05\x80\x80\x80\x80\x00", 0, "ok\n"),
        (
            b"\x01\x06\x80\x80\x80\x80\x80\x00",
            1,
            "refused: section 0\n",
        ),
        (
            b"\x05\x05\x02\x00\x00\x00\x00\x07\x05\x01\x01m\x02\x00",
            1,
            "refused: outside: memory moved\n",
        ),
        (b"\x01\x05\x01`\x01}\x00", 1, "refused: outside: floats\n"),
        (
            b"\x01\x04\x01`\x00\x00\x03\x02\x01\x00\x07\x0D\x01\x09lower.r.1\x00\x00\x0A\x04\x01\x02\x00\x0B",
            1,
            "refused: outside: reserved name 0\n",
        ),
        (
            b"\x04\x04\x01p\x00\x00\x07\x05\x01\x01t\x01\x00",
            1,
            "refused: outside: exported table\n",
        ),
        (
            b"\x04\x04\x01i\x00\x00",
            1,
            "refused: outside: exnref table\n",
        ),
        (
            b"\x02\x08\x01\x01e\x01i\x03\x7F\x01",
            1,
            "refused: outside: imported mutable global\n",
        ),
        (
            b"\x01\x05\x01`\x00\x01\x7F\x03\x02\x01\x00\x0A\x04\x01\x02\x00\x0B",
            1,
            "refused: invalid: body 0\n",
        ),
        (
            b"\x05\x04\x01\x01\x02\x01",
            1,
            "refused: invalid: part 5 0\n",
        ),
        (
            b"\x05\x04\x01\x01\x02\x01\x07\x0A\x01\x06lower.\x00\x00",
            1,
            "refused: outside: reserved name 0\n",
        ),
        (
            b"\x01\x05\x01`\x00\x01\x7F\x03\x02\x01\x00\x0A\x06\x01\x04\x00\x00j\x0B",
            0,
            "ok\n",
        ),
        (
            b"\x01\x05\x01`\x00\x01\x7F\x03\x02\x01\x00\x0A\x08\x01\x06\x00\x00B\x00j\x0B",
            1,
            "refused: invalid: body 0\n",
        ),
        (
            b"\x02\x08\x01\x01e\x01i\x03\x7F\x00\x05\x03\x01\x00\x01\x0B\x0A\x01\x00#\x00A\x01j\x0B\x01a",
            0,
            "ok\n",
        ),
    ];
    for (sections, status, printed) in rows {
        let mut bytes = EXTEND[..8].to_vec(alloc)?;
        bytes.extend_from_slice(sections)?;
        assert!(rt; is_checked(alloc, "check3", bytes, CALM, status, printed)?);
    }
    assert!(rt; is_checked(alloc, "check3", EXTEND.to_vec(alloc)?, CALM, 0, "ok\n")?);
    Ok(())
}

/// Whether `check1` or `check3` of a file ends with this status and prints this.
fn is_checked(
    alloc: Global,
    word: &str,
    bytes: Vec<u8>,
    failing: Failing,
    status: u8,
    printed: &str,
) -> Result<bool, AllocError>
    requires { 0 < failing.most }
{
    let outcome = Outcome {
        status,
        printed,
        written: None,
    };
    comes_to(alloc, &[word, "a"], bytes, failing, outcome)
}

#[test]
fn one_fault_of_a_check(rt: HostRuntime) -> Result<(), Fail> {
    let alloc = rt.alloc();
    // Which call of begin, take and print fails, the status, and what is printed.
    let rows: [(u64, u64, u64, u8, &str); 4] = [
        (1, 0, 0, 3, "cannot read\n"),
        (0, 2, 0, 3, "cannot read\n"),
        (0, 0, 1, 4, ""),
        (0, 0, 2, 4, "ok"),
    ];
    for (begin, take, print, status, printed) in rows {
        let failing = Failing {
            begin,
            take,
            print,
            ..CALM
        };
        assert!(rt;
            is_checked(
                alloc,
                "check1",
                LOWERED.to_vec(alloc)?,
                failing,
                status,
                printed
            )?
        );
    }
    Ok(())
}

#[test]
fn other_words_are_no_command(rt: HostRuntime) -> Result<(), Fail> {
    let alloc = rt.alloc();
    // The words, which call of print fails, the status, and what is printed.
    let rows: [(&[&str], u64, u8, &str); 22] = [
        (&["lower", "absent", "b"], 0, 3, "cannot read\n"),
        (&["check1", "absent"], 0, 3, "cannot read\n"),
        (&["check1"], 0, 2, "usage\n"),
        (&["check2", "a"], 0, 2, "usage\n"),
        (&["check1", "a", "b"], 0, 2, "usage\n"),
        (&["lower", "a"], 0, 2, "usage\n"),
        (&["lower", "a", "b", "0"], 0, 2, "usage\n"),
        (&["lower", "a", "b", "16385"], 0, 2, "usage\n"),
        (&["lower", "a", "b", "07"], 0, 2, "usage\n"),
        (&["lower", "a", "b", "7", "7"], 0, 2, "usage\n"),
        (&["run1", "a", "s"], 0, 2, "usage\n"),
        (&["run1", "a", "s", ""], 0, 2, "usage\n"),
        (&["run1", "a", "s", "05"], 0, 2, "usage\n"),
        (&["run1", "a", "s", "+5"], 0, 2, "usage\n"),
        (&["run1", "a", "s", "18446744073709551616"], 0, 2, "usage\n"),
        (&["run1", "absent", "s", "5"], 0, 3, "cannot read\n"),
        (&["run1", "a", "absent", "5"], 0, 3, "cannot read\n"),
        (&["run2", "a", "s", "5"], 0, 2, "usage\n"),
        (&["run3", "a", "s", "05"], 0, 2, "usage\n"),
        (&["run3", "a", "absent", "5"], 0, 3, "cannot read\n"),
        (&["--help"], 1, 2, ""),
        (&[], 2, 2, "us"),
    ];
    for (words, print, status, printed) in rows {
        let outcome = Outcome {
            status,
            printed,
            written: None,
        };
        let failing = Failing { print, ..CALM };
        let a = EXTEND.to_vec(alloc)?;
        assert!(rt; comes_to(alloc, words, a, failing, outcome)?);
    }
    Ok(())
}

#[test]
fn one_byte_past_the_limit(rt: HostRuntime) -> Result<(), Fail> {
    let alloc = rt.alloc();
    let large = vec![in alloc; 0; 67_108_865]?;
    let failing = Failing {
        most: u32::MAX,
        ..CALM
    };
    let outcome = Outcome {
        status: 1,
        printed: "refused: too large\n",
        written: None,
    };
    assert!(rt; comes_to(alloc, &["lower", "a", "b"], large, failing, outcome)?);
    let large = vec![in alloc; 0; 67_108_865]?;
    let outcome = Outcome {
        status: 1,
        printed: "refused: script: too large\n",
        written: None,
    };
    let words = ["run1", "a", "s", "5"];
    assert!(rt;
        runs_to(
            alloc,
            &words,
            DIVIDE.to_vec(alloc)?,
            large,
            failing,
            outcome
        )?
    );
    Ok(())
}

/// The words `lower a b`.
fn lower_a_b(alloc: Global) -> Result<Texts, AllocError>
    ensures { IfOk result (λ words. Say words (lower (codes "a") (codes "b") None)) }
{
    let mut words = Texts::new(alloc);
    words.push(Text::new(alloc, "lower")?)?;
    words.push(Text::new(alloc, "a")?)?;
    words.push(Text::new(alloc, "b")?)?;
    Ok(words)
}

/// The tool over objects that never fail: no fault is answered.
#[tactic(auto, using(crate::proofs::Rooms::may_begin))]
fn tool_without_faults(
    alloc: Global,
    words: &Texts,
    files: &mut SafeFiles,
    out: &mut SafeSink,
) -> u8
    requires words { Say words.now (lower (codes "a") (codes "b") None) }
    requires held { IsHeld files.old (codes "a") }
    ensures reads { result ≢ 3 }
    ensures writes { result ≢ 4 }
{
    tool(alloc, words, files, out)
}

#[test]
fn no_fault_without_faults(rt: HostRuntime) -> Result<(), Fail> {
    let alloc = rt.alloc();
    let mut files = SafeFiles::new(two_files(alloc, EXTEND.to_vec(alloc)?, Vec::new(alloc))?);
    let words = lower_a_b(alloc)?;
    assert!(rt; tool_without_faults(alloc, &words, &mut files, &mut SafeSink::new()) == 0);
    Ok(())
}
