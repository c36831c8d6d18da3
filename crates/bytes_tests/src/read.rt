// `read_new`: forms of sections, the first fault of a file, what a module has, and limits.

ghost use Rattle.std.specs.Prelude.{◌≤◌, length, IfSome};
ghost use Rattle.module_reading.specs.Limits.{file_limit};

use module_reading::FILE_LIMIT;
use read_new::{Kind, ReadFault, read};
use std::alloc::{AllocError, Global};
use std::process::Abort;
use std::test::Fail;
use wasm_ast::module::{BlockType, Element, Instr, Mode, Module, Ty};
use wasm_frame::sections::{FrameFault, HEAD};

/// What reading a file comes to.
#[derive(Clone, Copy, PartialEq, Eq)]
enum Outcome {
    Read,
    BadHead,
    BadSize,
    BadOrder,
    Section(u32),
    Body(u32),
    Counts,
    Limit(Kind),
}

fn within_limit(file: &[u8]) -> Option<&[u8]>
    ensures { IfSome result (λ f. length f.now ≤ file_limit) }
{
    if file.len() <= FILE_LIMIT {
        Some(file)
    } else {
        None
    }
}

fn outcome_of(alloc: Global, file: &[u8]) -> Result<Outcome, Fail> {
    let file = within_limit(file).ok_or("too long a file")?;
    Ok(match read(alloc, file) {
        Ok(_) => Outcome::Read,
        Err(ReadFault::Frame(FrameFault::BadHead)) => Outcome::BadHead,
        Err(ReadFault::Frame(FrameFault::BadSize)) => Outcome::BadSize,
        Err(ReadFault::Frame(FrameFault::BadOrder)) => Outcome::BadOrder,
        Err(ReadFault::Frame(FrameFault::Memory(error))) => return Err(Fail::from(error)),
        Err(ReadFault::Section(place)) => Outcome::Section(place),
        Err(ReadFault::Body(place)) => Outcome::Body(place),
        Err(ReadFault::Counts) => Outcome::Counts,
        Err(ReadFault::Limit(kind)) => Outcome::Limit(kind),
        Err(ReadFault::Memory(error)) => return Err(Fail::from(error)),
    })
}

/// The head, and then these bytes.
fn file_of(alloc: Global, sections: &[u8]) -> Result<Vec<u8>, AllocError> {
    let mut file = Vec::from_slice(alloc, &HEAD)?;
    file.extend_from_slice(sections)?;
    Ok(file)
}

fn module_of(alloc: Global, sections: &[u8]) -> Result<Module, Fail> {
    let file = file_of(alloc, sections)?;
    let file = within_limit(file.as_slice()).ok_or("too long a file")?;
    read(alloc, file).map_err(|_| Fail::from("no module"))
}

fn check(rt: &(impl Abort + AllocGlobal), rows: &[(&str, &[u8], Outcome)]) -> Result<(), Fail> {
    for (what, sections, expected) in rows {
        let file = file_of(rt.alloc(), sections)?;
        assert!(rt;
            outcome_of(rt.alloc(), file.as_slice())? == *expected,
            "{what}"
        );
    }
    Ok(())
}

#[test]
fn forms_of_sections(rt: HostRuntime) -> Result<(), Fail> {
    let rows: [(&str, &[u8], Outcome); 24] = [
        ("nothing", b"", Outcome::Read),
        (
            "padded count",
            b"\x01\x05\x80\x80\x80\x80\x00",
            Outcome::Read,
        ),
        (
            "value types",
            b"\x01\x0C\x01\x60\x08\x7F\x7E\x7D\x7C\x7B\x70\x6F\x69\x00",
            Outcome::Read,
        ),
        (
            "long references",
            b"\x01\x0A\x01\x60\x03\x63\x70\x63\x6F\x63\x69\x00",
            Outcome::Read,
        ),
        (
            "imports",
            b"\x02\x24\x05\x01a\x01b\x00\x00\x01a\x01c\x01\x70\x00\x00\x01a\x01d\x02\x04\x01\x01a\x01e\x03\x7E\x01\x01a\x01f\x04\x00\x00",
            Outcome::Read,
        ),
        (
            "tables",
            b"\x04\x0E\x02\x70\x01\x01\x02\x40\x00\x63\x70\x00\x01\xD0\x70\x0B",
            Outcome::Read,
        ),
        (
            "memories",
            b"\x05\x0B\x04\x00\x01\x01\x01\x02\x04\x01\x05\x01\x02",
            Outcome::Read,
        ),
        ("tag", b"\x0D\x03\x01\x00\x00", Outcome::Read),
        ("global", b"\x06\x06\x01\x7F\x00\x41\x00\x0B", Outcome::Read),
        (
            "exports",
            b"\x07\x15\x05\x01a\x00\x00\x01b\x01\x00\x01c\x02\x00\x01d\x03\x00\x01e\x04\x00",
            Outcome::Read,
        ),
        ("start", b"\x08\x01\x07", Outcome::Read),
        (
            "data",
            b"\x0B\x0F\x03\x00\x41\x00\x0B\x01x\x01\x00\x02\x00\x41\x00\x0B\x00",
            Outcome::Read,
        ),
        ("data count", b"\x0C\x01\x00", Outcome::Read),
        (
            "custom",
            b"\x00\x02\x01a\x05\x03\x01\x00\x01\x00\x03\x01b!",
            Outcome::Read,
        ),
        (
            "count of six bytes",
            b"\x01\x06\x80\x80\x80\x80\x80\x00",
            Outcome::Section(0),
        ),
        (
            "packed type",
            b"\x01\x05\x01\x60\x01\x78\x00",
            Outcome::Section(0),
        ),
        (
            "concrete reference",
            b"\x01\x06\x01\x60\x01\x63\x00\x00",
            Outcome::Section(0),
        ),
        (
            "fifth kind of import",
            b"\x02\x07\x01\x01a\x01b\x05\x00",
            Outcome::Section(0),
        ),
        (
            "shared memory",
            b"\x05\x04\x01\x03\x01\x01",
            Outcome::Section(0),
        ),
        (
            "third mutability",
            b"\x06\x06\x01\x7F\x02\x41\x00\x0B",
            Outcome::Section(0),
        ),
        (
            "tag with another byte",
            b"\x0D\x03\x01\x01\x00",
            Outcome::Section(0),
        ),
        ("data flag 3", b"\x0B\x03\x01\x03\x00", Outcome::Section(0)),
        (
            "bytes behind the vector",
            b"\x03\x02\x00\x00",
            Outcome::Section(0),
        ),
        ("custom without a name", b"\x00\x00", Outcome::Section(0)),
    ];
    check(&rt, &rows)
}

#[test]
fn first_fault_in_order(rt: HostRuntime) -> Result<(), Fail> {
    let rows: [(&str, &[u8], Outcome); 12] = [
        ("cut off", b"\x01\x05\x00", Outcome::BadSize),
        ("repeated", b"\x01\x01\x00\x01\x01\x00", Outcome::BadOrder),
        (
            "frame before section",
            b"\x01\x01\x07\x01\x01\x00",
            Outcome::BadOrder,
        ),
        (
            "second section",
            b"\x01\x01\x00\x03\x01\x07",
            Outcome::Section(1),
        ),
        (
            "section before body",
            b"\x0A\x04\x01\x02\x00\x06\x0B\x01\x01",
            Outcome::Section(1),
        ),
        (
            "second body",
            b"\x03\x03\x02\x00\x00\x0A\x07\x02\x02\x00\x0B\x02\x00\x06",
            Outcome::Body(1),
        ),
        (
            "bytes behind the end",
            b"\x03\x02\x01\x00\x0A\x05\x01\x03\x00\x0B\x0B",
            Outcome::Body(0),
        ),
        (
            "body before counts",
            b"\x03\x01\x00\x0A\x04\x01\x02\x00\x06",
            Outcome::Body(0),
        ),
        (
            "function without a body",
            b"\x03\x02\x01\x00",
            Outcome::Counts,
        ),
        ("data count of none", b"\x0C\x01\x01", Outcome::Counts),
        (
            "data.drop without a data count",
            b"\x03\x02\x01\x00\x0A\x07\x01\x05\x00\xFC\x09\x00\x0B",
            Outcome::Counts,
        ),
        (
            "data.drop with one",
            b"\x03\x02\x01\x00\x0C\x01\x00\x0A\x07\x01\x05\x00\xFC\x09\x00\x0B",
            Outcome::Read,
        ),
    ];
    check(&rt, &rows)?;
    assert!(rt; outcome_of(rt.alloc(), b"\0asm\x02\0\0\0")? == Outcome::BadHead);
    Ok(())
}

/// Whether a segment is active in this table, passive, or declarative.
fn mode_of(element: &Element) -> u32 {
    match &element.mode {
        Mode::Active(table, _) => *table,
        Mode::Passive => 100,
        Mode::Declarative => 200,
    }
}

/// Whether the element segments have these modes and types, and one entry each.
fn have(elements: &[Element], expected: &[(u32, Ty)]) -> bool {
    for (element, (mode, ty)) in elements.iter().zip(expected) {
        if mode_of(element) != *mode || element.ty != *ty || element.items.len() != 1 {
            return false;
        }
    }
    elements.len() == expected.len()
}

#[test]
fn flags_of_elements(rt: HostRuntime) -> Result<(), Fail> {
    let sections =
        b"\x09\x35\x08\x00\x41\x00\x0B\x01\x07\x01\x00\x01\x07\x02\x03\x41\x00\x0B\x00\x01\x07\x03\x00\x01\x07\x04\x41\x00\x0B\x01\xD2\x07\x0B\x05\x6F\x01\xD0\x6F\x0B\x06\x03\x41\x00\x0B\x6F\x01\xD0\x6F\x0B\x07\x6F\x01\xD0\x6F\x0B";
    let m = module_of(rt.alloc(), sections)?;
    let expected = [
        (0, Ty::Func),
        (100, Ty::Func),
        (3, Ty::Func),
        (200, Ty::Func),
        (0, Ty::Func),
        (100, Ty::Extern),
        (3, Ty::Extern),
        (200, Ty::Extern),
    ];
    assert!(rt; have(m.elems.as_slice(), &expected));
    check(
        &rt,
        &[("flag 8", b"\x09\x03\x01\x08\x00", Outcome::Section(0))],
    )
}

/// Whether code is a loop around a branch, and then a local.
fn is_loop_and_local(code: &[Instr]) -> bool {
    match code {
        [Instr::Loop(ty, inner), Instr::LocalGet(0)] => {
            *ty == BlockType::Empty && matches!(inner.as_slice(), [Instr::Br(0)])
        }
        _ => false,
    }
}

#[test]
fn parts_of_a_module(rt: HostRuntime) -> Result<(), Fail> {
    let sections =
        b"\x01\x06\x01\x60\x01\x7F\x01\x7F\x03\x02\x01\x00\x0A\x0F\x01\x0D\x02\x02\x7E\x01\x7B\x03\x40\x0C\x00\x0B\x20\x00\x0B";
    let m = module_of(rt.alloc(), sections)?;
    let body = m.codes.get(0).ok_or("no body")?;
    assert!(rt; m.funcs.as_slice() == [0].as_slice());
    assert!(rt; body.locals.as_slice() == [Ty::I64, Ty::I64, Ty::V128].as_slice());
    assert!(rt; is_loop_and_local(body.code.as_slice()));
    Ok(())
}

/// A section of an id, whose payload is a front, an item so many times, and an end.
fn repeated(
    alloc: Global,
    front: &[u8],
    item: &[u8],
    count: u32,
    end: &[u8],
) -> Result<Vec<u8>, AllocError> {
    let mut file = file_of(alloc, front)?;
    for _ in 0..count {
        file.extend_from_slice(item)?;
    }
    file.extend_from_slice(end)?;
    Ok(file)
}

/// Whether a file of these pieces has this outcome.
fn repeated_is(
    alloc: Global,
    (front, item, count, end): (&[u8], &[u8], u32, &[u8]),
    expected: Outcome,
) -> Result<bool, Fail> {
    let file = repeated(alloc, front, item, count, end)?;
    Ok(outcome_of(alloc, file.as_slice())? == expected)
}

#[test]
fn locals_behind_the_end_are_no_body(rt: HostRuntime) -> Result<(), Fail> {
    let behind = b"\x03\x02\x01\x00\x0A\x09\x01\x07\x01\xD1\x86\x03\x7F\x0B\x0B";
    let rows: [(&str, &[u8], Outcome); 1] = [("locals behind the end", behind, Outcome::Body(0))];
    check(&rt, &rows)
}

#[test]
fn open_blocks_are_no_body(rt: HostRuntime) -> Result<(), Fail> {
    let front = b"\x03\x02\x01\x00\x0A\x86\x92\xF4\x01\x01\x81\x92\xF4\x01\x00";
    let pieces: (&[u8], &[u8], u32, &[u8]) = (front, b"\x02\x40", 2_000_000, b"");
    assert!(rt; repeated_is(rt.alloc(), pieces, Outcome::Body(0))?);
    Ok(())
}

#[test]
fn faults_say_what_they_carry(rt: HostRuntime) -> Result<(), Fail> {
    let rows: [(ReadFault, &str); 5] = [
        (ReadFault::Frame(FrameFault::BadOrder), "frame: bad order"),
        (ReadFault::Section(4_294_967_295), "section 4294967295"),
        (ReadFault::Body(0), "body 0"),
        (ReadFault::Counts, "counts"),
        (ReadFault::Limit(Kind::Nesting), "limit: nesting"),
    ];
    for (fault, text) in rows {
        assert!(rt; fault.to_string(rt.alloc())?.as_str() == text);
    }
    Ok(())
}
