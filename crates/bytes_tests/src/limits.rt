// The limits of both versions: what a file may have the most of is read, and one more is the limit of its kind.

ghost use Rattle.std.specs.Prelude.{◌≤◌, length, IfSome};
ghost use Rattle.module_reading.specs.Limits.{file_limit};

use core1_bytes::read1;
use module_reading::{FILE_LIMIT, Kind, ReadFault};
use num_core::lists::Bytes;
use read_new::read;
use std::alloc::{AllocError, Global};
use std::test::Fail;
use wasm_frame::leb128::put_u32;
use wasm_frame::sections::HEAD;

/// The version that a file is read as.
#[derive(Clone, Copy)]
enum Version {
    One,
    Three,
}

/// What reading a file comes to, as far as limits go.
#[derive(Clone, Copy, PartialEq, Eq)]
enum Outcome {
    Read,
    Limit(Kind),
    Refused,
}

/// Files that differ in a number: a section of this id, in whose payload an entry stands so many times behind a front
/// and the number, and before an end; and sections behind it.
type Many = (
    u8,
    &'static [u8],
    &'static [u8],
    &'static [u8],
    &'static [u8],
);

static LIMITS_OF_3_0: [(Kind, Many, u32); 14] = [
    (Kind::Types, (1, b"", b"\x60\x00\x00", b"", b""), 100_000),
    (
        Kind::Imports,
        (2, b"", b"\x01a\x01b\x03\x7F\x00", b"", b""),
        100_000,
    ),
    (Kind::Tables, (4, b"", b"\x70\x00\x00", b"", b""), 100),
    (Kind::Memories, (5, b"", b"\x00\x00", b"", b""), 100),
    (Kind::Tags, (13, b"", b"\x00\x00", b"", b""), 1_000),
    (
        Kind::Globals,
        (6, b"", b"\x7F\x00\x41\x00\x0B", b"", b""),
        100_000,
    ),
    (Kind::Exports, (7, b"", b"\x00\x00\x00", b"", b""), 100_000),
    (
        Kind::Elements,
        (9, b"", b"\x00\x41\x00\x0B\x00", b"", b""),
        100_000,
    ),
    (
        Kind::Segments,
        (11, b"", b"\x00\x41\x00\x0B\x00", b"", b""),
        100_000,
    ),
    (
        Kind::Parameters,
        (1, b"\x01\x60", b"\x7F", b"\x00", b""),
        1_000,
    ),
    (
        Kind::Results,
        (1, b"\x01\x60\x00", b"\x7F", b"", b""),
        1_000,
    ),
    (
        Kind::Payload,
        (1, b"\x01\x60", b"\x7E", b"\x00", b"\x0D\x03\x01\x00\x00"),
        64,
    ),
    (
        Kind::Payload,
        (1, b"\x01\x60", b"\x7B", b"\x00", b"\x0D\x03\x01\x00\x00"),
        32,
    ),
    (
        Kind::Payload,
        (1, b"\x01\x60", b"\x70", b"\x00", b"\x0D\x03\x01\x00\x00"),
        64,
    ),
];

static LIMITS_OF_1_0: [(Kind, Many, u32); 7] = [
    (Kind::Types, (1, b"", b"\x60\x00\x00", b"", b""), 300_000),
    (
        Kind::Imports,
        (2, b"", b"\x01a\x01b\x03\x7F\x00", b"", b""),
        300_000,
    ),
    (
        Kind::Globals,
        (6, b"", b"\x7F\x00\x41\x00\x0B", b"", b""),
        300_000,
    ),
    (Kind::Exports, (7, b"", b"\x00\x00\x00", b"", b""), 300_000),
    (
        Kind::Elements,
        (9, b"", b"\x00\x41\x00\x0B\x00", b"", b""),
        300_000,
    ),
    (
        Kind::Segments,
        (11, b"", b"\x00\x41\x00\x0B\x00", b"", b""),
        300_000,
    ),
    (
        Kind::Parameters,
        (1, b"\x01\x60", b"\x7F", b"\x00", b""),
        2_000,
    ),
];

fn within_limit(file: &[u8]) -> Option<&[u8]>
    ensures { IfSome result (λ f. length f.now ≤ file_limit) }
{
    if file.len() <= FILE_LIMIT {
        Some(file)
    } else {
        None
    }
}

/// What reading comes to that ends with this fault.
fn outcome_of(fault: ReadFault) -> Result<Outcome, Fail> {
    match fault {
        ReadFault::Limit(kind) => Ok(Outcome::Limit(kind)),
        ReadFault::Memory(error) => Err(Fail::from(error)),
        _ => Ok(Outcome::Refused),
    }
}

/// Whether reading this file as this version comes to this.
fn comes_to(
    alloc: Global,
    version: Version,
    file: &Bytes,
    expected: Outcome,
) -> Result<bool, Fail> {
    let file = within_limit(file.as_slice()).ok_or("too long a file")?;
    let fault = match version {
        Version::One => read1(alloc, file).err(),
        Version::Three => read(alloc, file).err(),
    };
    match fault {
        None => Ok(expected == Outcome::Read),
        Some(fault) => Ok(outcome_of(fault)? == expected),
    }
}

/// Appends a section.
fn append_section(file: &mut Bytes, id: u8, payload: &Bytes) -> Result<(), AllocError> {
    let payload = payload.as_slice();
    file.push(id)?;
    put_u32(file, u32::try_from(payload.len()).map_err(|_| AllocError)?)?;
    file.extend_from_slice(payload)
}

/// Appends an entry so many times.
fn append_entries(out: &mut Bytes, entry: &[u8], count: u32) -> Result<(), AllocError> {
    for _ in 0..count {
        out.extend_from_slice(entry)?;
    }
    Ok(())
}

/// The file with so many entries.
fn file_with(alloc: Global, many: &Many, count: u32) -> Result<Bytes, AllocError> {
    let (id, front, entry, end, behind) = many;
    let mut payload = Bytes::from_slice(alloc, front)?;
    put_u32(&mut payload, count)?;
    append_entries(&mut payload, entry, count)?;
    payload.extend_from_slice(end)?;
    let mut file = Bytes::from_slice(alloc, &HEAD)?;
    append_section(&mut file, *id, &payload)?;
    file.extend_from_slice(behind)?;
    Ok(file)
}

/// Whether the most are read and one more is the limit of this kind.
fn is_the_most(
    alloc: Global,
    version: Version,
    (kind, many, most): &(Kind, Many, u32),
) -> Result<bool, Fail> {
    let past = file_with(alloc, many, most.saturating_add(1))?;
    let file = file_with(alloc, many, *most)?;
    Ok(
        comes_to(alloc, version, &file, Outcome::Read)?
            && comes_to(alloc, version, &past, Outcome::Limit(*kind))?,
    )
}

#[test]
fn so_many_entries_of_3_0_and_no_more(rt: HostRuntime) -> Result<(), Fail> {
    for row in &LIMITS_OF_3_0 {
        assert!(rt; is_the_most(rt.alloc(), Version::Three, row)?);
    }
    Ok(())
}

#[test]
fn so_many_entries_of_1_0_and_no_more(rt: HostRuntime) -> Result<(), Fail> {
    for row in &LIMITS_OF_1_0 {
        assert!(rt; is_the_most(rt.alloc(), Version::One, row)?);
    }
    Ok(())
}

/// A file with one imported function, so many functions behind it and a body for each.
fn functions(alloc: Global, count: u32) -> Result<Bytes, AllocError> {
    let mut indices = Bytes::new(alloc);
    put_u32(&mut indices, count)?;
    append_entries(&mut indices, b"\x00", count)?;
    let mut bodies = Bytes::new(alloc);
    put_u32(&mut bodies, count)?;
    append_entries(&mut bodies, b"\x02\x00\x0B", count)?;
    let mut file = Bytes::from_slice(alloc, &HEAD)?;
    file.extend_from_slice(b"\x01\x04\x01\x60\x00\x00\x02\x07\x01\x01a\x01b\x00\x00")?;
    append_section(&mut file, 3, &indices)?;
    append_section(&mut file, 10, &bodies)?;
    Ok(file)
}

/// A file with one function, which has this body.
fn function(alloc: Global, body: &Bytes) -> Result<Bytes, AllocError> {
    let mut bodies = Bytes::from_slice(alloc, b"\x01")?;
    put_u32(
        &mut bodies,
        u32::try_from(body.as_slice().len()).map_err(|_| AllocError)?,
    )?;
    bodies.extend_from_slice(body.as_slice())?;
    let mut file = Bytes::from_slice(alloc, &HEAD)?;
    file.extend_from_slice(b"\x01\x04\x01\x60\x00\x00\x03\x02\x01\x00")?;
    append_section(&mut file, 10, &bodies)?;
    Ok(file)
}

/// A file with one function that declares so many locals.
fn locals(alloc: Global, count: u32) -> Result<Bytes, AllocError> {
    let mut body = Bytes::from_slice(alloc, b"\x01")?;
    put_u32(&mut body, count)?;
    body.extend_from_slice(b"\x7F\x0B")?;
    function(alloc, &body)
}

/// A file with one function whose body has so many blocks in one another.
fn blocks(alloc: Global, depth: u32) -> Result<Bytes, AllocError> {
    let mut body = Bytes::from_slice(alloc, b"\x00")?;
    append_entries(&mut body, b"\x02\x40", depth)?;
    append_entries(&mut body, b"\x0B", depth)?;
    body.extend_from_slice(b"\x0B")?;
    function(alloc, &body)
}

static LIMITS_OF_CODE: [(Version, Kind, u32); 6] = [
    (Version::Three, Kind::Functions, 99_999),
    (Version::Three, Kind::Locals, 50_000),
    (Version::Three, Kind::Nesting, 800),
    (Version::One, Kind::Functions, 299_999),
    (Version::One, Kind::Locals, 1_000_000),
    (Version::One, Kind::Nesting, 2_500),
];

/// A file with so much of this kind in its functions.
fn code_with(alloc: Global, kind: Kind, count: u32) -> Result<Bytes, AllocError> {
    match kind {
        Kind::Functions => functions(alloc, count),
        Kind::Locals => locals(alloc, count),
        _ => blocks(alloc, count),
    }
}

#[test]
fn so_much_code_and_no_more(rt: HostRuntime) -> Result<(), Fail> {
    for (version, kind, most) in &LIMITS_OF_CODE {
        let file = code_with(rt.alloc(), *kind, *most)?;
        let past = code_with(rt.alloc(), *kind, most.saturating_add(1))?;
        assert!(rt; comes_to(rt.alloc(), *version, &file, Outcome::Read)?);
        assert!(rt; comes_to(rt.alloc(), *version, &past, Outcome::Limit(*kind))?);
    }
    Ok(())
}
