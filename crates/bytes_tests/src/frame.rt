// `wasm_frame`: numbers in LEB128, frames and names.

use num_core::lists::Bytes;
use std::alloc::{AllocError, Global};
use std::test::Fail;
use wasm_frame::leb128::{
    put_s32, put_s33, put_s64, put_u32, put_u64, read_s32, read_s33, read_s64, read_u32, read_u64,
};
use wasm_frame::names::{is_custom, split_name};
use wasm_frame::sections::{FrameFault, HEAD, Version, sections};

#[test]
fn unsigned_spellings(rt: HostRuntime) {
    let narrow: [(&[u8], Option<(u32, usize)>); 10] = [
        (&[0xFF, 0xFF, 0xFF, 0xFF, 0x0F], Some((4_294_967_295, 5))),
        (&[0x80, 0x80, 0x80, 0x80, 0x10], None),
        (&[0x80, 0x80, 0x80, 0x80, 0x40], None),
        (&[0x80, 0x80, 0x80, 0x80, 0x80, 0x00], None),
        (&[0x80, 0x80, 0x80, 0x80, 0x00], Some((0, 5))),
        (&[0x80, 0x00, 0xFF], Some((0, 2))),
        (&[0x7F], Some((127, 1))),
        (&[0x00], Some((0, 1))),
        (&[0x80], None),
        (&[], None),
    ];
    for (bytes, answer) in narrow {
        assert!(rt; read_u32(bytes) == answer);
    }
    let wide: [(&[u8], Option<(u64, usize)>); 6] = [
        (&[], None),
        (&[0x7F], Some((127, 1))),
        (&[0xFF, 0xFF, 0xFF, 0xFF, 0x7F], Some((34_359_738_367, 5))),
        (
            &[0xFF, 0xFF, 0xFF, 0xFF, 0xFF, 0xFF, 0xFF, 0xFF, 0xFF, 0x01],
            Some((18_446_744_073_709_551_615, 10)),
        ),
        (
            &[0xFF, 0xFF, 0xFF, 0xFF, 0xFF, 0xFF, 0xFF, 0xFF, 0xFF, 0x02],
            None,
        ),
        (
            &[
                0x80, 0x80, 0x80, 0x80, 0x80, 0x80, 0x80, 0x80, 0x80, 0x80, 0x00,
            ],
            None,
        ),
    ];
    for (bytes, answer) in wide {
        assert!(rt; read_u64(bytes) == answer);
    }
}

#[test]
fn signed_spellings(rt: HostRuntime) {
    let narrow: [(&[u8], Option<(i32, usize)>); 9] = [
        (&[0x7F], Some((-1, 1))),
        (&[0x3F], Some((63, 1))),
        (&[0x40], Some((-64, 1))),
        (&[0xFF, 0xFF, 0xFF, 0xFF, 0x07], Some((2_147_483_647, 5))),
        (&[0x80, 0x80, 0x80, 0x80, 0x78], Some((-2_147_483_648, 5))),
        (&[0xFF, 0xFF, 0xFF, 0xFF, 0x7F], Some((-1, 5))),
        (&[0xFF, 0xFF, 0xFF, 0xFF, 0x4F], None),
        (&[0xFF, 0xFF, 0xFF, 0xFF, 0x0F], None),
        (&[0x80, 0x80, 0x80, 0x80, 0x08], None),
    ];
    for (bytes, answer) in narrow {
        assert!(rt; read_s32(bytes) == answer);
    }
    let middle: [(&[u8], Option<(i64, usize)>); 5] = [
        (&[0x40], Some((-64, 1))),
        (&[0x80, 0x80, 0x80, 0x80, 0x70], Some((-4_294_967_296, 5))),
        (&[0xFF, 0xFF, 0xFF, 0xFF, 0x0F], Some((4_294_967_295, 5))),
        (&[0x80, 0x80, 0x80, 0x80, 0x10], None),
        (&[0x80, 0x80, 0x80, 0x80, 0x60], None),
    ];
    for (bytes, answer) in middle {
        assert!(rt; read_s33(bytes) == answer);
    }
    let wide: [(&[u8], Option<(i64, usize)>); 4] = [
        (
            &[0x80, 0x80, 0x80, 0x80, 0x80, 0x80, 0x80, 0x80, 0x80, 0x7F],
            Some((-9_223_372_036_854_775_808, 10)),
        ),
        (
            &[0xFF, 0xFF, 0xFF, 0xFF, 0xFF, 0xFF, 0xFF, 0xFF, 0xFF, 0x00],
            Some((9_223_372_036_854_775_807, 10)),
        ),
        (
            &[0xFF, 0xFF, 0xFF, 0xFF, 0xFF, 0xFF, 0xFF, 0xFF, 0xFF, 0x7E],
            None,
        ),
        (
            &[0x80, 0x80, 0x80, 0x80, 0x80, 0x80, 0x80, 0x80, 0x80, 0x01],
            None,
        ),
    ];
    for (bytes, answer) in wide {
        assert!(rt; read_s64(bytes) == answer);
    }
}

#[test]
fn shortest_spellings(rt: HostRuntime) -> Result<(), Fail> {
    let mut out = Bytes::new(rt.alloc());
    put_s33(&mut out, -4_294_967_296)?;
    put_u32(&mut out, 128)?;
    put_s32(&mut out, 64)?;
    put_s64(&mut out, -9_223_372_036_854_775_808)?;
    put_u64(&mut out, 18_446_744_073_709_551_615)?;
    let spelled: [u8; 29] = [
        0x80, 0x80, 0x80, 0x80, 0x70, 0x80, 0x01, 0xC0, 0x00, 0x80, 0x80, 0x80, 0x80, 0x80, 0x80,
        0x80, 0x80, 0x80, 0x7F, 0xFF, 0xFF, 0xFF, 0xFF, 0xFF, 0xFF, 0xFF, 0xFF, 0xFF, 0x01,
    ];
    assert!(rt; out.as_slice() == spelled.as_slice());
    Ok(())
}

/// What cutting a file into sections comes to.
#[derive(Clone, Copy, PartialEq, Eq)]
enum Cut {
    Sections(usize),
    BadHead,
    BadSize,
    BadOrder,
}

fn cutting_of(alloc: Global, file: &[u8], version: Version) -> Result<Cut, AllocError> {
    match sections(alloc, file, version) {
        Ok(found) => Ok(Cut::Sections(found.len())),
        Err(FrameFault::BadHead) => Ok(Cut::BadHead),
        Err(FrameFault::BadSize) => Ok(Cut::BadSize),
        Err(FrameFault::BadOrder) => Ok(Cut::BadOrder),
        Err(FrameFault::Memory(error)) => Err(error),
    }
}

/// Of a file whose bytes after the head are these.
fn cut_behind_head(alloc: Global, after_head: &[u8], version: Version) -> Result<Cut, AllocError> {
    let mut file = Bytes::from_slice(alloc, &HEAD)?;
    file.extend_from_slice(after_head)?;
    cutting_of(alloc, file.as_slice(), version)
}

#[test]
fn frames(rt: HostRuntime) -> Result<(), Fail> {
    let cases: [(&[u8], Version, Cut); 18] = [
        (&[], Version::One, Cut::Sections(0)),
        // a count of five bytes, and one of six, which is a fault of the payload and not of the frame
        (
            &[1, 5, 0x80, 0x80, 0x80, 0x80, 0],
            Version::Three,
            Cut::Sections(1),
        ),
        (
            &[1, 6, 0x80, 0x80, 0x80, 0x80, 0x80, 0],
            Version::Three,
            Cut::Sections(1),
        ),
        (
            &[1, 2, 7, 7, 3, 0x80, 0, 11, 1, 9],
            Version::One,
            Cut::Sections(3),
        ),
        (&[0, 0, 1, 0, 0, 1, 5, 0, 0], Version::One, Cut::Sections(4)),
        (
            &[5, 0, 13, 0, 6, 0, 12, 0, 10, 0, 11, 0],
            Version::Three,
            Cut::Sections(6),
        ),
        (&[5, 0, 13, 0], Version::One, Cut::BadOrder),
        (&[9, 0, 12, 0], Version::One, Cut::BadOrder),
        (&[13, 0, 5, 0], Version::Three, Cut::BadOrder),
        (&[10, 0, 12, 0], Version::Three, Cut::BadOrder),
        (&[1, 0, 1, 0], Version::Three, Cut::BadOrder),
        (&[2, 0, 1, 0], Version::Three, Cut::BadOrder),
        (&[14, 0], Version::Three, Cut::BadOrder),
        (&[1], Version::Three, Cut::BadSize),
        (&[1, 0x80], Version::Three, Cut::BadSize),
        (&[1, 2, 7], Version::Three, Cut::BadSize),
        (&[1, 0, 1, 2, 7], Version::Three, Cut::BadSize),
        (&[2, 0, 1, 0, 1, 9], Version::Three, Cut::BadOrder),
    ];
    for (after_head, version, answer) in cases {
        assert!(rt; cut_behind_head(rt.alloc(), after_head, version)? == answer);
    }
    let head = cutting_of(rt.alloc(), b"\0asm\x0d\0\0\0", Version::Three)?;
    assert!(rt; head == Cut::BadHead);
    Ok(())
}

#[test]
fn names(rt: HostRuntime) {
    assert!(rt; split_name(&[2, b'h', b'i', 7]) == Some(("hi", [7].as_slice())));
    assert!(rt; split_name(&[2, 0xC3, 0x28]).is_none() && is_custom(&[0]));
}
