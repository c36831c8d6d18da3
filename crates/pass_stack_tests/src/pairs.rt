// Two entries of the list in one module: the one that stands earlier in the list is named, whichever has its parts first.

use crate::outside::{SETTINGS, module_of};
use pass_stack::{Outside, profile};
use std::alloc::{AllocError, Global};
use std::test::Fail;

/// The id of a section, and an item of it.
type Item = (u8, &'static [u8]);

/// The entries in their order, by the front of their texts, and items by which each holds beside the items of any other.
/// Index 9 is out of range.
static ENTRIES: [(&str, &[Item]); 25] = [
    ("floats", &[(1, b"\x60\x01\x7D\x00")]),
    ("wide table", &[(4, b"\x6F\x04\x00")]),
    ("table initialiser", &[(4, b"\x40\x00\x70\x00\x00\x0B")]),
    ("imported table", &[(2, b"\x01e\x01i\x01\x70\x00\x00")]),
    ("imported tag", &[(2, b"\x01e\x01i\x04\x00\x09")]),
    ("imported mutable global", &[(2, b"\x01e\x01i\x03\x7F\x01")]),
    ("imported memory", &[(2, b"\x01e\x01i\x02\x00\x00")]),
    (
        "exported table",
        &[(4, b"\x70\x00\x00"), (7, b"\x01t\x01\x00")],
    ),
    ("wide global", &[(2, b"\x01e\x01i\x03\x6F\x00")]),
    ("exnref table", &[(9, b"\x05\x69\x00")]),
    // Two tags, since the other's type may come first.
    (
        "host exnref",
        &[
            (1, b"\x60\x01\x69\x00"),
            (13, b"\x00\x00"),
            (13, b"\x00\x01"),
        ],
    ),
    ("reserved name", &[(7, b"\x07lower.x\x03\x09")]),
    (
        "memory moved",
        &[(5, b"\x00\x00"), (5, b"\x00\x00"), (7, b"\x01m\x02\x00")],
    ),
    ("too many pages", &[(5, b"\x00\x81\x80\x04")]),
    // An exported immutable global, whose value does not fold.
    (
        "not built constants",
        &[
            (6, b"\x7F\x00\x41\x01\x41\x02\x71\x0B"),
            (7, b"\x01g\x03\x00"),
        ],
    ),
    ("not built multi", &[(1, b"\x60\x00\x02\x7F\x7F")]),
    (
        "not built simd",
        &[(3, b"\x00"), (10, b"\x06\x00\x00\xFD\x0E\x1A\x0B")],
    ),
    (
        "not built late lanes",
        &[(3, b"\x00"), (10, b"\x06\x00\x00\xFD\x60\x1A\x0B")],
    ),
    (
        "not built tail",
        &[(3, b"\x00"), (10, b"\x04\x00\x12\x00\x0B")],
    ),
    ("not built refs", &[(1, b"\x60\x01\x6F\x00")]),
    ("not built tables", &[(4, b"\x6F\x00\x00")]),
    ("not built exceptions", &[(13, b"\x00\x09")]),
    ("not built bulk", &[(11, b"\x01\x01a")]),
    ("not built wide memory", &[(5, b"\x04\x00")]),
    ("not built memories", &[(5, b"\x00\x00"), (5, b"\x00\x00")]),
];

/// The ids of the sections that these items stand in, in the order of a module.
static SECTIONS: [u8; 11] = [1, 2, 3, 4, 5, 13, 6, 7, 9, 10, 11];

/// How many of the items stand in this section.
fn count_in(id: u8, items: &[Item]) -> u8 {
    let mut count: u8 = 0;
    for (section, _) in items {
        if *section == id {
            count = count.wrapping_add(1);
        }
    }
    count
}

/// Appends the items of this section.
fn push_items(id: u8, items: &[Item], payload: &mut Vec<u8>) -> Result<(), AllocError> {
    for (section, item) in items {
        if *section == id {
            payload.extend_from_slice(item)?;
        }
    }
    Ok(())
}

/// Appends the section of this id with the items of both, where they have any.
fn push_section(
    alloc: Global,
    id: u8,
    first: &[Item],
    second: &[Item],
    sections: &mut Vec<u8>,
) -> Result<(), Fail> {
    let count = count_in(id, first).wrapping_add(count_in(id, second));
    if count > 0 {
        let mut payload = vec![in alloc; count]?;
        push_items(id, first, &mut payload)?;
        push_items(id, second, &mut payload)?;
        sections.push(id)?;
        sections.push(u8::try_from(payload.len()).ok().ok_or("a long section")?)?;
        sections.extend_from_slice(payload.as_slice())?;
    }
    Ok(())
}

/// The sections of the items of both, the items of the first in front.
fn sections_of(alloc: Global, first: &[Item], second: &[Item]) -> Result<Vec<u8>, Fail> {
    let mut sections = Vec::new(alloc);
    for id in &SECTIONS {
        push_section(alloc, *id, first, second, &mut sections)?;
    }
    Ok(sections)
}

/// Whether there is an entry whose text begins so.
fn begins_with(alloc: Global, found: Option<Outside>, front: &str) -> Result<bool, AllocError> {
    match found {
        Some(entry) => {
            let text = format!(in alloc; "{entry}")?;
            Ok(text.as_str().as_bytes().starts_with(front.as_bytes()))
        }
        None => Ok(false),
    }
}

/// Whether the module of the items of both is kept out by the entry whose text begins so.
fn is_kept_out(alloc: Global, first: &[Item], second: &[Item], front: &str) -> Result<bool, Fail> {
    let sections = sections_of(alloc, first, second)?;
    let m = module_of(alloc, sections.as_slice())?;
    Ok(begins_with(alloc, profile(alloc, &m, &SETTINGS)?, front)?)
}

/// The first two entries whose module is not kept out by the earlier of them. An entry also stands beside itself.
fn first_wrong_pair(alloc: Global) -> Result<Option<(usize, usize)>, Fail> {
    for (i, (text, first)) in ENTRIES.iter().enumerate() {
        for (j, (other, second)) in ENTRIES.iter().enumerate() {
            let earlier = if i < j { text } else { other };
            if !is_kept_out(alloc, first, second, earlier)? {
                return Ok(Some((i, j)));
            }
        }
    }
    Ok(None)
}

#[test]
fn of_two_entries_the_earlier_is_named(rt: HostRuntime) -> Result<(), Fail> {
    assert_eq!(rt; first_wrong_pair(rt.alloc())?, None);
    Ok(())
}
