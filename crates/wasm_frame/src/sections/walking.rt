// From the head on, section by section.
ghost use Rattle.std.specs.Prelude.{◌≡◌, ℕ, List, ◌<◌, ◌++◌, length, All, IfOk, IfSome, MatchOption, position, ◌==◌};
ghost use Rattle.grammar_kit.specs.Gives.{GivesOption};
ghost use Rattle.wasm_frame.specs.Frame.{IsWithin, Tells, head, section, order, left_after};

use super::{FrameFault, HEAD, Section, Sections, Version};
use crate::leb128::split_u32;
use grammar_kit::{read_byte, read_raw};
use sqlite_items::Items;
use std::alloc::Global;

static ORDER_ONE: [u8; 11] = [1, 2, 3, 4, 5, 6, 7, 8, 9, 10, 11];

static ORDER_THREE: [u8; 13] = [1, 2, 3, 4, 5, 13, 6, 7, 8, 9, 12, 10, 11];

fn order(v: Version) -> &'static [u8]
    ensures { result.now ≡ order v }
{
    match v {
        Version::One => &ORDER_ONE,
        Version::Three => &ORDER_THREE,
    }
}

fn after_head(b: &[u8]) -> Option<&[u8]>
    ensures { MatchOption result ((t : List ℕ) → b.now ≡ head ++ t → ⊥) (λ rest. b.now ≡ head ++ rest.now) }
{
    b.strip_prefix(&HEAD)
}

fn place_of(id: u8, left: &[u8]) -> Option<usize>
    ensures place { result ≡ position (λ k. k == id) left.now }
    ensures within { IfSome result (λ at. at < length left.now) }
{
    left.iter().position(|k| *k == id)
}

/// The ids that may stand behind a section of this id. `None` where it may not stand here itself.
fn left_after(id: u8, left: &[u8]) -> Option<&[u8]>
    ensures { GivesOption (λ next. next.now) result (left_after id left.now) }
{
    if id == 0 {
        return Some(left);
    }
    let at = place_of(id, left)?;
    Some(&left[at + 1..])
}

/// The id and the payload of the section at the front, and the bytes after it.
#[tactic(auto, unfolding(crate::specs::Frame::section))]
fn split_section(bytes: &[u8]) -> Option<(u8, &[u8], &[u8])>
    ensures { GivesOption (λ p. (record { id = p.0; payload = p.1.now }, p.2.now)) result (section.read bytes.now) }
{
    let (id, rest) = read_byte(bytes)?;
    let (size, rest) = split_u32(rest)?;
    let (payload, rest) = read_raw(size as usize, rest)?;
    Some((id, payload, rest))
}

/// The sections of a file of this version, by where they stand. Payloads are neither copied nor looked into.
pub fn walk(alloc: Global, b: &[u8], v: Version) -> Result<Sections, FrameFault>
    ensures tells { Tells v b.now result }
    ensures ranges { IfOk result (λ found. All (IsWithin b.now) found) }
{
    let Some(mut rest) = after_head(b) else {
        return Err(FrameFault::BadHead);
    };
    let mut left = order(v);
    let mut sections = Items::new(alloc);
    while !rest.is_empty() {
        let Some((id, payload, after)) = split_section(rest) else {
            return Err(FrameFault::BadSize);
        };
        let Some(next) = left_after(id, left) else {
            return Err(FrameFault::BadOrder);
        };
        let end = b.len() - after.len();
        let start = end - payload.len();
        sections.push(Section { id, start, end })?;
        rest = after;
        left = next;
    }
    Ok(sections)
}
