// The frame of a file: a head, and then sections, each an id, a size and a payload.
ghost use Rattle.std.specs.Prelude.{◌≡◌, ℕ, List, ◌≤◌, length, ◌↔◌, All, IfOk, IsOk, Err};
ghost use Rattle.wasm_frame.specs.Frame.{Part, Ending, Whole, NoSize, NoPlace, Frame, IsHeaded, IsWithin, UnlessMemory, parts_of};

mod walking;

use sqlite_items::Items;
use std::alloc::{AllocError, Global};
use thiserror::Error;
use walking::walk;

/// The magic bytes and the version, with which each file begins.
pub static HEAD: [u8; 8] = *b"\0asm\x01\0\0\0";

/// A version of WebAssembly, which decides what sections there are.
#[derive(Clone, Copy, Debug, PartialEq, Eq)]
pub enum Version {
    /// 1.0.
    One,
    /// 3.0, with sections for tags and for the count of data segments.
    Three,
}

/// Where a section of a file stands: its id, and its payload as a range of the file's bytes.
#[derive(Clone, Copy, Debug, PartialEq, Eq)]
pub struct Section {
    /// The id.
    pub id: u8,
    /// The place of the payload's first byte.
    pub start: usize,
    /// The place behind the payload's last byte.
    pub end: usize,
}

/// The sections of a file in order.
pub type Sections = Items<Section>;

/// Why a file is no head with sections behind it: the first thing that is wrong.
#[derive(Debug, Drop, Error)]
pub enum FrameFault {
    /// The first eight bytes are not the head.
    #[error("bad head")]
    BadHead,
    /// A section has no size, or it ends past the file.
    #[error("bad size")]
    BadSize,
    /// A section has an id that the version lacks, is there a second time, or stands out of order.
    #[error("bad order")]
    BadOrder,
    /// Memory was not found.
    #[error("out of memory")]
    Memory(AllocError),
}

impl From<AllocError> for FrameFault {
    ghost use Rattle.wasm_frame.specs.declared.sections.FrameFault.TheVariants.{Memory};

    ghost from_gives = { λ error e. e ≡ Memory error };

    fn from(error: AllocError) -> FrameFault {
        FrameFault::Memory(error)
    }
}

/// The sections of a file of this version, by where they stand. Payloads are neither copied nor looked into. The
/// answer names the first thing that is wrong: a section that has no size counts as such, wherever it stands.
pub fn sections(alloc: Global, b: &[u8], v: Version) -> Result<Sections, FrameFault>
    // The sections are those of the file, and their ranges lie within it.
    ensures found { IfOk result (λ found. Frame v b.now (parts_of b.now found) Whole) }
    ensures ranges { IfOk result (λ found. All (IsWithin b.now) found) }
    ensures few { IfOk result (λ found. length found ≤ length b.now) }

    // When each answer comes.
    ensures ok { UnlessMemory result (IsOk result ↔ ((parts : List Part) × Frame v b.now parts Whole)) }
    ensures bad_head { UnlessMemory result ((result ≡ Err FrameFault.BadHead) ↔ (IsHeaded b.now → ⊥)) }
    ensures bad_size { UnlessMemory result ((result ≡ Err FrameFault.BadSize) ↔ ((parts : List Part) × Frame v b.now parts NoSize)) }
    ensures bad_order { UnlessMemory result ((result ≡ Err FrameFault.BadOrder) ↔ ((parts : List Part) × Frame v b.now parts NoPlace)) }
{
    walk(alloc, b, v)
}

/// A file has one list of sections with one ending.
pub fn one_frame()
    ensures { (v : Version) (b : List ℕ) (parts others : List Part) (end ending : Ending) → Frame v b parts end → Frame v b others ending →
        (parts ≡ others) × (end ≡ ending) }
{}
