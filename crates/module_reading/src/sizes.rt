// How large the sections of a file are, as the walk that checks them finds it.

ghost use Rattle.std.specs.Prelude.{◌≡◌, IfOk, MatchOption, option_map, unwrap_or};
ghost use Rattle.grammar_kit.specs.Form.{vector};
ghost use Rattle.wasm_frame.specs.Leb128.{u32};
ghost use Rattle.wasm_frame.specs.Payloads.{IsRead, optional};
ghost use Rattle.module_reading.specs.Sizes.{AreSizesOf, IsNumber, sizes_at, no_sizes};

use crate::bodies::BodyExtent;
use grammar_kit::{FormError, Measure};
use sqlite_items::Items;
use std::alloc::{AllocError, Global};
use wasm_frame::payloads::{measure_vector, number_of};

/// How large the payload of a section is.
#[derive(Clone, Copy)]
pub struct Sizes {
    /// How many entries its vector has. Of a section that is one number, that number.
    pub count: u32,
    /// The greatest size of an entry, 0 where there is none.
    pub greatest: u32,
    /// The sum of the sizes.
    pub total: u64,
    /// The greatest of another size of an entry, as the results of a function type.
    pub second: u32,
}

impl Sizes {
    /// The sizes where there is no section.
    pub const NONE: Sizes = Sizes {
        count: 0,
        greatest: 0,
        total: 0,
        second: 0,
    };
}

/// How large the section of an id is.
#[derive(Clone, Copy)]
pub struct SectionSizes {
    /// The id.
    pub id: u8,
    /// How large its payload is.
    pub sizes: Sizes,
}

/// How large the sections and the bodies of a file are.
#[derive(Drop)]
pub struct FileSizes {
    /// The sections, custom ones and the code section left out.
    pub sections: Items<SectionSizes>,
    /// The bodies.
    pub bodies: BodyExtent,
}

impl FileSizes {
    /// How large the section of an id is, if there is one.
    pub fn find(&self, id: u8) -> Option<Sizes>
        ensures { result ≡ sizes_at id self.now.sections }
    {
        for section in self.sections.as_slice() {
            if section.id == id {
                return Some(section.sizes);
            }
        }
        None
    }

    /// The number that the section of an id is, if there is one.
    pub fn number(&self, id: u8) -> Option<u32>
        ensures { result ≡ option_map (λ s. s.count) (sizes_at id self.now.sections) }
    {
        match self.find(id) {
            Some(sizes) => Some(sizes.count),
            None => None,
        }
    }

    /// How large the section of an id is. Where there is none, nothing is there.
    pub fn of(&self, id: u8) -> Sizes
        ensures { result ≡ unwrap_or (sizes_at id self.now.sections) no_sizes }
    {
        match self.find(id) {
            Some(sizes) => sizes,
            None => Sizes::NONE,
        }
    }
}

/// How large a payload is that is one vector. `None` where it is none.
pub fn vector_sizes<M: Measure>(alloc: Global, payload: &[u8]) -> Result<Option<Sizes>, AllocError>
    ensures { IfOk result (λ sizes. MatchOption sizes (¬ (IsRead (vector u32 M.form) payload.now)) (AreSizesOf (vector u32 M.form) M.size payload.now)) }
{
    match measure_vector::<M>(alloc, payload) {
        Ok((count, extent)) => Ok(Some(Sizes {
            count,
            greatest: extent.greatest,
            total: extent.total,
            second: 0,
        })),
        Err(FormError::Malformed) => Ok(None),
        Err(FormError::Memory(error)) => Err(error),
    }
}

/// The number that a payload is. `None` where it is none.
pub fn number_sizes(payload: &[u8]) -> Option<Sizes>
    ensures { MatchOption result (¬ (IsRead optional payload.now)) (IsNumber payload.now) }
{
    let count = number_of(Some(payload))?;
    Some(Sizes {
        count,
        ..Sizes::NONE
    })
}
