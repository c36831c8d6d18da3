use crate::fault::ReadFault;
use grammar_kit::Entry;
use sqlite_items::Items;
use std::alloc::{AllocError, Global};
use std::marker::Model;
use wasm_frame::payloads::{number_of, payload_of, vector_of};
use wasm_frame::sections::{FrameFault, Section, Sections, Version, sections};

/// The most bytes that a file may have.
pub const FILE_LIMIT: usize = 67_108_864;

/// The bytes of a file with its sections in place ("Modules" of the standard).
#[derive(Drop)]
pub struct File<'a> {
    version: Version,
    bytes: &'a [u8],
    sections: Sections,
}

impl<'a> Model for File<'a> {
    ghost use Rattle.std.specs.Prelude.{◌<◌, ◌^◌, All, length};
    ghost use Rattle.wasm_frame.specs.Frame.{Frame, Whole, IsWithin, parts_of};
    ghost use Rattle.module_reading.specs.Files.{Sectioned};

    ghost Value = { Sectioned };

    ghost view = { λ f. record { version = f.version; bytes = f.bytes.now; parts = parts_of f.bytes.now f.sections } };

    ghost invariant = { λ f. Frame f.version f.bytes.now (parts_of f.bytes.now f.sections) Whole × All (IsWithin f.bytes.now) f.sections × (length f.sections < 2 ^ 32) };
}

impl<'a> File<'a> {
    ghost use Rattle.std.specs.Prelude.{◌≡◌, ◌<◌, ◌^◌, [], None, length, All, IfOk, option_map};
    ghost use Rattle.grammar_kit.specs.Form.{vector};
    ghost use Rattle.wasm_frame.specs.Leb128.{u32};
    ghost use Rattle.wasm_frame.specs.Payloads.{value, optional};
    ghost use Rattle.wasm_frame.specs.Frame.{Frame, Whole, IsWithin, parts_of};
    ghost use Rattle.module_reading.specs.Files.{payloads};
    ghost use Rattle.module_reading.specs.Steps.{Opens};

    /// The file of these bytes in a version of the format. `Frame` where they are no head with sections behind it, by the
    /// first thing that is wrong. More than 2^32 - 1 sections are want of memory.
    pub fn open(alloc: Global, bytes: &'a [u8], version: Version) -> Result<File<'a>, ReadFault>
        ensures { Opens version bytes.now result }
    {
        let sections = match sections(alloc, bytes, version) {
            Ok(sections) => sections,
            Err(FrameFault::Memory(error)) => return Err(ReadFault::Memory(error)),
            Err(fault) => return Err(ReadFault::Frame(fault)),
        };
        if u32::try_from(sections.len()).is_err() {
            return Err(ReadFault::Memory(AllocError));
        }
        Ok(File {
            version,
            bytes,
            sections,
        })
    }

    /// The payload of the section of an id. `None` exactly where the file has no such section.
    pub fn payload(&self, id: u8) -> Option<&[u8]>
        ensures { option_map (λ p. p.now) result ≡ payloads self.now id }
    {
        payload_of(self.bytes, self.sections.as_slice(), id)
    }

    /// The entries of the section of an id, whose payload is a vector. Where there is no such section, or its payload is no
    /// vector, there are none.
    pub fn entries<E: Entry>(&self, alloc: Global, id: u8) -> Result<Items<E::Value>, AllocError>
        ensures { IfOk result (λ entries. entries ≡ value (vector u32 E.form) [] (payloads self.now id)) }
    {
        vector_of::<E>(alloc, self.payload(id))
    }

    /// The number that the section of an id is, if it is one.
    pub fn number(&self, id: u8) -> Option<u32>
        ensures { result ≡ value optional None (payloads self.now id) }
    {
        number_of(self.payload(id))
    }

    /// The sections in order, as places of the file's bytes.
    pub fn sections(&self) -> &[Section]
        ensures parts { parts_of self.now.bytes result.now ≡ self.now.parts }
        ensures within { All (IsWithin self.now.bytes) result.now }
        ensures few { length result.now < 2 ^ 32 }
        ensures frame { Frame self.now.version self.now.bytes self.now.parts Whole }
    {
        self.sections.as_slice()
    }

    /// The bytes.
    pub fn bytes(&self) -> &[u8]
        ensures { result.now ≡ self.now.bytes }
    {
        self.bytes
    }
}
