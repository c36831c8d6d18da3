// The sections of a file: whether each is in its grammar, and how large they are.

ghost use Rattle.std.specs.Prelude.{◌≡◌, ◌≢◌, List, [], ◌∷◌, ◌++◌, IfOk};
ghost use Rattle.grammar_kit.specs.Form.{Chosen};
ghost use Rattle.wasm_frame.specs.Frame.{Part};
ghost use Rattle.module_reading.specs.Means.{Laws};
ghost use Rattle.module_reading.specs.Sizes.{IsMeasured};
ghost use Rattle.module_reading.specs.Spells.{IsPart};
ghost use Rattle.module_reading.specs.Steps.{Step};
ghost use Rattle.module_reading.specs.Walked.{AreWalked, IsWalkedOver};

use crate::bodies::{BodyExtent, Walk, walk_code};
use crate::fault::ReadFault;
use crate::file::File;
use crate::format::ModuleFormat;
use crate::sizes::{FileSizes, SectionSizes};
use sqlite_items::Items;
use std::alloc::{AllocError, Global};
use wasm_frame::names::is_custom;

/// What was found of the sections.
#[derive(Drop)]
pub struct Walked {
    /// How large they are, custom sections and the code section left out.
    pub sections: Items<SectionSizes>,
    /// What the walk over the bodies came to, if there is a code section.
    pub bodies: Option<Walk>,
}

/// Over a code section. False where it is not cut into bodies.
fn walk_code_section<F: ModuleFormat>(
    alloc: Global,
    walked: &mut Walked,
    payload: &[u8],
) -> Result<bool, AllocError>
    ensures { (seen : List Part) → AreWalked F.format F.means seen walked.old →
        IfOk result (λ yes. Chosen yes (AreWalked F.format F.means (seen ++ (record { id = 10; payload = payload.now }) ∷ []) walked.new) (¬ (IsPart F.format (record { id = 10; payload = payload.now })))) }
{
    let Some(walk) = walk_code::<F>(alloc, payload)? else {
        return Ok(false);
    };
    if walked.bodies.is_none() {
        walked.bodies = Some(walk);
    }
    Ok(true)
}

/// Over a section that is no custom section and no code section. False where it is not in its grammar.
fn walk_entries<F: ModuleFormat>(
    alloc: Global,
    walked: &mut Walked,
    id: u8,
    payload: &[u8],
) -> Result<bool, AllocError>
    requires no_custom { id ≢ 0 }
    requires no_code { id ≢ 10 }
    ensures { (seen : List Part) → AreWalked F.format F.means seen walked.old →
        IfOk result (λ yes. Chosen yes (AreWalked F.format F.means (seen ++ (record { id = id; payload = payload.now }) ∷ []) walked.new) (¬ (IsPart F.format (record { id = id; payload = payload.now })))) }
{
    match F::check(alloc, id, payload)? {
        Some(sizes) => {
            walked.sections.push(SectionSizes { id, sizes })?;
            Ok(true)
        }
        None => Ok(false),
    }
}

/// Over one more section. False where it is not in its grammar.
fn walk_section<F: ModuleFormat>(
    alloc: Global,
    walked: &mut Walked,
    id: u8,
    payload: &[u8],
) -> Result<bool, AllocError>
    ensures { (seen : List Part) → AreWalked F.format F.means seen walked.old →
        IfOk result (λ yes. Chosen yes (AreWalked F.format F.means (seen ++ (record { id = id; payload = payload.now }) ∷ []) walked.new) (¬ (IsPart F.format (record { id = id; payload = payload.now })))) }
{
    match id {
        0 => Ok(is_custom(payload)),
        10 => walk_code_section::<F>(alloc, walked, payload),
        _ => walk_entries::<F>(alloc, walked, id, payload),
    }
}

/// Over the sections of a file.
fn walk_sections<F: ModuleFormat>(alloc: Global, file: &File<'_>) -> Result<Walked, ReadFault>
    requires { file.now.version ≡ F.format.version }
    ensures { Step F.format file.now.bytes result (IsWalkedOver F.format F.means file.now) }
{
    let mut walked = Walked {
        sections: Items::new(alloc),
        bodies: None,
    };
    let bytes = file.bytes();
    for (place, section) in file.sections().iter().enumerate() {
        let payload = &bytes[section.start..section.end];
        if !walk_section::<F>(alloc, &mut walked, section.id, payload)? {
            return Err(ReadFault::Section(place as u32));
        }
    }
    Ok(walked)
}

/// How large the sections and the bodies of a file are, if all are in their grammar.
pub fn measure<F: ModuleFormat>(alloc: Global, file: &File<'_>) -> Result<FileSizes, ReadFault>
    requires version { file.now.version ≡ F.format.version }
    requires laws { Laws F.format F.means }
    ensures { Step F.format file.now.bytes result (IsMeasured F.format F.means file.now) }
{
    let walked = walk_sections::<F>(alloc, file)?;
    let walk = walked.bodies.unwrap_or(Walk::Measured(BodyExtent::NONE));
    match walk {
        Walk::Measured(bodies) => Ok(FileSizes {
            sections: walked.sections,
            bodies,
        }),
        Walk::Misfit(place) => Err(ReadFault::Body(place)),
    }
}
