// How a file of 1.0 is read: by the steps that all versions share, over its own grammar and limits.

ghost use Rattle.std.specs.Prelude.{◌≡◌, Result, IfOk};
ghost use Rattle.core1_ast.specs.declared.module.parts.Module1.{Module1};
ghost use Rattle.module_reading.specs.declared.fault.ReadFault.{ReadFault};
ghost use Rattle.module_reading.specs.Files.{payloads};
ghost use Rattle.module_reading.specs.Reads.{Reads, Tells, UnlessMemory};
ghost use Rattle.core1_bytes.specs.Spells.{one};
ghost use Rattle.core1_bytes.specs.Made.{made, means, declared_of};

use super::bodies::{BodyEntry, measure_body};
use super::instructions::IndexEntry;
use super::parts::{
    ElementEntry, ExportEntry, GlobalEntry, ImportEntry, MemoryEntry, SegmentEntry, TableEntry,
};
use super::sections::check;
use super::types::TypeEntry;
use core1_ast::module::{
    Body1, Element1, Export1, FuncType1, Global1, Import1, Limits1, Module1, Segment1,
};
use grammar_kit::FormError;
use module_reading::{BodySizes, File, FileSizes, Kind, ModuleFormat, Numbers, ReadFault, Sizes};
use sqlite_items::Items;
use std::alloc::{AllocError, Global};
use wasm_frame::sections::Version;

/// The module that the bytes of a file of 1.0 spell, where it passes no limit. The answer names the first step that
/// refuses the file: its frame, the first section that is not in its grammar, the first body that is not, the counts of
/// functions and bodies, and the first limit that is passed. Custom sections add nothing.
pub fn read1(alloc: Global, b: &[u8]) -> Result<Module1, ReadFault>
    // What the answer says of the file.
    ensures tells { Tells one b.now result }
    // No other answer is told of it.
    ensures only { UnlessMemory result ((other : Result Module1 ReadFault) → Reads one b.now other → other ≡ result) }
{
    module_reading::read::<One>(alloc, b)
}

/// What a module declares, its values and its code left out.
#[derive(Drop)]
pub struct Declared1 {
    types: Items<FuncType1>,
    imports: Items<Import1>,
    funcs: Items<u32>,
    tables: Items<Limits1>,
    memories: Items<Limits1>,
}

/// The binary format of WebAssembly 1.0.
struct One;

impl ModuleFormat for One {
    type Module = Module1;

    type Declared = Declared1;

    ghost format = { one };

    ghost means = { means };

    ghost front = { declared_of };

    fn version() -> Version {
        Version::One
    }

    fn limit(kind: Kind) -> Option<u64> {
        match kind {
            Kind::Types
            | Kind::Imports
            | Kind::Functions
            | Kind::Globals
            | Kind::Exports
            | Kind::Elements
            | Kind::Segments => Some(300_000),
            Kind::Parameters => Some(2_000),
            Kind::Locals => Some(1_000_000),
            Kind::Nesting => Some(2_500),
            Kind::Tables | Kind::Memories | Kind::Tags | Kind::Results | Kind::Payload => None,
        }
    }

    fn check(alloc: Global, id: u8, payload: &[u8]) -> Result<Option<Sizes>, AllocError> {
        check(alloc, id, payload)
    }

    fn measure_body(alloc: Global, text: &[u8]) -> Result<BodySizes, FormError> {
        measure_body(alloc, text)
    }

    fn agree(sizes: &FileSizes) -> bool {
        sizes.of(3).count == sizes.bodies.count
    }

    fn numbers(sizes: &FileSizes) -> Numbers {
        let types = sizes.of(1);
        let imports = sizes.of(2);
        let globals = sizes.of(6);
        let elements = sizes.of(9);
        let segments = sizes.of(11);
        let in_segments = segments.greatest.max(sizes.bodies.nesting);
        let nesting = globals.greatest.max(elements.greatest.max(in_segments));
        Numbers {
            types: u64::from(types.count),
            imports: u64::from(imports.count),
            functions: imports.total + u64::from(sizes.of(3).count),
            tables: 0,
            memories: 0,
            tags: 0,
            globals: u64::from(globals.count),
            exports: u64::from(sizes.of(7).count),
            elements: u64::from(elements.count),
            segments: u64::from(segments.count),
            parameters: u64::from(types.greatest),
            results: 0,
            locals: sizes.bodies.locals,
            payload: 0,
            nesting: u64::from(nesting),
        }
    }

    fn declare(alloc: Global, file: &File<'_>) -> Result<Declared1, AllocError> {
        let types = file.entries::<TypeEntry>(alloc, 1)?;
        let imports = file.entries::<ImportEntry>(alloc, 2)?;
        let funcs = file.entries::<IndexEntry>(alloc, 3)?;
        let tables = file.entries::<TableEntry>(alloc, 4)?;
        let memories = file.entries::<MemoryEntry>(alloc, 5)?;
        Ok(Declared1 {
            types,
            imports,
            funcs,
            tables,
            memories,
        })
    }

    fn payload_words(_declared: &Declared1) -> u64 {
        0
    }

    fn build(alloc: Global, file: &File<'_>, declared: Declared1) -> Result<Module1, AllocError> {
        let defined = define(alloc, file)?;
        Ok(Module1 {
            types: declared.types,
            imports: declared.imports,
            funcs: declared.funcs,
            tables: declared.tables,
            memories: declared.memories,
            globals: defined.globals,
            exports: defined.exports,
            start: file.number(8),
            elems: defined.elems,
            codes: defined.codes,
            datas: defined.datas,
        })
    }

    fn laws() {}
}

/// The values and the code of a module, and what it exports.
#[derive(Drop)]
struct Defined1 {
    globals: Items<Global1>,
    exports: Items<Export1>,
    elems: Items<Element1>,
    codes: Items<Body1>,
    datas: Items<Segment1>,
}

/// What is built after all limits were tested.
fn define(alloc: Global, file: &File<'_>) -> Result<Defined1, AllocError>
    ensures globals { IfOk result (λ d. d.globals ≡ (made (payloads file.now)).globals) }
    ensures exports { IfOk result (λ d. d.exports ≡ (made (payloads file.now)).exports) }
    ensures elems { IfOk result (λ d. d.elems ≡ (made (payloads file.now)).elems) }
    ensures codes { IfOk result (λ d. d.codes ≡ (made (payloads file.now)).codes) }
    ensures datas { IfOk result (λ d. d.datas ≡ (made (payloads file.now)).datas) }
{
    let globals = file.entries::<GlobalEntry>(alloc, 6)?;
    let exports = file.entries::<ExportEntry>(alloc, 7)?;
    let elems = file.entries::<ElementEntry>(alloc, 9)?;
    let codes = file.entries::<BodyEntry>(alloc, 10)?;
    let datas = file.entries::<SegmentEntry>(alloc, 11)?;
    Ok(Defined1 {
        globals,
        exports,
        elems,
        codes,
        datas,
    })
}
