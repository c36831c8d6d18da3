// 3.0 as a version of the binary format.

ghost use Rattle.read_new.specs.Sizes.{means, declared_of};
ghost use Rattle.read_new.specs.Spells.{three};

use crate::building::build;
use crate::checking::check;
use crate::counts::agree;
use crate::parts::{TagEntry, TypeEntry, measure_body};
use crate::payload::greatest_payload;
use grammar_kit::FormError;
use module_reading::{BodySizes, File, FileSizes, Kind, ModuleFormat, Numbers, Sizes};
use sqlite_items::Items;
use std::alloc::{AllocError, Global};
use wasm_ast::module::{FuncType, Module};
use wasm_frame::sections::Version;

/// Modules of 3.0 ("Modules" of the standard).
pub struct Three;

/// What of a module is built before its last limits are tested.
#[derive(Drop)]
pub struct TypesAndTags {
    /// The function types.
    pub types: Items<FuncType>,
    /// The type index of each tag.
    pub tags: Items<u32>,
}

impl ModuleFormat for Three {
    type Module = Module;

    type Declared = TypesAndTags;

    ghost format = { three };

    ghost means = { means };

    ghost front = { declared_of };

    fn version() -> Version {
        Version::Three
    }

    fn limit(kind: Kind) -> Option<u64> {
        let most = match kind {
            Kind::Types
            | Kind::Imports
            | Kind::Functions
            | Kind::Globals
            | Kind::Exports
            | Kind::Elements
            | Kind::Segments => 100_000,
            Kind::Tables | Kind::Memories => 100,
            Kind::Tags | Kind::Parameters | Kind::Results => 1_000,
            Kind::Locals => 50_000,
            Kind::Payload => 64,
            Kind::Nesting => 800,
        };
        Some(most)
    }

    fn check(alloc: Global, id: u8, payload: &[u8]) -> Result<Option<Sizes>, AllocError> {
        check(alloc, id, payload)
    }

    fn measure_body(alloc: Global, text: &[u8]) -> Result<BodySizes, FormError> {
        measure_body(alloc, text)
    }

    fn agree(sizes: &FileSizes) -> bool {
        agree(
            sizes.of(3).count,
            sizes.bodies.count,
            sizes.number(12),
            sizes.of(11).count,
            sizes.bodies.names_data,
        )
    }

    fn numbers(sizes: &FileSizes) -> Numbers {
        let types = sizes.of(1);
        let imports = sizes.of(2);
        let functions = imports.total + u64::from(sizes.of(3).count);
        let tables = sizes.of(4);
        let globals = sizes.of(6);
        let elements = sizes.of(9);
        let segments = sizes.of(11);
        let constants = tables.greatest.max(globals.greatest);
        let offsets = elements.greatest.max(segments.greatest);
        let nesting = constants.max(offsets).max(sizes.bodies.nesting);
        Numbers {
            types: u64::from(types.count),
            imports: u64::from(imports.count),
            functions,
            tables: u64::from(tables.count),
            memories: u64::from(sizes.of(5).count),
            tags: u64::from(sizes.of(13).count),
            globals: u64::from(globals.count),
            exports: u64::from(sizes.of(7).count),
            elements: u64::from(elements.count),
            segments: u64::from(segments.count),
            parameters: u64::from(types.greatest),
            results: u64::from(types.second),
            locals: sizes.bodies.locals,
            payload: 0,
            nesting: u64::from(nesting),
        }
    }

    #[tactic(auto, unfolding(crate::specs::Made::made))]
    fn declare(alloc: Global, file: &File<'_>) -> Result<TypesAndTags, AllocError> {
        let types = file.entries::<TypeEntry>(alloc, 1)?;
        let tags = file.entries::<TagEntry>(alloc, 13)?;
        Ok(TypesAndTags { types, tags })
    }

    fn payload_words(declared: &TypesAndTags) -> u64 {
        greatest_payload(declared.types.as_slice(), declared.tags.as_slice())
    }

    fn build(alloc: Global, file: &File<'_>, declared: TypesAndTags) -> Result<Module, AllocError> {
        build(alloc, file, declared)
    }

    fn laws() {}
}
