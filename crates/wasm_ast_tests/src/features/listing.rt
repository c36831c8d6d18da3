use std::alloc::{AllocError, Global};
use wasm_ast::features::{Feature, has};
use wasm_ast::module::Module;

/// All features, in the order of their declaration.
fn all() -> &'static [Feature] {
    &[
        Feature::Floats,
        Feature::WideTable,
        Feature::TableInitialiser,
        Feature::ImportedTable,
        Feature::ImportedTag,
        Feature::ImportedMutableGlobal,
        Feature::ImportedMemory,
        Feature::ExportedTable,
        Feature::WideGlobal,
        Feature::ExnrefTable,
        Feature::HostExnref,
        Feature::Sign,
        Feature::Constants,
        Feature::Multi,
        Feature::TypedSelect,
        Feature::Simd,
        Feature::LateLanes,
        Feature::Tail,
        Feature::Refs,
        Feature::Tables,
        Feature::Exceptions,
        Feature::Bulk,
        Feature::WideMemory,
        Feature::Memories,
    ]
}

/// The features that the module has, in the order of their declaration.
pub fn features_of(alloc: Global, m: &Module) -> Result<Vec<Feature>, AllocError> {
    let mut found = Vec::new(alloc);
    for feature in all() {
        if has(alloc, m, *feature)? {
            found.push(*feature)?;
        }
    }
    Ok(found)
}
