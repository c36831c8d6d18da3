/// Something that a module may use and that not every stage of lowering takes: first what lies outside the profile,
/// then what a pass removes.
#[derive(Clone, Copy, Debug, PartialEq, Eq)]
pub enum Feature {
    /// A type f32 or f64, or an instruction on floats.
    Floats,
    /// A table with 64-bit addresses.
    WideTable,
    /// A table whose own expression is not one ref.null or one ref.func.
    TableInitialiser,
    /// An imported table.
    ImportedTable,
    /// An imported tag.
    ImportedTag,
    /// An imported mutable global.
    ImportedMutableGlobal,
    /// An imported memory.
    ImportedMemory,
    /// An exported table.
    ExportedTable,
    /// An imported or exported global that is v128 or a reference.
    WideGlobal,
    /// A table or an element segment of the type exnref.
    ExnrefTable,
    /// exnref in the type of an imported or exported function or of a tag.
    HostExnref,
    /// A sign extension of the lowest bits of an integer.
    Sign,
    /// The initial value of a global or the offset of an active segment that is not one constant and not one
    /// imported global.
    Constants,
    /// A function type with two results or more, or a block type by index.
    Multi,
    /// A select with types.
    TypedSelect,
    /// The type v128, or a vector instruction that is not one of `LateLanes`.
    Simd,
    /// A vector instruction that is built late.
    LateLanes,
    /// A tail call.
    Tail,
    /// funcref or externref as a value type, a null of these or ref.func, outside element segments.
    Refs,
    /// A table that is not kept, or an instruction on tables.
    Tables,
    /// A tag, an instruction on exceptions, exnref or its null.
    Exceptions,
    /// A passive data segment, or a bulk instruction on memories.
    Bulk,
    /// A memory with 64-bit addresses.
    WideMemory,
    /// Two memories or more.
    Memories,
}
