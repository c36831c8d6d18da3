use super::cases::{Case, Met, Part, Place, Site, Source};
use crate::fixtures::{NARROW, WIDE};
use lane_core::operators::{Lane1, Lane2, LaneExtract, LaneShift, LaneTest};
use lane_core::vector::{Shape, V};
use num_core::operators::{Bin, Conv, Width};
use wasm_ast::features::Feature;
use wasm_ast::module::{ExportDesc, ImportDesc, Op, Ty};

/// All tables: parts, and which features a module with this part alone has.
pub fn all() -> [&'static [(Case, &'static [Feature])]; 8] {
    [
        operators(),
        sites(),
        values(),
        other_places(),
        imports(),
        exports(),
        parts(),
        meetings(),
    ]
}

/// Operators, and what they show in a body.
fn operators() -> &'static [(Case, &'static [Feature])] {
    &[
        (Case::Operator(Op::I32Const(1)), &[]),
        (Case::Operator(Op::Eqz(Width::W32)), &[]),
        (Case::Operator(Op::Binary(Width::W64, Bin::Add)), &[]),
        (Case::Operator(Op::Convert(Conv::Wrap)), &[]),
        (Case::Operator(Op::RefIsNull), &[]),
        (Case::Operator(Op::Convert(Conv::S8of32)), &[Feature::Sign]),
        (Case::Operator(Op::Convert(Conv::S16of32)), &[Feature::Sign]),
        (Case::Operator(Op::Convert(Conv::S8of64)), &[Feature::Sign]),
        (Case::Operator(Op::Convert(Conv::S16of64)), &[Feature::Sign]),
        (Case::Operator(Op::Convert(Conv::S32of64)), &[Feature::Sign]),
        (Case::Operator(Op::V128Const(V(0))), &[Feature::Simd]),
        (Case::Operator(Op::Shuffle([0; 16])), &[Feature::Simd]),
        (Case::Operator(Op::Splat(Shape::I8x16)), &[Feature::Simd]),
        (
            Case::Operator(Op::Extract(LaneExtract::I8x16S, 0)),
            &[Feature::Simd],
        ),
        (
            Case::Operator(Op::Replace(Shape::I16x8, 0)),
            &[Feature::Simd],
        ),
        (Case::Operator(Op::Bitselect), &[Feature::Simd]),
        (Case::Operator(Op::Lanes1(Lane1::V128Not)), &[Feature::Simd]),
        (
            Case::Operator(Op::Lanes2(Lane2::I8x16Add)),
            &[Feature::Simd],
        ),
        (
            Case::Operator(Op::ShiftLanes(LaneShift::I8x16Shl)),
            &[Feature::Simd],
        ),
        (
            Case::Operator(Op::TestLanes(LaneTest::V128AnyTrue)),
            &[Feature::Simd],
        ),
        (
            Case::Operator(Op::Lanes1(Lane1::I8x16Abs)),
            &[Feature::LateLanes],
        ),
        (
            Case::Operator(Op::Lanes1(Lane1::I64x2ExtendHighI32x4U)),
            &[Feature::LateLanes],
        ),
        (
            Case::Operator(Op::Lanes2(Lane2::I8x16NarrowI16x8S)),
            &[Feature::LateLanes],
        ),
        (
            Case::Operator(Op::Lanes2(Lane2::I16x8Q15mulrSatS)),
            &[Feature::LateLanes],
        ),
        (
            Case::Operator(Op::Lanes2(Lane2::I32x4MaxU)),
            &[Feature::LateLanes],
        ),
        (
            Case::Operator(Op::Lanes2(Lane2::I32x4DotI16x8S)),
            &[Feature::LateLanes],
        ),
        (Case::Operator(Op::RefFunc(0)), &[Feature::Refs]),
    ]
}

/// Sites of code with one operator, and what the module has.
fn sites() -> &'static [(Case, &'static [Feature])] {
    const SIGN: Op = Op::Convert(Conv::S8of32);
    &[
        (Case::Code(Site::Body, SIGN), &[Feature::Sign]),
        (Case::Code(Site::Block, SIGN), &[Feature::Sign]),
        (Case::Code(Site::Loop, SIGN), &[Feature::Sign]),
        (Case::Code(Site::First, SIGN), &[Feature::Sign]),
        (Case::Code(Site::Second, SIGN), &[Feature::Sign]),
        (
            Case::Code(Site::TryTable, SIGN),
            &[Feature::Sign, Feature::Exceptions],
        ),
        (
            Case::Code(Site::Table, SIGN),
            &[Feature::TableInitialiser, Feature::Sign, Feature::Tables],
        ),
        (
            Case::Code(Site::Global, SIGN),
            &[Feature::Sign, Feature::Constants],
        ),
        (
            Case::Code(Site::Data, SIGN),
            &[Feature::Sign, Feature::Constants],
        ),
        (
            Case::Code(Site::Offset, SIGN),
            &[Feature::Sign, Feature::Constants],
        ),
        (Case::Code(Site::Entry, SIGN), &[Feature::Sign]),
        (Case::Code(Site::Global, Op::I32Const(0)), &[]),
        (Case::Code(Site::Data, Op::I64Const(0)), &[]),
        (Case::Code(Site::Offset, Op::I32Const(0)), &[]),
        (
            Case::Code(Site::Global, Op::V128Const(V(0))),
            &[Feature::Simd],
        ),
        (
            Case::Code(Site::Table, Op::RefNull(Ty::Func)),
            &[Feature::Refs, Feature::Tables],
        ),
        (
            Case::Code(Site::Table, Op::RefFunc(0)),
            &[Feature::Refs, Feature::Tables],
        ),
        (Case::Code(Site::Global, Op::RefFunc(0)), &[Feature::Refs]),
        (Case::Code(Site::Entry, Op::RefFunc(0)), &[]),
        (Case::Code(Site::Entry, Op::RefNull(Ty::Func)), &[]),
        (
            Case::Code(Site::Entry, Op::RefNull(Ty::Exn)),
            &[Feature::Exceptions],
        ),
    ]
}

/// Sites of values with other code than one constant, and what the module has.
fn values() -> &'static [(Case, &'static [Feature])] {
    &[
        (
            Case::Value(Site::Global, Source::Nothing),
            &[Feature::Constants],
        ),
        (
            Case::Value(Site::Data, Source::Nothing),
            &[Feature::Constants],
        ),
        (
            Case::Value(Site::Offset, Source::Nothing),
            &[Feature::Constants],
        ),
        (
            Case::Value(Site::Global, Source::NoGlobal),
            &[Feature::Constants],
        ),
        (
            Case::Value(Site::Data, Source::NoGlobal),
            &[Feature::Constants],
        ),
        (
            Case::Value(Site::Offset, Source::NoGlobal),
            &[Feature::Constants],
        ),
        (Case::Value(Site::Global, Source::ImportedGlobal), &[]),
        (Case::Value(Site::Data, Source::ImportedGlobal), &[]),
        (Case::Value(Site::Offset, Source::ImportedGlobal), &[]),
    ]
}

/// Places that show nothing by themselves.
pub fn quiet_places() -> &'static [Place] {
    &[
        Place::Parameter,
        Place::Result,
        Place::Local,
        Place::Global,
        Place::Block,
        Place::Loop,
        Place::If,
        Place::Null,
    ]
}

/// Types, and what a value of the type shows.
pub fn value_types() -> &'static [(Ty, &'static [Feature])] {
    &[
        (Ty::I32, &[]),
        (Ty::I64, &[]),
        (Ty::F32, &[Feature::Floats]),
        (Ty::F64, &[Feature::Floats]),
        (Ty::V128, &[Feature::Simd]),
        (Ty::Func, &[Feature::Refs]),
        (Ty::Extern, &[Feature::Refs]),
        (Ty::Exn, &[Feature::Exceptions]),
    ]
}

/// Places that show something by themselves, or of which a type shows something else.
fn other_places() -> &'static [(Case, &'static [Feature])] {
    &[
        (Case::Indexed(Place::Block), &[Feature::Multi]),
        (Case::Indexed(Place::Loop), &[Feature::Multi]),
        (Case::Indexed(Place::If), &[Feature::Multi]),
        (
            Case::Indexed(Place::TryTable),
            &[Feature::Multi, Feature::Exceptions],
        ),
        (Case::Type(Place::ImportedGlobal, Ty::I32), &[]),
        (
            Case::Type(Place::ImportedGlobal, Ty::F32),
            &[Feature::Floats],
        ),
        (
            Case::Type(Place::ImportedGlobal, Ty::V128),
            &[Feature::WideGlobal, Feature::Simd],
        ),
        (
            Case::Type(Place::ImportedGlobal, Ty::Extern),
            &[Feature::WideGlobal, Feature::Refs],
        ),
        (
            Case::Type(Place::ImportedGlobal, Ty::Exn),
            &[Feature::WideGlobal, Feature::Exceptions],
        ),
        (
            Case::Type(Place::ImportedTable, Ty::Func),
            &[Feature::ImportedTable],
        ),
        (
            Case::Type(Place::ImportedTable, Ty::Extern),
            &[Feature::ImportedTable, Feature::Tables],
        ),
        (
            Case::Type(Place::ImportedTable, Ty::Exn),
            &[
                Feature::ImportedTable,
                Feature::ExnrefTable,
                Feature::Tables,
                Feature::Exceptions,
            ],
        ),
        (Case::Type(Place::Table, Ty::Func), &[]),
        (Case::Type(Place::Table, Ty::Extern), &[Feature::Tables]),
        (
            Case::Type(Place::Table, Ty::Exn),
            &[Feature::ExnrefTable, Feature::Tables, Feature::Exceptions],
        ),
        (Case::Type(Place::Element, Ty::Func), &[]),
        (
            Case::Type(Place::Element, Ty::Exn),
            &[Feature::ExnrefTable, Feature::Exceptions],
        ),
        (Case::Type(Place::TryTable, Ty::I32), &[Feature::Exceptions]),
        (
            Case::Type(Place::TryTable, Ty::F64),
            &[Feature::Floats, Feature::Exceptions],
        ),
        (Case::Type(Place::Select, Ty::I32), &[Feature::TypedSelect]),
        (
            Case::Type(Place::Select, Ty::V128),
            &[Feature::TypedSelect, Feature::Simd],
        ),
        (
            Case::Type(Place::Select, Ty::Func),
            &[Feature::TypedSelect, Feature::Refs],
        ),
    ]
}

/// Imports, and what they show in a module without types.
fn imports() -> &'static [(Case, &'static [Feature])] {
    &[
        (Case::Import(ImportDesc::Func(0)), &[]),
        (
            Case::Import(ImportDesc::Table(Ty::Func, NARROW)),
            &[Feature::ImportedTable],
        ),
        (
            Case::Import(ImportDesc::Table(Ty::Func, WIDE)),
            &[Feature::WideTable, Feature::ImportedTable],
        ),
        (
            Case::Import(ImportDesc::Memory(NARROW)),
            &[Feature::ImportedMemory],
        ),
        (
            Case::Import(ImportDesc::Memory(WIDE)),
            &[Feature::ImportedMemory, Feature::WideMemory],
        ),
        (Case::Import(ImportDesc::Global(Ty::I32, false)), &[]),
        (
            Case::Import(ImportDesc::Global(Ty::I32, true)),
            &[Feature::ImportedMutableGlobal],
        ),
        (
            Case::Import(ImportDesc::Tag(0)),
            &[Feature::ImportedTag, Feature::Exceptions],
        ),
    ]
}

/// Exports beside a global of a type, and what the module has.
fn exports() -> &'static [(Case, &'static [Feature])] {
    &[
        (Case::Export(ExportDesc::Func(0), Ty::I32), &[]),
        (Case::Export(ExportDesc::Memory(0), Ty::I32), &[]),
        (Case::Export(ExportDesc::Tag(0), Ty::I32), &[]),
        (Case::Export(ExportDesc::Table(0), Ty::I32), &[]),
        (Case::Export(ExportDesc::Global(0), Ty::I32), &[]),
        (
            Case::Export(ExportDesc::Global(0), Ty::V128),
            &[Feature::WideGlobal, Feature::Simd],
        ),
        (
            Case::Export(ExportDesc::Global(1), Ty::V128),
            &[Feature::Simd],
        ),
        (
            Case::Export(ExportDesc::Global(0), Ty::Func),
            &[Feature::WideGlobal, Feature::Refs],
        ),
    ]
}

/// Parts, and what they show.
fn parts() -> &'static [(Case, &'static [Feature])] {
    &[
        (Case::Part(Part::Table(false)), &[]),
        (Case::Part(Part::Table(true)), &[Feature::WideTable]),
        (Case::Part(Part::ExportedTable(1)), &[]),
        (
            Case::Part(Part::ExportedTable(0)),
            &[Feature::ExportedTable, Feature::Tables],
        ),
        (
            Case::Part(Part::ExportedImport(0)),
            &[
                Feature::ImportedTable,
                Feature::ExportedTable,
                Feature::Tables,
            ],
        ),
        (
            Case::Part(Part::ExportedImport(1)),
            &[Feature::ImportedTable],
        ),
        (Case::Part(Part::Memory(false)), &[]),
        (Case::Part(Part::Memory(true)), &[Feature::WideMemory]),
        (Case::Part(Part::TwoMemories), &[Feature::Memories]),
        (
            Case::Part(Part::SecondMemory),
            &[Feature::ImportedMemory, Feature::Memories],
        ),
        (Case::Part(Part::Results(false)), &[]),
        (Case::Part(Part::Results(true)), &[Feature::Multi]),
        (Case::Part(Part::Tag), &[Feature::Exceptions]),
        (Case::Part(Part::Data(false)), &[]),
        (Case::Part(Part::Data(true)), &[Feature::Bulk]),
    ]
}

/// What a host meets, and what the module has.
fn meetings() -> &'static [(Case, &'static [Feature])] {
    &[
        (Case::Exnref(Met::Nothing), &[Feature::Exceptions]),
        (
            Case::Exnref(Met::Import(ImportDesc::Func(1))),
            &[Feature::Exceptions],
        ),
        (
            Case::Exnref(Met::Import(ImportDesc::Func(0))),
            &[Feature::HostExnref, Feature::Exceptions],
        ),
        (
            Case::Exnref(Met::Import(ImportDesc::Tag(0))),
            &[
                Feature::ImportedTag,
                Feature::HostExnref,
                Feature::Exceptions,
            ],
        ),
        (
            Case::Exnref(Met::OwnTag),
            &[Feature::HostExnref, Feature::Exceptions],
        ),
        (
            Case::Exnref(Met::Export),
            &[Feature::HostExnref, Feature::Exceptions],
        ),
    ]
}
