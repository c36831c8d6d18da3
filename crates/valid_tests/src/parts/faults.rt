// One fault of each kind, in the order in which they are named.

use crate::build::{
    Verdict, put_data, put_element, put_export, put_func, put_global, put_import, put_type,
};
use crate::rules::{C32, C64};
use crate::steps::Step;
use core1_ast::module::{ExportDesc1, ImportDesc1, Limits1, Module1, Ty1};
use std::alloc::{AllocError, Global};

/// A part that is not typed, or a body.
#[derive(Clone, Copy)]
pub enum Fault {
    Type,
    Import,
    Func,
    Table,
    Memory,
    Global,
    Export,
    Start,
    Element,
    Data,
    Body,
}

/// The faults in their order, and the verdict on the typed module with one of them.
pub fn all() -> &'static [(Fault, Verdict)] {
    &[
        (Fault::Type, Verdict::Part(1, 3)),
        (Fault::Import, Verdict::Part(2, 3)),
        (Fault::Func, Verdict::Part(3, 1)),
        (Fault::Table, Verdict::Part(4, 0)),
        (Fault::Memory, Verdict::Part(5, 0)),
        (Fault::Global, Verdict::Part(6, 1)),
        (Fault::Export, Verdict::Part(7, 0)),
        (Fault::Start, Verdict::Part(8, 0)),
        (Fault::Element, Verdict::Part(9, 0)),
        (Fault::Data, Verdict::Part(11, 0)),
        (Fault::Body, Verdict::Body(1)),
    ]
}

/// Limits whose greatest size is below the least.
const CROSSED: Limits1 = Limits1 {
    min: 2,
    max: Some(1),
};

/// Puts the fault into a module.
pub fn put_fault(alloc: Global, fault: Fault, m: &mut Module1) -> Result<(), AllocError> {
    match fault {
        Fault::Type => put_type(alloc, &[Ty1::F32], &[], m),
        Fault::Import => put_import(alloc, ImportDesc1::Func(99), m),
        Fault::Func => put_func(alloc, 99, &[], &[], m),
        Fault::Table => m.tables.push(CROSSED),
        Fault::Memory => m.memories.push(CROSSED),
        Fault::Global => put_global(alloc, Ty1::I32, false, &[C64], m),
        Fault::Export => put_export(alloc, "a", ExportDesc1::Func(99), m),
        Fault::Start => {
            m.start = Some(99);
            Ok(())
        }
        Fault::Element => put_element(alloc, &[C32], &[99], m),
        Fault::Data => put_data(alloc, &[C64], m),
        Fault::Body => put_func(alloc, 0, &[], &[Step::Drop], m),
    }
}
