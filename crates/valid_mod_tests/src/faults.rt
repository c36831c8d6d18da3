// One fault of each kind, in the order in which they are named.

use crate::build::{Place, Verdict, typed_module, verdict_on};
use crate::cases::{Case, put_case};
use crate::code::{Expr, Step};
use std::alloc::{AllocError, Global};
use std::test::Fail;
use wasm_ast::module::{ExportDesc, ImportDesc, Limits, Ty};

/// Limits whose greatest size is below the least.
const CROSSED: Limits = Limits {
    min: 2,
    max: Some(1),
    wide: false,
};

/// The faults in their order, and the verdict on the typed module with one of them. Tags come behind memories and before
/// globals.
fn all() -> &'static [(Case, Verdict)] {
    &[
        (Case::Param(Ty::F32), Verdict::Part(1, 3)),
        (Case::Import(ImportDesc::Func(99)), Verdict::Part(2, 3)),
        (Case::Func(99), Verdict::Part(3, 1)),
        (Case::Table(Ty::Func, CROSSED), Verdict::Part(4, 2)),
        (Case::Memory(CROSSED), Verdict::Part(5, 2)),
        (Case::Tag(99), Verdict::Part(13, 1)),
        (
            Case::Global(Ty::I32, Expr::One(Step::C64)),
            Verdict::Part(6, 1),
        ),
        (Case::Export(ExportDesc::Func(99)), Verdict::Part(7, 0)),
        (Case::Start(99), Verdict::Part(8, 0)),
        (
            Case::Element(Place::Passive, Ty::Func, Expr::One(Step::Func(99))),
            Verdict::Part(9, 0),
        ),
        (Case::Data(Place::Declarative), Verdict::Part(11, 0)),
        (Case::Body(Expr::One(Step::Drop)), Verdict::Body(1)),
    ]
}

/// The verdict on the typed module with these faults, put into it in this order.
fn verdict_of_both(alloc: Global, first: Case, second: Case) -> Result<Verdict, AllocError> {
    let mut m = typed_module(alloc)?;
    put_case(alloc, first, &mut m)?;
    put_case(alloc, second, &mut m)?;
    Ok(verdict_on(alloc, &m))
}

#[test]
fn the_first_of_two_faults_is_named(rt: HostRuntime) -> Result<(), Fail> {
    let alloc = rt.alloc();
    let faults = all();
    for (i, (first, wanted)) in faults.iter().enumerate() {
        for (second, _) in &faults[i.min(faults.len())..] {
            let found = verdict_of_both(alloc, *first, *second)?;
            assert_eq!(rt; found, *wanted, "at fault {i}");
        }
    }
    Ok(())
}
