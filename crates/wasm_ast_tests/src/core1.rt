// Modules of 1.0 as data: copies of nested code, and where floats occur.

use core1_ast::floats::has_floats;
use core1_ast::module::{
    BlockType1, Body1, Code1, Element1, FloatImmediates1, FuncType1, Global1, Import1, ImportDesc1,
    Instr1, Module1, Segment1, Ty1,
};
use num_core::lists::{Bytes, Text, TryCopy};
use sqlite_items::Items;
use std::alloc::{AllocError, Global};
use std::test::Fail;

/// So many blocks in one another, around a nop.
fn blocks(alloc: Global, depth: u32) -> Result<Instr1, AllocError> {
    let mut instr = Instr1::Nop;
    for _ in 0..depth {
        let mut code = Items::new(alloc);
        code.push(instr)?;
        instr = Instr1::Block(BlockType1::Empty, code);
    }
    Ok(instr)
}

/// How many blocks stand in one another.
fn depth_of(instr: &Instr1) -> u32 {
    let mut depth = 0;
    if let Instr1::Block(_, code) = instr {
        for inner in code.as_slice() {
            depth = depth_of(inner).saturating_add(1);
        }
    }
    depth
}

#[test]
fn copies_of_nested_code(rt: HostRuntime) -> Result<(), Fail> {
    let alloc = rt.alloc();
    for depth in [0, 1, 2500] {
        assert_eq!(rt; depth_of(&blocks(alloc, depth)?.copy(alloc)?), depth);
    }
    Ok(())
}

/// Where a module has its only float.
#[derive(Clone, Copy)]
enum Place {
    Nowhere,
    Parameter,
    Result,
    Import,
    Global,
    InitialValue,
    OffsetOfElements,
    OffsetOfData,
    Local,
    Code,
    ResultOfBlock,
    SecondArm,
}

/// A module with nothing in it.
fn nothing(alloc: Global) -> Module1 {
    Module1 {
        types: Items::new(alloc),
        imports: Items::new(alloc),
        funcs: Items::new(alloc),
        tables: Items::new(alloc),
        memories: Items::new(alloc),
        globals: Items::new(alloc),
        exports: Items::new(alloc),
        start: None,
        elems: Items::new(alloc),
        codes: Items::new(alloc),
        datas: Items::new(alloc),
    }
}

fn one<T: Drop>(alloc: Global, item: T) -> Result<Items<T>, AllocError> {
    let mut items = Items::new(alloc);
    items.push(item)?;
    Ok(items)
}

/// The code of one instruction: f32.abs, or a nop.
fn leaf(alloc: Global, is_float: bool) -> Result<Code1, AllocError> {
    one(
        alloc,
        if is_float {
            Instr1::Float(0x8B, FloatImmediates1::None)
        } else {
            Instr1::Nop
        },
    )
}

/// The code of a block with this result, around an if with these arms.
fn nested(
    alloc: Global,
    outcome: BlockType1,
    first: Code1,
    second: Code1,
) -> Result<Code1, AllocError> {
    let arms = one(alloc, Instr1::If(BlockType1::Empty, first, second))?;
    one(alloc, Instr1::Block(outcome, arms))
}

fn put_type(alloc: Global, m: &mut Module1, param: Ty1, gives: Ty1) -> Result<(), AllocError> {
    let params = one(alloc, param)?;
    let results = one(alloc, gives)?;
    Ok(m.types.push(FuncType1 { params, results })?)
}

fn put_import(alloc: Global, m: &mut Module1, ty: Ty1) -> Result<(), AllocError> {
    let module = Text::new(alloc, "m")?;
    let name = Text::new(alloc, "n")?;
    let desc = ImportDesc1::Global(ty, false);
    Ok(m.imports.push(Import1 { module, name, desc })?)
}

fn put_global(alloc: Global, m: &mut Module1, ty: Ty1, is_float: bool) -> Result<(), AllocError> {
    let init = leaf(alloc, is_float)?;
    let mutable = true;
    Ok(m.globals.push(Global1 { ty, mutable, init })?)
}

fn put_element(alloc: Global, m: &mut Module1, is_float: bool) -> Result<(), AllocError> {
    let offset = leaf(alloc, is_float)?;
    let items = one(alloc, 0)?;
    let table = 0;
    Ok(
        m.elems.push(Element1 {
            table,
            offset,
            items,
        })?,
    )
}

fn put_data(alloc: Global, m: &mut Module1, is_float: bool) -> Result<(), AllocError> {
    let offset = leaf(alloc, is_float)?;
    let bytes = Bytes::new(alloc);
    let memory = 0;
    Ok(
        m.datas.push(Segment1 {
            memory,
            offset,
            bytes,
        })?,
    )
}

fn put_body(alloc: Global, m: &mut Module1, place: Place) -> Result<(), AllocError> {
    let is_local = matches!(place, Place::Local);
    let locals = one(alloc, if is_local { Ty1::F64 } else { Ty1::I64 })?;
    let is_result = matches!(place, Place::ResultOfBlock);
    let result = BlockType1::One(if is_result { Ty1::F32 } else { Ty1::I32 });
    let first = leaf(alloc, matches!(place, Place::Code))?;
    let second = leaf(alloc, matches!(place, Place::SecondArm))?;
    let code = nested(alloc, result, first, second)?;
    Ok(m.codes.push(Body1 { locals, code })?)
}

/// The type at this place: a float where it is the place of the float.
fn ty_at(is_float: bool) -> Ty1 {
    if is_float { Ty1::F32 } else { Ty1::I32 }
}

/// Whether a module with one part of each kind and a float at this place has floats.
fn has_float_at(alloc: Global, place: Place) -> Result<bool, AllocError> {
    let mut m = nothing(alloc);
    let param = ty_at(matches!(place, Place::Parameter));
    let result = ty_at(matches!(place, Place::Result));
    put_type(alloc, &mut m, param, result)?;
    put_import(alloc, &mut m, ty_at(matches!(place, Place::Import)))?;
    let ty = ty_at(matches!(place, Place::Global));
    put_global(alloc, &mut m, ty, matches!(place, Place::InitialValue))?;
    put_element(alloc, &mut m, matches!(place, Place::OffsetOfElements))?;
    put_body(alloc, &mut m, place)?;
    put_data(alloc, &mut m, matches!(place, Place::OffsetOfData))?;
    Ok(has_floats(&m))
}

#[test]
fn one_float_anywhere(rt: HostRuntime) -> Result<(), Fail> {
    let alloc = rt.alloc();
    assert!(rt; !has_float_at(alloc, Place::Nowhere)?);
    let places = [
        Place::Parameter,
        Place::Result,
        Place::Import,
        Place::Global,
        Place::InitialValue,
        Place::OffsetOfElements,
        Place::OffsetOfData,
        Place::Local,
        Place::Code,
        Place::ResultOfBlock,
        Place::SecondArm,
    ];
    for place in places {
        assert!(rt; has_float_at(alloc, place)?);
    }
    Ok(())
}
