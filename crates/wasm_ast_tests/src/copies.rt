// Copies of code, and of a module with every part.

use crate::fixtures::{
    WIDE, nothing, one, put_body, put_data, put_element, put_export, put_global, put_import,
    put_table, put_type, types_of,
};
use num_core::lists::TryCopy;
use sqlite_items::Items;
use std::alloc::{AllocError, Global};
use std::test::Fail;
use wasm_ast::lists::Types;
use wasm_ast::module::{
    BlockType, Catch, Code, Element, ExportDesc, ImportDesc, Instr, Mode, Module, Op, Table, Ty,
};

/// So many blocks in one another, around a nop.
fn blocks(alloc: Global, depth: u32) -> Result<Instr, AllocError> {
    let mut instr = Instr::Nop;
    for _ in 0..depth {
        let mut code = Items::new(alloc);
        code.push(instr)?;
        instr = Instr::Block(BlockType::Empty, code);
    }
    Ok(instr)
}

/// How many blocks stand in one another.
fn depth_of(instr: &Instr) -> u32 {
    let mut depth = 0;
    if let Instr::Block(_, code) = instr {
        for inner in code.as_slice() {
            depth = depth_of(inner).saturating_add(1);
        }
    }
    depth
}

#[test]
fn copies_of_nested_bodies(rt: HostRuntime) -> Result<(), Fail> {
    let alloc = rt.alloc();
    for depth in [0, 1, 800] {
        assert_eq!(rt; depth_of(&blocks(alloc, depth)?.copy(alloc)?), depth);
    }
    Ok(())
}

/// The code of one constant.
fn constant(alloc: Global, n: u32) -> Result<Code, AllocError> {
    one(alloc, Instr::Pure(Op::I32Const(n)))
}

/// Puts one of each part into the module.
fn put_whole(alloc: Global, m: &mut Module) -> Result<(), AllocError> {
    put_type(alloc, [Ty::I64].as_slice(), [Ty::I32].as_slice(), m)?;
    put_import(alloc, ImportDesc::Func(1), m)?;
    m.funcs.push(2)?;
    put_table(Ty::Func, WIDE, Some(constant(alloc, 3)?), m)?;
    m.memories.push(WIDE)?;
    m.tags.push(4)?;
    put_global(Ty::F32, constant(alloc, 5)?, m)?;
    put_export(alloc, ExportDesc::Tag(6), m)?;
    m.start = Some(7);
    m.data_count = Some(10);
    put_code(alloc, m)
}

/// Puts a segment of each kind and a body into the module.
fn put_code(alloc: Global, m: &mut Module) -> Result<(), AllocError> {
    let offset = constant(alloc, 8)?;
    let entry = constant(alloc, 9)?;
    put_element(Mode::Active(0, offset), Ty::Exn, one(alloc, entry)?, m)?;
    put_body(Types::new(alloc), nested(alloc)?, m)?;
    put_data(alloc, Mode::Passive, m)
}

/// A copy of a module with one of each part.
fn copy_of_whole(alloc: Global) -> Result<Module, AllocError> {
    let mut m = nothing(alloc);
    put_whole(alloc, &mut m)?;
    m.copy(alloc)
}

/// Code with each instruction that holds a list.
fn nested(alloc: Global) -> Result<Code, AllocError> {
    let mut code = Items::new(alloc);
    push_nested(alloc, &mut code)?;
    Ok(code)
}

/// Appends each instruction that holds a list.
fn push_nested(alloc: Global, code: &mut Code) -> Result<(), AllocError> {
    let empty = BlockType::Empty;
    code.push(Instr::SelectTyped(types_of(alloc, [Ty::V128].as_slice())?))?;
    code.push(Instr::BrTable(one(alloc, 1)?, 2))?;
    code.push(Instr::Loop(empty, constant(alloc, 11)?))?;
    let first = constant(alloc, 12)?;
    code.push(Instr::If(empty, first, constant(alloc, 13)?))?;
    let clauses = one(alloc, Catch::All(0))?;
    code.push(Instr::TryTable(empty, clauses, constant(alloc, 14)?))
}

/// The constants of the code and of the code inside, in order, behind those that there are.
fn push_constants(code: &[Instr], found: &mut Vec<u32>) -> Result<(), AllocError> {
    for instr in code {
        match instr {
            Instr::Pure(Op::I32Const(n)) => found.push(*n)?,
            Instr::Loop(_, code) | Instr::TryTable(_, _, code) => {
                push_constants(code.as_slice(), found)?;
            }
            Instr::If(_, first, second) => {
                push_constants(first.as_slice(), found)?;
                push_constants(second.as_slice(), found)?;
            }
            _ => {}
        }
    }
    Ok(())
}

/// The constants of the first table, global, element segment and body.
fn push_first(m: &Module, found: &mut Vec<u32>) -> Result<(), AllocError> {
    if let Some(
        Table {
            init: Some(code),
            ..
        },
    ) = m.tables.get(0)
    {
        push_constants(code.as_slice(), found)?;
    }
    if let Some(global) = m.globals.get(0) {
        push_constants(global.init.as_slice(), found)?;
    }
    if let Some(element) = m.elems.get(0) {
        push_segment(element, found)?;
    }
    if let Some(body) = m.codes.get(0) {
        push_constants(body.code.as_slice(), found)?;
    }
    Ok(())
}

/// The constants of the segment's offset and first entry.
fn push_segment(element: &Element, found: &mut Vec<u32>) -> Result<(), AllocError> {
    if let Mode::Active(_, offset) = &element.mode {
        push_constants(offset.as_slice(), found)?;
    }
    match element.items.get(0) {
        Some(entry) => push_constants(entry.as_slice(), found),
        None => Ok(()),
    }
}

#[test]
fn copies_of_the_code_of_a_module(rt: HostRuntime) -> Result<(), Fail> {
    let alloc = rt.alloc();
    let mut found = Vec::new(alloc);
    push_first(&copy_of_whole(alloc)?, &mut found)?;
    assert_eq!(rt; found.as_slice(), [3, 5, 8, 9, 11, 12, 13, 14].as_slice());
    Ok(())
}

#[test]
fn copies_of_the_other_parts_of_a_module(rt: HostRuntime) -> Result<(), Fail> {
    let alloc = rt.alloc();
    let copy = copy_of_whole(alloc)?;
    assert_eq!(rt;
        copy.types.get(0).map(|ty| ty.params.as_slice()),
        Some([Ty::I64].as_slice())
    );
    assert_eq!(rt;
        copy.imports.get(0).map(|import| import.desc),
        Some(ImportDesc::Func(1))
    );
    assert_eq!(rt;
        copy.exports.get(0).map(|export| export.desc),
        Some(ExportDesc::Tag(6))
    );
    assert_eq!(rt; copy.funcs.as_slice(), [2].as_slice());
    assert_eq!(rt; copy.memories.as_slice(), [WIDE].as_slice());
    assert_eq!(rt; copy.tags.as_slice(), [4].as_slice());
    assert_eq!(rt; (copy.start, copy.data_count), (Some(7), Some(10)));
    assert_eq!(rt; copy.datas.len(), 1);
    Ok(())
}
