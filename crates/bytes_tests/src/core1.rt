// `core1_bytes`: a module with each part both ways, the first fault of a file, and the instructions of 1.0 and of no later
// version.

ghost use Rattle.std.specs.Prelude.{◌≡◌, [], ◌∷◌, IfOk};
ghost use Rattle.core1_ast.specs.Typing.{Typed1};
ghost use Rattle.core1_ast.specs.Example.{inner, outer, at_zero, with_code};

use crate::rows::{LOADS, OPERATORS, STORES};
use core1_ast::laws::examples;
use core1_ast::module::{
    BlockType1, Body1, Code1, Conv1, Element1, Export1, ExportDesc1, FloatImmediates1, FuncType1,
    Global1, Import1, ImportDesc1, Instr1, Limits1, MemArg1, Module1, Op1, Segment1, Ty1,
};
use core1_bytes::{Kind, ReadFault, read1, write1};
use num_core::lists::{Bytes, Text};
use num_core::operators::{Conv, Load, Store};
use opcode_table::{IntOp, is_float_operator};
use sqlite_items::Items;
use std::alloc::{AllocError, Global};
use std::test::Fail;
use wasm_frame::leb128::put_u32;

fn one<T: Drop>(alloc: Global, item: T) -> Result<Items<T>, AllocError>
    ensures { IfOk result (λ items. items ≡ item ∷ []) }
{
    let mut items = Items::new(alloc);
    items.push(item)?;
    Ok(items)
}

fn inner_code(alloc: Global) -> Result<Code1, AllocError>
    ensures { IfOk result (λ code. code ≡ inner) }
{
    let mut code = Items::new(alloc);
    code.push(Instr1::LocalGet(0))?;
    code.push(Instr1::LocalGet(0))?;
    code.push(Instr1::BrIf(0))?;
    code.push(Instr1::Call(0))?;
    Ok(code)
}

fn outer_code(alloc: Global) -> Result<Code1, AllocError>
    ensures { IfOk result (λ code. code ≡ outer) }
{
    let block = Instr1::Block(BlockType1::One(Ty1::I32), inner_code(alloc)?);
    let mut code = one(alloc, block)?;
    let at = MemArg1 {
        align: 2,
        offset: 0,
    };
    code.push(Instr1::Load(Load::I32, at))?;
    Ok(code)
}

fn zero(alloc: Global) -> Result<Code1, AllocError>
    ensures { IfOk result (λ code. code ≡ at_zero) }
{
    one(alloc, Instr1::Pure(Op1::I32Const(0)))
}

fn types(alloc: Global) -> Result<Items<FuncType1>, AllocError>
    ensures { IfOk result (λ xs. xs ≡ (with_code outer).types) }
{
    let params = one(alloc, Ty1::I32)?;
    let results = one(alloc, Ty1::I32)?;
    one(alloc, FuncType1 { params, results })
}

fn imports(alloc: Global) -> Result<Items<Import1>, AllocError>
    ensures { IfOk result (λ xs. xs ≡ (with_code outer).imports) }
{
    let module = Text::new(alloc, "h")?;
    let name = Text::new(alloc, "g")?;
    let desc = ImportDesc1::Global(Ty1::I32, false);
    one(alloc, Import1 { module, name, desc })
}

fn globals(alloc: Global) -> Result<Items<Global1>, AllocError>
    ensures { IfOk result (λ xs. xs ≡ (with_code outer).globals) }
{
    let init = one(alloc, Instr1::GlobalGet(0))?;
    let global = Global1 {
        ty: Ty1::I32,
        mutable: true,
        init,
    };
    one(alloc, global)
}

fn exports(alloc: Global) -> Result<Items<Export1>, AllocError>
    ensures { IfOk result (λ xs. xs ≡ (with_code outer).exports) }
{
    let name = Text::new(alloc, "f")?;
    let desc = ExportDesc1::Func(0);
    one(alloc, Export1 { name, desc })
}

fn elements(alloc: Global) -> Result<Items<Element1>, AllocError>
    ensures { IfOk result (λ xs. xs ≡ (with_code outer).elems) }
{
    let offset = zero(alloc)?;
    let items = one(alloc, 0)?;
    let element = Element1 {
        table: 0,
        offset,
        items,
    };
    one(alloc, element)
}

fn segments(alloc: Global) -> Result<Items<Segment1>, AllocError>
    ensures { IfOk result (λ xs. xs ≡ (with_code outer).datas) }
{
    let offset = zero(alloc)?;
    let bytes = Bytes::from_slice(alloc, &[7])?;
    let segment = Segment1 {
        memory: 0,
        offset,
        bytes,
    };
    one(alloc, segment)
}

fn bodies(alloc: Global) -> Result<Items<Body1>, AllocError>
    ensures { IfOk result (λ xs. xs ≡ (with_code outer).codes) }
{
    let locals = one(alloc, Ty1::I64)?;
    let code = outer_code(alloc)?;
    one(alloc, Body1 { locals, code })
}

/// The first half of a module with a part of nearly each kind.
#[derive(Drop)]
struct Front {
    types: Items<FuncType1>,
    imports: Items<Import1>,
    funcs: Items<u32>,
    tables: Items<Limits1>,
    memories: Items<Limits1>,
}

fn front_parts(alloc: Global) -> Result<Front, AllocError>
    ensures types { IfOk result (λ f. f.types ≡ (with_code outer).types) }
    ensures imports { IfOk result (λ f. f.imports ≡ (with_code outer).imports) }
    ensures funcs { IfOk result (λ f. f.funcs ≡ (with_code outer).funcs) }
    ensures tables { IfOk result (λ f. f.tables ≡ (with_code outer).tables) }
    ensures memories { IfOk result (λ f. f.memories ≡ (with_code outer).memories) }
{
    let table = Limits1 {
        min: 1,
        max: Some(1),
    };
    let memory = Limits1 { min: 1, max: None };
    let types = types(alloc)?;
    let imports = imports(alloc)?;
    let funcs = one(alloc, 0)?;
    let tables = one(alloc, table)?;
    let memories = one(alloc, memory)?;
    Ok(Front {
        types,
        imports,
        funcs,
        tables,
        memories,
    })
}

/// A module with a part of nearly each kind.
fn small(alloc: Global) -> Result<Module1, AllocError>
    ensures { IfOk result (λ m. m ≡ with_code outer) }
{
    let globals = globals(alloc)?;
    let exports = exports(alloc)?;
    let elems = elements(alloc)?;
    let codes = bodies(alloc)?;
    let datas = segments(alloc)?;
    let front = front_parts(alloc)?;
    Ok(Module1 {
        types: front.types,
        imports: front.imports,
        funcs: front.funcs,
        tables: front.tables,
        memories: front.memories,
        globals,
        exports,
        start: None,
        elems,
        codes,
        datas,
    })
}

/// The bytes of that module, by hand.
static BY_HAND: [u8; 97] = [
    0x00, 0x61, 0x73, 0x6D, 0x01, 0x00, 0x00, 0x00, //
    0x01, 0x06, 0x01, 0x60, 0x01, 0x7F, 0x01, 0x7F, //
    0x02, 0x08, 0x01, 0x01, 0x68, 0x01, 0x67, 0x03, 0x7F, 0x00, //
    0x03, 0x02, 0x01, 0x00, //
    0x04, 0x05, 0x01, 0x70, 0x01, 0x01, 0x01, //
    0x05, 0x03, 0x01, 0x00, 0x01, //
    0x06, 0x06, 0x01, 0x7F, 0x01, 0x23, 0x00, 0x0B, //
    0x07, 0x05, 0x01, 0x01, 0x66, 0x00, 0x00, //
    0x09, 0x07, 0x01, 0x00, 0x41, 0x00, 0x0B, 0x01, 0x00, //
    0x0A, 0x14, 0x01, 0x12, 0x01, 0x01, 0x7E, 0x02, 0x7F, 0x20, 0x00, 0x20, 0x00, 0x0D, 0x00, //
    0x10, 0x00, 0x0B, 0x28, 0x02, 0x00, 0x0B, //
    0x0B, 0x07, 0x01, 0x00, 0x41, 0x00, 0x0B, 0x01, 0x07,
];

#[test]
fn the_bytes_of_a_module_with_each_part(rt: HostRuntime) -> Result<(), Fail> {
    let module = small(rt.alloc())?;
    examples();
    let bytes = write1(rt.alloc(), &module)?;
    assert!(rt; bytes.as_slice() == BY_HAND.as_slice());
    Ok(())
}

/// Whether there is one entry in each of its lists, and the parts have what was written.
fn has_each_part(module: &Module1) -> bool {
    module.types.len() == 1
        && module.imports.len() == 1
        && module.tables.len() == 1
        && module.memories.len() == 1
        && module.globals.len() == 1
        && module.exports.get(0).is_some_and(is_export_f)
        && module.elems.get(0).is_some_and(has_one_item)
        && module.codes.get(0).is_some_and(has_one_local)
        && module.datas.get(0).is_some_and(has_byte_seven)
}

fn is_export_f(export: &Export1) -> bool {
    export.name.as_str() == "f"
}

fn has_one_item(element: &Element1) -> bool {
    element.items.len() == 1
}

fn has_one_local(body: &Body1) -> bool {
    body.locals.len() == 1 && body.code.len() == 2
}

fn has_byte_seven(segment: &Segment1) -> bool {
    segment.bytes.as_slice() == [7].as_slice()
}

#[test]
fn a_module_with_each_part_is_read(rt: HostRuntime) -> Result<(), Fail> {
    let module = read1(rt.alloc(), &BY_HAND)?;
    assert!(rt; has_each_part(&module));
    Ok(())
}

/// A file with one function of type [] -> [] with this body.
fn file_of(alloc: Global, body: &Bytes) -> Result<Bytes, AllocError> {
    let mut section = Bytes::from_slice(alloc, &[0x01])?;
    append(&mut section, body)?;
    let mut file = Bytes::from_slice(
        alloc,
        b"\0asm\x01\0\0\0\x01\x04\x01\x60\0\0\x03\x02\x01\0\x0A",
    )?;
    append(&mut file, &section)?;
    Ok(file)
}

/// Appends bytes behind their count.
fn append(out: &mut Bytes, bytes: &Bytes) -> Result<(), AllocError> {
    let bytes = bytes.as_slice();
    put_u32(out, u32::try_from(bytes.len()).map_err(|_| AllocError)?)?;
    out.extend_from_slice(bytes)
}

/// What reading a file comes to.
#[derive(Clone, Copy, PartialEq, Eq)]
enum Outcome {
    Read,
    Frame,
    Section(u32),
    Body(u32),
    Counts,
    Limit(Kind),
}

fn outcome_of(alloc: Global, file: &[u8]) -> Result<Outcome, AllocError> {
    Ok(match read1(alloc, file) {
        Ok(_) => Outcome::Read,
        Err(ReadFault::Frame(_)) => Outcome::Frame,
        Err(ReadFault::Section(place)) => Outcome::Section(place),
        Err(ReadFault::Body(place)) => Outcome::Body(place),
        Err(ReadFault::Counts) => Outcome::Counts,
        Err(ReadFault::Limit(kind)) => Outcome::Limit(kind),
        Err(ReadFault::Memory(error)) => return Err(error),
    })
}

/// Whether reading the head and these sections comes to this.
fn comes_to(alloc: Global, sections: &[u8], expected: Outcome) -> Result<bool, AllocError> {
    let mut file = Bytes::from_slice(alloc, b"\0asm\x01\0\0\0")?;
    file.extend_from_slice(sections)?;
    Ok(outcome_of(alloc, file.as_slice())? == expected)
}

static FAULTS: [(&str, &[u8], Outcome); 3] = [
    (
        "custom section without a name",
        b"\x00\x02\x01a\x01\x01\x01",
        Outcome::Section(1),
    ),
    (
        "no opcode FF",
        b"\x0A\x08\x02\x02\x00\x0B\x03\x00\xFF\x0B",
        Outcome::Body(1),
    ),
    (
        "function without body",
        b"\x03\x02\x01\x00",
        Outcome::Counts,
    ),
];

#[test]
fn the_first_fault_of_a_file(rt: HostRuntime) -> Result<(), Fail> {
    assert!(rt; outcome_of(rt.alloc(), b"\0asm\x02\0\0\0")? == Outcome::Frame);
    for (what, sections, expected) in &FAULTS {
        assert!(rt; comes_to(rt.alloc(), sections, *expected)?, "{what}");
    }
    Ok(())
}

static FORMS: [(&str, &[u8], Outcome); 16] = [
    ("nothing", b"", Outcome::Read),
    ("custom", b"\x00\x02\x01a", Outcome::Read),
    (
        "four types",
        b"\x01\x08\x01\x60\x04\x7F\x7E\x7D\x7C\x00",
        Outcome::Read,
    ),
    ("v128", b"\x01\x05\x01\x60\x01\x7B\x00", Outcome::Section(0)),
    (
        "imports",
        b"\x02\x1D\x04\x01a\x01b\x00\x00\x01a\x01c\x01\x70\x00\x00\x01a\x01d\x02\x00\x01\x01a\x01e\x03\x7E\x01",
        Outcome::Read,
    ),
    (
        "imported tag",
        b"\x02\x08\x01\x01a\x01b\x04\x00\x00",
        Outcome::Section(0),
    ),
    (
        "table of externals",
        b"\x04\x04\x01\x6F\x00\x01",
        Outcome::Section(0),
    ),
    (
        "memory of 64 bits",
        b"\x05\x03\x01\x04\x01",
        Outcome::Section(0),
    ),
    ("start", b"\x08\x01\x00", Outcome::Read),
    (
        "element in table 5",
        b"\x09\x07\x01\x05\x41\x00\x0B\x01\x00",
        Outcome::Read,
    ),
    (
        "passive element",
        b"\x09\x05\x01\x01\x00\x01\x00",
        Outcome::Section(0),
    ),
    (
        "data in memory 5",
        b"\x0B\x07\x01\x05\x41\x00\x0B\x01x",
        Outcome::Read,
    ),
    (
        "passive data",
        b"\x0B\x04\x01\x01\x01x",
        Outcome::Section(0),
    ),
    ("tags", b"\x0D\x03\x01\x00\x00", Outcome::Frame),
    ("data count", b"\x0C\x01\x00", Outcome::Frame),
    ("order before size", b"\x0C\x05\x00", Outcome::Frame),
];

#[test]
fn forms_of_sections_and_none_of_later_versions(rt: HostRuntime) -> Result<(), Fail> {
    for (what, sections, expected) in &FORMS {
        assert!(rt; comes_to(rt.alloc(), sections, *expected)?, "{what}");
    }
    Ok(())
}

/// Each file has one function, and a body of two to six bytes behind the count of its groups of locals.
static BODIES: [(&str, &[u8], Outcome); 12] = [
    (
        "nop",
        b"\x03\x02\x01\x00\x0A\x05\x01\x03\x00\x01\x0B",
        Outcome::Read,
    ),
    (
        "float operator",
        b"\x03\x02\x01\x00\x0A\x05\x01\x03\x00\x5B\x0B",
        Outcome::Read,
    ),
    (
        "float load",
        b"\x03\x02\x01\x00\x0A\x07\x01\x05\x00\x2A\x00\x00\x0B",
        Outcome::Read,
    ),
    (
        "indirect call",
        b"\x03\x02\x01\x00\x0A\x07\x01\x05\x00\x11\x00\x00\x0B",
        Outcome::Read,
    ),
    (
        "indirect call of table 1",
        b"\x03\x02\x01\x00\x0A\x07\x01\x05\x00\x11\x00\x01\x0B",
        Outcome::Body(0),
    ),
    (
        "memory.size of memory 1",
        b"\x03\x02\x01\x00\x0A\x06\x01\x04\x00\x3F\x01\x0B",
        Outcome::Body(0),
    ),
    (
        "if with an else",
        b"\x03\x02\x01\x00\x0A\x08\x01\x06\x00\x04\x40\x05\x0B\x0B",
        Outcome::Read,
    ),
    (
        "block with an else",
        b"\x03\x02\x01\x00\x0A\x08\x01\x06\x00\x02\x40\x05\x0B\x0B",
        Outcome::Body(0),
    ),
    (
        "block type by index",
        b"\x03\x02\x01\x00\x0A\x07\x01\x05\x00\x02\x00\x0B\x0B",
        Outcome::Body(0),
    ),
    (
        "i32.extend8_s",
        b"\x03\x02\x01\x00\x0A\x05\x01\x03\x00\xC0\x0B",
        Outcome::Body(0),
    ),
    (
        "return_call",
        b"\x03\x02\x01\x00\x0A\x06\x01\x04\x00\x12\x00\x0B",
        Outcome::Body(0),
    ),
    (
        "prefix of vectors",
        b"\x03\x02\x01\x00\x0A\x06\x01\x04\x00\xFD\x0C\x0B",
        Outcome::Body(0),
    ),
];

#[test]
fn instructions_and_none_of_later_versions(rt: HostRuntime) -> Result<(), Fail> {
    for (what, sections, expected) in &BODIES {
        assert!(rt; comes_to(rt.alloc(), sections, *expected)?, "{what}");
    }
    Ok(())
}

/// What of an instruction is compared.
#[derive(Clone, Copy, PartialEq, Eq)]
enum Shown {
    None,
    Return,
    Call(u32),
    LocalTee(u32),
    GlobalSet(u32),
    CallIndirect(u32),
    MemorySize,
    MemoryGrow,
    Load(Load, MemArg1),
    Store(Store, MemArg1),
    Pure(Op1),
    Float(u8, FloatImmediates1),
    Other,
}

fn show(instr: &Instr1) -> Shown {
    match instr {
        Instr1::Return => Shown::Return,
        Instr1::Call(func) => Shown::Call(*func),
        Instr1::LocalTee(local) => Shown::LocalTee(*local),
        Instr1::GlobalSet(global) => Shown::GlobalSet(*global),
        Instr1::CallIndirect(ty) => Shown::CallIndirect(*ty),
        Instr1::MemorySize => Shown::MemorySize,
        Instr1::MemoryGrow => Shown::MemoryGrow,
        Instr1::Load(op, at) => Shown::Load(*op, *at),
        Instr1::Store(op, at) => Shown::Store(*op, *at),
        Instr1::Pure(op) => Shown::Pure(*op),
        Instr1::Float(code, immediates) => Shown::Float(*code, *immediates),
        _ => Shown::Other,
    }
}

/// A file with one function without locals, whose body is this instruction.
fn file_with(alloc: Global, instr: &[u8]) -> Result<Bytes, AllocError> {
    let mut body = Bytes::from_slice(alloc, &[0x00])?;
    body.extend_from_slice(instr)?;
    body.push(0x0B)?;
    file_of(alloc, &body)
}

/// The first instruction of the first body.
fn first_shown(module: &Module1) -> Shown {
    let Some(body) = module.codes.get(0) else {
        return Shown::None;
    };
    match body.code.get(0) {
        Some(instr) => show(instr),
        None => Shown::None,
    }
}

/// Whether a body of these bytes is read as this instruction; none where it is not in the grammar.
fn is_read_as(alloc: Global, instr: &[u8], expected: Shown) -> Result<bool, AllocError> {
    let file = file_with(alloc, instr)?;
    match read1(alloc, file.as_slice()) {
        Ok(module) => Ok(first_shown(&module) == expected),
        Err(ReadFault::Body(0)) => Ok(expected == Shown::None),
        Err(ReadFault::Memory(error)) => Err(error),
        Err(_) => Ok(false),
    }
}

/// Alignment 2, offset 300.
const AT: MemArg1 = MemArg1 {
    align: 2,
    offset: 300,
};

static INSTRUCTIONS: [(&[u8], Shown); 12] = [
    (b"\x0F", Shown::Return),
    (b"\x10\x81\x01", Shown::Call(129)),
    (b"\x22\x03", Shown::LocalTee(3)),
    (b"\x24\x04", Shown::GlobalSet(4)),
    (b"\x11\x05\x00", Shown::CallIndirect(5)),
    (b"\x3F\x00", Shown::MemorySize),
    (b"\x40\x00", Shown::MemoryGrow),
    (b"\x41\x7F", Shown::Pure(Op1::I32Const(0xFFFF_FFFF))),
    (b"\x42\x05", Shown::Pure(Op1::I64Const(5))),
    (
        b"\x43\x00\x00\x80\x3F",
        Shown::Float(0x43, FloatImmediates1::Bits32(0x3F80_0000)),
    ),
    (
        b"\x39\x02\xAC\x02",
        Shown::Float(0x39, FloatImmediates1::Memory(AT)),
    ),
    (b"\xFC\x08\x00\x00", Shown::None),
];

#[test]
fn instructions_of_each_form(rt: HostRuntime) -> Result<(), Fail> {
    for (bytes, expected) in &INSTRUCTIONS {
        assert!(rt; is_read_as(rt.alloc(), bytes, *expected)?);
    }
    Ok(())
}

/// An operator as 1.0 has it.
fn shown_op(op: IntOp) -> Shown {
    match op {
        IntOp::Eqz(width) => Shown::Pure(Op1::Eqz(width)),
        IntOp::Compare(width, op) => Shown::Pure(Op1::Compare(width, op)),
        IntOp::Unary(width, op) => Shown::Pure(Op1::Unary(width, op)),
        IntOp::Binary(width, op) => Shown::Pure(Op1::Binary(width, op)),
        IntOp::Convert(Conv::Wrap) => Shown::Pure(Op1::Convert(Conv1::Wrap)),
        IntOp::Convert(Conv::Ext32S) => Shown::Pure(Op1::Convert(Conv1::Ext32S)),
        IntOp::Convert(Conv::Ext32U) => Shown::Pure(Op1::Convert(Conv1::Ext32U)),
        IntOp::Convert(_) => Shown::None,
    }
}

#[test]
fn operators_loads_and_stores(rt: HostRuntime) -> Result<(), Fail> {
    for (code, op) in &OPERATORS {
        assert!(rt; is_read_as(rt.alloc(), &[*code], shown_op(*op))?, "{code}");
    }
    for (code, load) in &LOADS {
        let expected = Shown::Load(*load, AT);
        assert!(rt;
            is_read_as(rt.alloc(), &[*code, 0x02, 0xAC, 0x02], expected)?,
            "{code}"
        );
    }
    for (code, store) in &STORES {
        let expected = Shown::Store(*store, AT);
        assert!(rt;
            is_read_as(rt.alloc(), &[*code, 0x02, 0xAC, 0x02], expected)?,
            "{code}"
        );
    }
    Ok(())
}

#[test]
fn operators_on_floats_and_no_others(rt: HostRuntime) -> Result<(), Fail> {
    for code in 0xAE..=u8::MAX {
        let expected = if is_float_operator(code) {
            Shown::Float(code, FloatImmediates1::None)
        } else {
            Shown::None
        };
        assert!(rt; is_read_as(rt.alloc(), &[code], expected)?, "{code}");
    }
    Ok(())
}
