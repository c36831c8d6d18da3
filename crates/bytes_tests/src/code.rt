// `code_new`: instructions of each form, what is no code, and what is measured of an expression.

use crate::rows::{LOADS, OPERATORS, STORES};
use code_new::code::{measure_expr, read_expr};
use grammar_kit::FormError;
use lane_core::operators::{Lane2, LaneExtract, LaneLoad};
use lane_core::vector::{Shape, V};
use num_core::operators::{Load, Store};
use opcode_table::IntOp;
use std::alloc::Global;
use std::test::Fail;
use wasm_ast::module::{BlockType, Catch, FloatCode, FloatImmediates, Instr, MemArg, Op, Ty};

/// What of an instruction that is no `Pure` is compared.
#[derive(Clone, Copy, PartialEq, Eq)]
enum Shown {
    Return,
    TailCall(u32),
    CallIndirect(u32, u32),
    MemoryCopy(u32, u32),
    MemoryGrow(u32),
    TableFill(u32),
    Load(Load, MemArg),
    Store(Store, MemArg),
    LoadVector(LaneLoad, MemArg),
    LoadLane(Shape, MemArg, u8),
    Float(FloatCode, FloatImmediates),
    Other,
}

fn show(instr: &Instr) -> Shown {
    match instr {
        Instr::Return => Shown::Return,
        Instr::ReturnCall(func) => Shown::TailCall(*func),
        Instr::CallIndirect(ty, table) => Shown::CallIndirect(*ty, *table),
        Instr::MemoryCopy(to, from) => Shown::MemoryCopy(*to, *from),
        Instr::MemoryGrow(memory) => Shown::MemoryGrow(*memory),
        Instr::TableFill(table) => Shown::TableFill(*table),
        Instr::Load(op, at) => Shown::Load(*op, *at),
        Instr::Store(op, at) => Shown::Store(*op, *at),
        Instr::LoadVector(op, at) => Shown::LoadVector(*op, *at),
        Instr::LoadLane(shape, at, lane) => Shown::LoadLane(*shape, *at, *lane),
        Instr::Float(code, immediates) => Shown::Float(*code, *immediates),
        _ => Shown::Other,
    }
}

/// The first instruction of an expression, and how many bytes are left behind the expression.
fn first_shown(alloc: Global, bytes: &[u8]) -> Result<(Shown, usize), Fail> {
    let (code, rest) = read_expr(alloc, bytes)?;
    let first = code.get(0).ok_or("no instruction")?;
    Ok((show(first), rest.len()))
}

/// An access to memory 2, aligned to 8 bytes, at offset 300.
const FAR: MemArg = MemArg {
    memory: 2,
    align: 3,
    offset: 300,
};

/// An access to memory 0, aligned to 4 bytes.
const NEAR: MemArg = MemArg {
    memory: 0,
    align: 2,
    offset: 0,
};

static ROWS: [(&[u8], Shown); 8] = [
    (b"\x0F\x0B", Shown::Return),
    (b"\x12\x81\x01\x0B", Shown::TailCall(129)),
    (b"\x11\x01\x02\x0B", Shown::CallIndirect(1, 2)),
    (b"\x28\x02\x00\x0B", Shown::Load(Load::I32, NEAR)),
    (
        b"\x3E\x43\x02\xAC\x02\x0B",
        Shown::Store(Store::I64To32, FAR),
    ),
    (b"\x40\x05\x0B", Shown::MemoryGrow(5)),
    (b"\xFC\x0A\x01\x02\x0B", Shown::MemoryCopy(1, 2)),
    (b"\xFC\x11\x04\x0B", Shown::TableFill(4)),
];

static VECTOR_ROWS: [(&[u8], Shown); 2] = [
    (
        b"\xFD\x5D\x02\x00\x0B",
        Shown::LoadVector(LaneLoad::Load64Zero, NEAR),
    ),
    (
        b"\xFD\x57\x43\x02\xAC\x02\x01\x0B",
        Shown::LoadLane(Shape::I64x2, FAR, 1),
    ),
];

static FLOAT_ROWS: [(&[u8], Shown); 6] = [
    (
        b"\x39\x43\x02\xAC\x02\x0B",
        Shown::Float(FloatCode::Plain(0x39), FloatImmediates::Memory(FAR)),
    ),
    (
        b"\x43\x00\x00\x80\x3F\x0B",
        Shown::Float(FloatCode::Plain(0x43), FloatImmediates::Bits32(0x3F80_0000)),
    ),
    (
        b"\x44\0\0\0\0\0\0\xF0\x3F\x0B",
        Shown::Float(
            FloatCode::Plain(0x44),
            FloatImmediates::Bits64(0x3FF0_0000_0000_0000),
        ),
    ),
    (
        b"\xBF\x0B",
        Shown::Float(FloatCode::Plain(0xBF), FloatImmediates::None),
    ),
    (
        b"\xFC\x07\x0B",
        Shown::Float(FloatCode::Saturating(7), FloatImmediates::None),
    ),
    (
        b"\xFD\x1F\x03\x0B",
        Shown::Float(FloatCode::Vector(31), FloatImmediates::Lane(3)),
    ),
];

/// Whether the first instruction of an expression is this one, and nothing stands behind the expression.
fn is_shown(alloc: Global, bytes: &[u8], expected: Shown) -> Result<bool, Fail> {
    let (shown, left) = first_shown(alloc, bytes)?;
    Ok(shown == expected && left == 0)
}

static PURE_ROWS: [(&[u8], Op); 6] = [
    (b"\x41\x7F\x0B", Op::I32Const(0xFFFF_FFFF)),
    (b"\x42\x05\x0B", Op::I64Const(5)),
    (b"\xD0\x69\x0B", Op::RefNull(Ty::Exn)),
    (
        b"\xFD\x0C\x02\x01\0\0\0\0\0\0\0\0\0\0\0\0\0\0\x0B",
        Op::V128Const(V(258)),
    ),
    (b"\xFD\x16\x0F\x0B", Op::Extract(LaneExtract::I8x16U, 15)),
    (b"\xFD\xD6\x01\x0B", Op::Lanes2(Lane2::I64x2Eq)),
];

/// The first instruction of an expression, where it is a `Pure` and nothing stands behind the expression.
fn first_pure(alloc: Global, bytes: &[u8]) -> Result<Option<Op>, Fail> {
    let (code, rest) = read_expr(alloc, bytes)?;
    match code.get(0) {
        Some(Instr::Pure(op)) if rest.is_empty() => Ok(Some(*op)),
        _ => Ok(None),
    }
}

/// Whether both are one operator, of those that `PURE_ROWS` has.
fn is_same(found: Op, op: Op) -> bool {
    match (found, op) {
        (Op::I32Const(n), Op::I32Const(other)) => n == other,
        (Op::I64Const(n), Op::I64Const(other)) => n == other,
        (Op::RefNull(ty), Op::RefNull(other)) => ty == other,
        (Op::V128Const(v), Op::V128Const(other)) => v == other,
        (Op::Extract(op, lane), Op::Extract(other, at)) => op == other && lane == at,
        (Op::Lanes2(op), Op::Lanes2(other)) => op == other,
        _ => false,
    }
}

/// Whether the first instruction of an expression is this one of `PURE_ROWS`, and nothing stands behind the expression.
fn is_pure(alloc: Global, bytes: &[u8], op: Op) -> Result<bool, Fail> {
    match first_pure(alloc, bytes)? {
        Some(found) => Ok(is_same(found, op)),
        None => Ok(false),
    }
}

#[test]
fn instructions_of_each_form(rt: HostRuntime) -> Result<(), Fail> {
    for (bytes, expected) in &ROWS {
        assert!(rt; is_shown(rt.alloc(), bytes, *expected)?);
    }
    for (bytes, expected) in &VECTOR_ROWS {
        assert!(rt; is_shown(rt.alloc(), bytes, *expected)?);
    }
    for (bytes, expected) in &FLOAT_ROWS {
        assert!(rt; is_shown(rt.alloc(), bytes, *expected)?);
    }
    for (bytes, op) in &PURE_ROWS {
        assert!(rt; is_pure(rt.alloc(), bytes, *op)?);
    }
    Ok(())
}

/// Whether both are one operator on integers.
fn is_same_on_integers(found: Op, op: IntOp) -> bool {
    match (found, op) {
        (Op::Eqz(w), IntOp::Eqz(v)) => w == v,
        (Op::Compare(w, op), IntOp::Compare(v, other)) => w == v && op == other,
        (Op::Unary(w, op), IntOp::Unary(v, other)) => w == v && op == other,
        (Op::Binary(w, op), IntOp::Binary(v, other)) => w == v && op == other,
        (Op::Convert(op), IntOp::Convert(other)) => op == other,
        _ => false,
    }
}

/// Whether the first instruction of an expression is this operator, and nothing stands behind the expression.
fn is_operator(alloc: Global, bytes: &[u8], op: IntOp) -> Result<bool, Fail> {
    match first_pure(alloc, bytes)? {
        Some(found) => Ok(is_same_on_integers(found, op)),
        None => Ok(false),
    }
}

#[test]
fn operators_loads_and_stores(rt: HostRuntime) -> Result<(), Fail> {
    for (code, op) in &OPERATORS {
        assert!(rt; is_operator(rt.alloc(), &[*code, 0x0B], *op)?, "{code}");
    }
    for (code, load) in &LOADS {
        let expected = Shown::Load(*load, NEAR);
        assert!(rt;
            is_shown(rt.alloc(), &[*code, 0x02, 0x00, 0x0B], expected)?,
            "{code}"
        );
    }
    for (code, store) in &STORES {
        let expected = Shown::Store(*store, NEAR);
        assert!(rt;
            is_shown(rt.alloc(), &[*code, 0x02, 0x00, 0x0B], expected)?,
            "{code}"
        );
    }
    Ok(())
}

static NO_CODE: [(&str, &[u8]); 16] = [
    ("no end", b"\x01"),
    ("no opcode", b"\x06\x40\x0B\x0B"),
    ("index after 27", b"\x27\x00\x0B"),
    ("memory field of 128", b"\x28\x80\x01\x00\x0B"),
    (
        "offset past 64 bits",
        b"\x28\x00\xFF\xFF\xFF\xFF\xFF\xFF\xFF\xFF\xFF\x02\x0B",
    ),
    ("reference to 71", b"\xD0\x71\x0B"),
    ("long form as a heap type", b"\xD0\x63\x70\x0B"),
    ("18 after FC", b"\xFC\x12\x00\x0B"),
    ("154 after FD", b"\xFD\x9A\x01\x0B"),
    ("256 after FD", b"\xFD\x80\x02\x0B"),
    ("short constant", b"\xFD\x0C\x00\x00\x0B"),
    ("negative type index", b"\x02\xFF\x7F\x0B\x0B"),
    ("catch clause of kind 4", b"\x1F\x40\x01\x04\x00\x0B\x0B"),
    ("else in a block", b"\x02\x40\x05\x0B\x0B"),
    ("second else", b"\x04\x40\x05\x05\x0B\x0B"),
    ("count without labels", b"\x0E\xFF\xFF\xFF\xFF\x0F\x00\x0B"),
];

/// Whether no expression stands in front, to both readers.
fn is_no_code(alloc: Global, bytes: &[u8]) -> bool {
    matches!(read_expr(alloc, bytes), Err(FormError::Malformed))
        && matches!(measure_expr(alloc, bytes), Err(FormError::Malformed))
}

#[test]
fn what_is_no_code(rt: HostRuntime) {
    for (what, bytes) in &NO_CODE {
        assert!(rt; is_no_code(rt.alloc(), bytes), "{what}");
    }
}

/// Whether it is an if over br_table 5 6 7 in one arm, and a select of v128 and exnref in the other.
fn has_lists_in_both_arms(instr: &Instr) -> bool {
    let Instr::If(BlockType::Empty, first, second) = instr else {
        return false;
    };
    let Some(Instr::BrTable(labels, 7)) = first.get(0) else {
        return false;
    };
    let Some(Instr::SelectTyped(types)) = second.get(0) else {
        return false;
    };
    labels.as_slice() == [5, 6].as_slice() && types.as_slice() == [Ty::V128, Ty::Exn].as_slice()
}

#[test]
fn lists_and_arms(rt: HostRuntime) -> Result<(), Fail> {
    let bytes = b"\x04\x40\x0E\x02\x05\x06\x07\x05\x1C\x02\x7B\x63\x69\x0B\x0B\xFF";
    assert!(rt; is_measured(rt.alloc(), bytes, 1, false, 1)?);
    let (code, _) = read_expr(rt.alloc(), bytes)?;
    assert!(rt; code.get(0).is_some_and(has_lists_in_both_arms));
    Ok(())
}

static CLAUSES: [Catch; 4] = [
    Catch::Tag(1, 2),
    Catch::TagRef(3, 4),
    Catch::All(5),
    Catch::AllRef(6),
];

/// Whether it is a try_table of type 3 with these clauses over a loop that gives an i64, over a block of type 64.
fn has_clauses_and_nests(instr: &Instr) -> bool {
    let Instr::TryTable(BlockType::Index(3), clauses, inner) = instr else {
        return false;
    };
    let Some(Instr::Loop(BlockType::One(Ty::I64), inner)) = inner.get(0) else {
        return false;
    };
    let Some(Instr::Block(BlockType::Index(64), _)) = inner.get(0) else {
        return false;
    };
    clauses.as_slice() == CLAUSES.as_slice()
}

#[test]
fn catch_clauses_and_nesting(rt: HostRuntime) -> Result<(), Fail> {
    let bytes =
        b"\x1F\x03\x04\x00\x01\x02\x01\x03\x04\x02\x05\x03\x06\x03\x7E\x02\xC0\x00\x0B\x0B\x0B\x0B";
    assert!(rt; is_measured(rt.alloc(), bytes, 3, false, 0)?);
    let (code, _) = read_expr(rt.alloc(), bytes)?;
    assert!(rt; code.get(0).is_some_and(has_clauses_and_nests));
    Ok(())
}

/// Expressions, how deeply they nest, whether they name a data segment, and how many bytes are left behind them.
static MEASURED: [(&[u8], u32, bool, usize); 6] = [
    // data.drop behind the end
    (b"\x0B\xFC\x09\x00", 0, false, 3),
    // elem.drop
    (b"\xFC\x0D\x00\x0B", 0, false, 0),
    // memory.copy and memory.fill in a block
    (b"\x02\x40\xFC\x0A\x00\x00\xFC\x0B\x00\x0B\x0B", 1, false, 0),
    // memory.init in a try_table
    (b"\x1F\x40\x00\xFC\x08\x01\x00\x0B\x0B", 1, true, 0),
    // data.drop, and a nop behind it
    (b"\xFC\x09\x00\x01\x0B", 0, true, 0),
    // data.drop in a loop in the second arm of an if in a block, and an empty block behind them
    (
        b"\x02\x40\x04\x40\x05\x03\x40\xFC\x09\x00\x0B\x0B\x0B\x02\x40\x0B\x0B",
        3,
        true,
        0,
    ),
];

fn is_measured(
    alloc: Global,
    bytes: &[u8],
    nesting: u32,
    names_data: bool,
    left: usize,
) -> Result<bool, FormError> {
    let (sizes, rest) = measure_expr(alloc, bytes)?;
    Ok(sizes.nesting == nesting && sizes.names_data == names_data && rest.len() == left)
}

#[test]
fn uses_of_data_segments_are_found_at_any_depth(rt: HostRuntime) -> Result<(), Fail> {
    for (bytes, nesting, names_data, left) in &MEASURED {
        assert!(rt; is_measured(rt.alloc(), bytes, *nesting, *names_data, *left)?);
    }
    Ok(())
}
