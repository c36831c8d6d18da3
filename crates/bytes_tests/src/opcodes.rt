// `opcode_table`: each row both ways, and no other.

use crate::rows::{LOADS, OPERATORS, STORES};
use opcode_table::{
    IntOp, is_float_access, is_float_operator, load_of, load_opcode, opcode_of, operator_of,
    store_of, store_opcode,
};

fn is_same(a: IntOp, b: IntOp) -> bool {
    match (a, b) {
        (IntOp::Eqz(w), IntOp::Eqz(v)) => w == v,
        (IntOp::Compare(w, op), IntOp::Compare(v, other)) => w == v && op == other,
        (IntOp::Unary(w, op), IntOp::Unary(v, other)) => w == v && op == other,
        (IntOp::Binary(w, op), IntOp::Binary(v, other)) => w == v && op == other,
        (IntOp::Convert(op), IntOp::Convert(other)) => op == other,
        _ => false,
    }
}

fn is_row(code: u8, op: IntOp) -> bool {
    match operator_of(code) {
        Some(found) => is_same(found, op) && opcode_of(op) == code,
        None => false,
    }
}

#[test]
fn rows_of_operators(rt: HostRuntime) {
    for (code, op) in &OPERATORS {
        assert!(rt; is_row(*code, *op), "{code}");
    }
}

#[test]
fn rows_of_loads_and_stores(rt: HostRuntime) {
    for (code, load) in &LOADS {
        assert!(rt;
            load_of(*code) == Some(*load) && load_opcode(*load) == *code,
            "{code}"
        );
    }
    for (code, store) in &STORES {
        assert!(rt;
            store_of(*code) == Some(*store) && store_opcode(*store) == *code,
            "{code}"
        );
    }
}

/// In how many tables an opcode stands.
fn tables_with(code: u8) -> u32 {
    u32::from(operator_of(code).is_some())
        + u32::from(load_of(code).is_some())
        + u32::from(store_of(code).is_some())
        + u32::from(is_float_access(code))
        + u32::from(is_float_operator(code))
}

#[test]
fn each_opcode_is_of_one_kind(rt: HostRuntime) {
    for code in 0..=u8::MAX {
        let expected = matches!(code, 0x28..=0x3E | 0x45..=0xC4);
        assert!(rt; tables_with(code) == u32::from(expected), "{code}");
    }
}
