ghost use Rattle.std.specs.Prelude.{◌≡◌, ℕ, Some};
ghost use Rattle.opcode_table.specs.Operators.{operator_of};
ghost use Rattle.opcode_table.specs.declared.int_op.IntOp.TheVariants.{Eqz, Compare, Unary, Binary, Convert};

use crate::int_op::IntOp;
use num_core::operators::{Bin, Cmp, Conv, Un, Width};

/// The opcode of the operator (the standard's "Numeric Instructions" of the binary format). No other opcode stands for
/// it.
pub fn opcode_of(op: IntOp) -> u8
    ensures row { operator_of result ≡ Some op }
    ensures alone { (opcode : ℕ) → operator_of opcode ≡ Some op → opcode ≡ result }
{
    row_of(op)
}

/// The opcode in the row of the operator.
fn row_of(op: IntOp) -> u8
    ensures { operator_of result ≡ Some op }
{
    match op {
        IntOp::Eqz(width) => test_opcode(width),
        IntOp::Compare(width, op) => comparison_opcode(width, op),
        IntOp::Unary(width, op) => unary_opcode(width, op),
        IntOp::Binary(width, op) => binary_opcode(width, op),
        IntOp::Convert(op) => conversion_opcode(op),
    }
}

/// The opcodes, in the order of the widths.
static TESTS: [u8; 2] = [0x45, 0x50];

/// The opcode of the test for 0.
fn test_opcode(width: Width) -> u8
    ensures { operator_of result ≡ Some (Eqz width) }
{
    TESTS[width as usize]
}

/// The opcodes of the first comparison, in the order of the widths.
static COMPARISONS: [u8; 2] = [0x46, 0x51];

/// The opcode of a comparison: those of one width follow one another in the order of the variants.
fn comparison_opcode(width: Width, op: Cmp) -> u8
    ensures { operator_of result ≡ Some (Compare width op) }
{
    COMPARISONS[width as usize] + op as u8
}

/// The opcodes of the first unary operator, in the order of the widths.
static UNARIES: [u8; 2] = [0x67, 0x79];

/// The opcode of a unary operator: those of one width follow one another in the order of the variants.
fn unary_opcode(width: Width, op: Un) -> u8
    ensures { operator_of result ≡ Some (Unary width op) }
{
    UNARIES[width as usize] + op as u8
}

/// The opcodes of the first binary operator, in the order of the widths.
static BINARIES: [u8; 2] = [0x6A, 0x7C];

/// The opcode of a binary operator: those of one width follow one another in the order of the variants.
fn binary_opcode(width: Width, op: Bin) -> u8
    ensures { operator_of result ≡ Some (Binary width op) }
{
    BINARIES[width as usize] + op as u8
}

/// The opcodes, in the order of the variants.
static CONVERSIONS: [u8; 8] = [0xA7, 0xAC, 0xAD, 0xC0, 0xC1, 0xC2, 0xC3, 0xC4];

/// The opcode of a conversion.
fn conversion_opcode(op: Conv) -> u8
    ensures { operator_of result ≡ Some (Convert op) }
{
    CONVERSIONS[op as usize]
}
