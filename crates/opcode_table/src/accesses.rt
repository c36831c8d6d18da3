// Loads and stores of integers (the standard's "Memory Instructions" of the binary format).

ghost use Rattle.std.specs.Prelude.{◌≡◌, ℕ, Some};
ghost use Rattle.opcode_table.specs.Accesses.{load_of, store_of};

use num_core::operators::{Load, Store};

/// The loads of the opcodes from 0x28 to 0x35. Those of floats are none.
static LOADS: [Option<Load>; 14] = [
    Some(Load::I32),
    Some(Load::I64),
    None,
    None,
    Some(Load::I32From8S),
    Some(Load::I32From8U),
    Some(Load::I32From16S),
    Some(Load::I32From16U),
    Some(Load::I64From8S),
    Some(Load::I64From8U),
    Some(Load::I64From16S),
    Some(Load::I64From16U),
    Some(Load::I64From32S),
    Some(Load::I64From32U),
];

/// The load of an integer with this opcode. `None` exactly where the opcode is in no row of the table.
pub fn load_of(opcode: u8) -> Option<Load>
    ensures { result ≡ load_of opcode }
{
    if opcode < 0x28 || 0x35 < opcode {
        return None;
    }
    LOADS[(opcode - 0x28) as usize]
}

/// The opcodes of the loads, in the order of the variants.
static LOAD_OPCODES: [u8; 12] = [
    0x28, 0x29, 0x2C, 0x2D, 0x2E, 0x2F, 0x30, 0x31, 0x32, 0x33, 0x34, 0x35,
];

/// The opcode of a load of an integer. No other opcode stands for it.
pub fn load_opcode(load: Load) -> u8
    ensures row { load_of result ≡ Some load }
    ensures alone { (opcode : ℕ) → load_of opcode ≡ Some load → opcode ≡ result }
{
    LOAD_OPCODES[load as usize]
}

/// The stores of the opcodes from 0x36 to 0x3E. Those of floats are none.
static STORES: [Option<Store>; 9] = [
    Some(Store::I32),
    Some(Store::I64),
    None,
    None,
    Some(Store::I32To8),
    Some(Store::I32To16),
    Some(Store::I64To8),
    Some(Store::I64To16),
    Some(Store::I64To32),
];

/// The store of an integer with this opcode. `None` exactly where the opcode is in no row of the table.
pub fn store_of(opcode: u8) -> Option<Store>
    ensures { result ≡ store_of opcode }
{
    if opcode < 0x36 || 0x3E < opcode {
        return None;
    }
    STORES[(opcode - 0x36) as usize]
}

/// The opcodes of the stores, in the order of the variants.
static STORE_OPCODES: [u8; 7] = [0x36, 0x37, 0x3A, 0x3B, 0x3C, 0x3D, 0x3E];

/// The opcode of a store of an integer. No other opcode stands for it.
pub fn store_opcode(store: Store) -> u8
    ensures row { store_of result ≡ Some store }
    ensures alone { (opcode : ℕ) → store_of opcode ≡ Some store → opcode ≡ result }
{
    STORE_OPCODES[store as usize]
}
