ghost use Rattle.std.specs.Prelude.{◌≡◌};
ghost use Rattle.opcode_table.specs.Floats.{is_float_access, is_float_operator};

/// Whether the opcode is that of a load or a store of a float (the standard's "Memory Instructions").
#[tactic(auto, unfolding(crate::specs::Floats::is_float_access))]
pub fn is_float_access(opcode: u8) -> bool
    ensures { result ≡ is_float_access opcode }
{
    matches!(opcode, 0x2A..=0x2B | 0x38..=0x39)
}

/// Whether the opcode is that of an instruction on floats without immediates (the standard's "Numeric Instructions").
#[tactic(auto, unfolding(crate::specs::Floats::is_float_operator))]
pub fn is_float_operator(opcode: u8) -> bool
    ensures { result ≡ is_float_operator opcode }
{
    matches!(opcode, 0x5B..=0x66 | 0x8B..=0xA6 | 0xA8..=0xAB | 0xAE..=0xBF)
}
