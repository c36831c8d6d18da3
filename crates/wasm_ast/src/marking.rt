// Numbers kept as flags: those that are set.

ghost use Rattle.std.specs.Prelude.{◌≡◌, true, slice_set};
ghost use Rattle.wasm_ast.specs.Marking.{is_marked};

/// Sets the flag with this number, if there is one.
pub fn mark(flags: &mut [bool], number: u32)
    ensures { flags.new ≡ slice_set flags.old number true }
{
    let place = number as usize;
    if place < flags.len() {
        flags[place] = true;
    }
}

/// Whether the flag with this number is set. One that is not there is not.
pub fn is_marked(flags: &[bool], number: usize) -> bool
    ensures { result ≡ is_marked flags.now number }
{
    match flags.get(number) {
        Some(flag) => *flag,
        None => false,
    }
}
