/// What a stage of lowering is told beside the module.
#[derive(Clone, Copy)]
pub struct Settings {
    /// How many captures of exceptions there is room for, 1 to 16,384.
    pub captures: u32,
}
