use sqlite_items::Items;

/// An instruction that holds code, while its code is being read.
#[derive(Drop)]
pub struct OpenBlock<I, H> {
    /// Its opcode and immediates.
    pub head: H,
    /// The instructions before it, in the code in which it stands.
    pub before: Items<I>,
    /// Its first arm, once its else was read.
    pub first: Option<Items<I>>,
}
