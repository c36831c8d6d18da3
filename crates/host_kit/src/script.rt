use super::value::{Value, Values};
use num_core::lists::{Bytes, Text};
use sqlite_items::Items;

/// One thing that a host does to the state of an instance, by the name of an export.
#[derive(Drop)]
pub enum Act {
    /// Sets the mutable global of this name to this value.
    Set(Text, Value),
    /// Reads from the memory of this name, at this address, so many bytes.
    Peek(Text, u64, u32),
    /// Writes into the memory of this name, at this address, these bytes.
    Poke(Text, u64, Bytes),
}

/// One thing that a host does with an instance.
#[derive(Drop)]
pub enum Item {
    /// Calls the exported function of this name with these arguments.
    Call(Text, Values),
    /// Acts on the state.
    Host(Act),
}

/// What a host does when one of its functions is called.
#[derive(Drop)]
pub struct Reply {
    /// What it does before it returns, in order.
    pub acts: Items<Act>,
    /// The results that it returns.
    pub values: Values,
}

/// What a host does with a module, and how it answers.
#[derive(Drop)]
pub struct Script {
    /// The values of the imported globals, in order.
    pub globals: Values,
    /// For each imported function, in order, its replies, one for each call.
    pub replies: Items<Items<Reply>>,
    /// The answers to growths, in order: whether the host grants each.
    pub grows: Items<bool>,
    /// What the host does after instantiation, in order.
    pub items: Items<Item>,
}
