// The list of types, seen by contracts as the list of its items.

mod types;

pub use types::Types;
