// From a module of 1.0 to bytes that spell it.

mod bodies;
mod code;
mod entry;
mod opcodes;
mod parts;
mod sections;
mod types;

pub use sections::write1;
