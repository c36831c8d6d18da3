//! Runs of typed modules of WebAssembly 3.0 under a script.
//!
//! `run_new` shows exactly what the host sees of the meaning's trace (`meaning_new`, `specs/Runs.antt`). The machine of
//! `machine_kit` runs the typed trees as they are, borrowed: a node does what the instruction does for which it stands
//! (`specs/Nodes.antt`). A `Program` is the language that it runs, and the host that does the tasks. A run without bounds
//! keeps the bounds of the meaning's state as they are, so it runs over what is left of a state (`specs/States.antt`).
//!
//! Each instruction takes constant time, but for a growth, which takes that of its new pages or entries (amortised), one on
//! a range, which takes that of the range, a call of the host's, which takes that of its acts, its values and the exported
//! globals, and an indirect call, which compares two function types. An exception that was thrown is kept to the end.
#![tactic(auto)]

mod acts;
mod constants;
mod exception;
mod growths;
mod host_calls;
mod instances;
mod items;
mod leaves;
mod memories;
mod memory;
mod numeric;
mod program;
mod segments;
mod slot;
mod state;
mod store;
mod table;
mod tables;
mod tasks;
mod throws;
mod values;
mod vector_memories;
mod vectors;
mod version;
mod whole_run;

pub use whole_run::run_new;
