//! Runs of typed modules of WebAssembly 1.0 under a script.
//!
//! `run_core1` gives exactly the events that the meaning says (`meaning_core1`, `specs/Runs.antt`). The machine of
//! `machine_kit` runs the code; a `Program` is the language that it runs, and the host that does the tasks. What an
//! instruction does is a call that is given the topmost operands and answers a `Change` of them (`specs/Changes.antt`);
//! what it does to globals, memories and the host's answers is done to a `State`, which contracts see as the meaning's.
//!
//! Each instruction takes constant time, but for a growth, which takes that of its new pages (amortised), and for a call
//! of the host's, which takes that of its acts, its values and the exported globals. Code and scripts are borrowed.
#![tactic(auto)]

mod acts;
mod change;
mod constants;
mod exports;
mod host_calls;
mod instances;
mod items;
mod leaves;
mod little_endian;
mod mark;
mod memory;
mod numeric;
mod program;
mod segments;
mod slot;
mod state;
mod table;
mod tasks;
mod version;
mod whole_run;

pub use whole_run::run_core1;
