//! A machine that runs code of any language as the evaluation of structured code says (`evaluation_kit`), with stacks of
//! its own: no call of the code that runs is a call of the host's.
//!
//! A language is a `Version`, what a host does with it a `Host`. `call` runs a function, and `run_tasks` does tasks in
//! order; `specs/Calls.antt` says what they come to. A step of the machine is proved by one equation, which says that the
//! same is left of the run (`specs/Machines.antt`, `Moves`).
#![tactic(auto)]

mod close;
mod exec;
mod frame;
mod head;
mod host;
mod locals;
mod machine;
mod moving;
mod operands;
mod plain;
mod steps;
mod tasks;
mod turns;
mod version;

pub use head::{Body, Head, Step, Target};
pub use host::{Begun, Host};
pub use locals::Locals;
pub use operands::Operands;
pub use tasks::{Called, call, run_tasks};
pub use turns::Outcome;
pub use version::Version;
