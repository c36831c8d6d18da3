//! What a command reads and writes: files by name (`Files`) and where text is printed (`Sink`), each with its count of
//! faults; and objects in memory that meet them exactly, some of whose calls can be made to fail.
//!
//! What a call may do is said by the clauses of the two traits. `specs/Held.antt` has the words for what is held under a
//! name and how a call changes it, `specs/Causes.antt` those for the cause of a failure.
#![tactic(auto)]

pub mod calls;
pub mod files;
pub mod sink;
