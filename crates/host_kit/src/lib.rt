//! What a host does with a module and what it sees of it, for both versions: scripts, values and events; and the traces
//! of runs, whose marks definitions alone see.
#![tactic(auto)]

mod copies;
mod event;
mod fault;
mod fitting;
mod fitting1;
mod offered;
mod offered1;
mod reading;
mod script;
mod script_text;
mod texts;
mod tree;
mod value;
mod words;

pub use event::Event;
pub use fault::ScriptFault;
pub use fitting::fits;
pub use fitting1::fits1;
pub use reading::script_of;
pub use script::{Act, Item, Reply, Script};
pub use script_text::{MOST_BYTES, TextFault, read_script};
pub use texts::print;
pub use value::{Value, Values};
