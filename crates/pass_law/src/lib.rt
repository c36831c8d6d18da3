//! The one law of every stage of lowering, and that two stages in a row are one.
//!
//! A stage is a `Pass`: its plan says what it takes and leaves, how it maps what a host sees, scripts and events, and how
//! many calls more are open (`specs/Plans.antt`); its law says what its output has to do with its input, in both
//! directions (`specs/Law.antt`). `Then` is a stage of two, proved from their laws alone.
#![tactic(auto)]

mod pass;
mod settings;
mod then;

pub use pass::Pass;
pub use settings::Settings;
pub use then::Then;
