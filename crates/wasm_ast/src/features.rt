// What a module uses beyond 1.0, and what lies outside the profile, feature by feature.

mod declared;
mod exnref;
mod exports;
mod imports;
mod instructions;
mod kind;
mod lanes;
mod parts;
mod places;
mod presence;
mod types;

pub use instructions::Shows;
pub use kind::Feature;
pub use parts::{has_passive, has_table, has_two_memories};
pub use places::{anywhere_given, outside_elements_given};
pub use presence::{has, has_given};
