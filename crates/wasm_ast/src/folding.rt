// Constant expressions that fold to one integer or to an imported global.

mod expressions;
mod folded;
mod globals;

pub use expressions::fold_of;
pub use folded::Folded;
pub use globals::known_globals;
