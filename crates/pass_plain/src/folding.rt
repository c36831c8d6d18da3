// What becomes of a module whose constant expressions compute: the parts, and the code that sets globals.

pub(crate) mod instructions;
pub(crate) mod parts;
pub(crate) mod ranges;
pub(crate) mod setting;
pub(crate) mod starting;
