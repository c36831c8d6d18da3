use core1_ast::module::Ty1;

/// So many locals of one type (the standard's "Code Section").
#[derive(Clone, Copy, Debug, PartialEq, Eq)]
pub struct LocalGroup1 {
    /// How many locals.
    pub count: u32,
    /// The type of each.
    pub ty: Ty1,
}
