use wasm_ast::module::Ty;

/// The type of a global (the standard's "Global Types").
#[derive(Clone, Copy)]
pub struct GlobalType {
    /// The type of its value.
    pub ty: Ty,
    /// Whether it can be changed.
    pub mutable: bool,
}
