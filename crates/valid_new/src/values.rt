ghost use Rattle.wasm_ast.specs.declared.module.ty.Ty.TheVariants.{I32};
ghost use Rattle.typed_trees.specs.Forms.{is_of_kind};
ghost use Rattle.typed_trees.specs.Matching.{matches};

use crate::types::{is_plain_type, is_reference_type, matches};
use typing_kit::{Kind, ValueTypes};
use wasm_ast::module::Ty;

/// The value types of 3.0.
pub struct Values;

impl ValueTypes for Values {
    type Type = Ty;

    ghost sub = { matches };

    ghost of_kind = { is_of_kind };

    ghost condition = { I32 };

    fn matches(given: Ty, wanted: Ty) -> bool {
        matches(given, wanted)
    }

    fn is_of_kind(kind: Kind, given: Ty) -> bool {
        match kind {
            Kind::Every => true,
            Kind::Reference => is_reference_type(given),
            Kind::Plain => is_plain_type(given),
        }
    }

    fn condition() -> Ty {
        Ty::I32
    }
}
