// Which value types show which feature.

ghost use Rattle.std.specs.Prelude.{◌≡◌};
ghost use Rattle.std.specs.List.{list_any};
ghost use Rattle.wasm_ast.specs.Features.{type_shows, is_reference};

use super::kind::Feature;
use crate::module::Ty;

/// Whether the type shows the feature.
#[tactic(auto, unfolding(crate::specs::Features::type_shows))]
pub fn type_shows(ty: Ty, feature: Feature) -> bool
    ensures { result ≡ type_shows feature ty }
{
    match feature {
        Feature::Floats => matches!(ty, Ty::F32 | Ty::F64),
        Feature::Simd => matches!(ty, Ty::V128),
        Feature::Refs => matches!(ty, Ty::Func | Ty::Extern),
        Feature::Exceptions => matches!(ty, Ty::Exn),
        _ => false,
    }
}

/// Whether one of the types shows the feature.
pub fn types_show(types: &[Ty], feature: Feature) -> bool
    ensures { result ≡ list_any (type_shows feature) types.now }
{
    types.iter().any(|ty| type_shows(*ty, feature))
}

/// Whether the type is a reference type.
pub fn is_reference(ty: Ty) -> bool
    ensures { result ≡ is_reference ty }
{
    matches!(ty, Ty::Func | Ty::Extern | Ty::Exn)
}
