ghost use Rattle.std.specs.Prelude.{◌≡◌, Bool};
ghost use Rattle.typing_kit.specs.declared.kind.Kind.{Kind};

use crate::kind::Kind;

/// The value types of a version of WebAssembly ("Value Types" and "Matching" of chapter 3).
pub trait ValueTypes {
    /// A value type.
    type Type: Copy;

    /// Whether a value of the first type may stand where one of the second is asked for.
    ghost sub: { Self.Type → Self.Type → Bool };

    /// Whether a value of the type is of the kind.
    ghost of_kind: { Kind → Self.Type → Bool };

    /// The type of a condition, i32.
    ghost condition: { Self.Type };

    /// Whether a value of the first type may stand where one of the second is asked for.
    fn matches(given: Self::Type, wanted: Self::Type) -> bool
        ensures { result ≡ sub given wanted };

    /// Whether a value of the type is of the kind.
    fn is_of_kind(kind: Kind, given: Self::Type) -> bool
        ensures { result ≡ of_kind kind given };

    /// The type of a condition, i32.
    fn condition() -> Self::Type
        ensures { result ≡ condition };
}
