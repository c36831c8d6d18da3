ghost use Rattle.std.specs.Prelude.{Bool};
ghost use Rattle.grammar_kit.specs.Gives.{Gives, GivesOption};
ghost use Rattle.code_new.specs.Code.{depths};
ghost use Rattle.read_new.specs.Types.{mutability};
ghost use Rattle.read_new.specs.Parts.{global};

use code_new::code::{measure_expr, read_expr};
use code_new::types::split_value_type;
use grammar_kit::{Entry, FormError, Measure, read_byte};
use std::alloc;
use wasm_ast::module::Global;

/// Whether a global can be changed, and the bytes after it ("Global Types" of the standard).
#[tactic(auto, unfolding(crate::specs::Types::mutability))]
pub fn split_mutability(bytes: &[u8]) -> Option<(bool, &[u8])>
    ensures { GivesOption (λ p. (p.0, p.1.now)) result (mutability.read bytes.now) }
{
    match read_byte(bytes)? {
        (0x00, rest) => Some((false, rest)),
        (0x01, rest) => Some((true, rest)),
        _ => None,
    }
}

/// An entry of the global section.
pub struct GlobalEntry;

impl Entry for GlobalEntry {
    type Value = Global;

    ghost form = { global };

    #[tactic(auto, unfolding(crate::specs::Parts::global))]
    fn entry(alloc: alloc::Global, bytes: &[u8]) -> Result<(Global, &[u8]), FormError> {
        let (ty, rest) = split_value_type(bytes).ok_or(FormError::Malformed)?;
        let (mutable, rest) = split_mutability(rest).ok_or(FormError::Malformed)?;
        let (init, rest) = read_expr(alloc, rest)?;
        Ok((Global { ty, mutable, init }, rest))
    }
}

/// How deeply instructions nest in the initial values of globals.
pub struct GlobalMeasure;

impl Measure for GlobalMeasure {
    type Value = Global;

    ghost form = { global };

    ghost size = { λ g. depths g.init };

    #[tactic(auto, unfolding(crate::specs::Parts::global))]
    fn measure(alloc: alloc::Global, bytes: &[u8]) -> Result<(u32, &[u8]), FormError> {
        let (_, rest) = split_value_type(bytes).ok_or(FormError::Malformed)?;
        let (_, rest) = split_mutability(rest).ok_or(FormError::Malformed)?;
        let (sizes, rest) = measure_expr(alloc, rest)?;
        Ok((sizes.nesting, rest))
    }
}
