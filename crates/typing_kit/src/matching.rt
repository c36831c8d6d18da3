ghost use Rattle.std.specs.Prelude.{◌≡◌, reverse};
ghost use Rattle.typing_kit.specs.Stack.{meets, fit};

use crate::operand::Operand;
use crate::value_types::ValueTypes;

/// Whether the operand may stand where the type is asked for.
pub fn meets<V: ValueTypes>(operand: Operand<V::Type>, wanted: V::Type) -> bool
    ensures { result ≡ meets V.sub operand wanted }
{
    match operand {
        Operand::Known(given) => V::matches(given, wanted),
        Operand::Bottom => true,
    }
}

/// Whether the topmost operands may stand where the types are asked for. Where nothing reaches this place, operands that
/// lack are there.
pub fn fit<V: ValueTypes>(dead: bool, operands: &[Operand<V::Type>], wanted: &[V::Type]) -> bool
    ensures { result ≡ fit V.sub dead (reverse operands.now) (reverse wanted.now) }
{
    for k in 0..wanted.len() {
        if k >= operands.len() {
            return dead;
        }
        if !meets::<V>(
            operands[operands.len() - 1 - k],
            wanted[wanted.len() - 1 - k],
        ) {
            return false;
        }
    }
    true
}
