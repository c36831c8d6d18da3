ghost use Rattle.std.specs.Prelude.{◌≡◌, Bool, List};
ghost use Rattle.grammar_kit.specs.Form.{Form};
ghost use Rattle.grammar_kit.specs.Gives.{Gives};
ghost use Rattle.nested_code.specs.declared.token.Token.{Token};

use crate::token::Token;
use grammar_kit::FormError;
use sqlite_items::Items;
use std::alloc::Global;

/// The instructions of a version of WebAssembly, and how each is spelled by itself.
pub trait Language {
    /// An instruction, with the code that it holds.
    type Instr: Drop;

    /// The opcode and the immediates of an instruction that holds code.
    type Head: Drop;

    /// Which bytes spell a token.
    ghost token: { Form (Token Self.Instr Self.Head) };

    /// Whether an else may stand in the code of the instruction.
    ghost has_arms: { Self.Head → Bool };

    /// Whether an instruction that holds no code has the mark that is asked for while code is measured.
    ghost marks: { Self.Instr → Bool };

    /// The instruction of a head, its code, and its second arm, which is empty where it has none.
    ghost build: { Self.Head → List Self.Instr → List Self.Instr → Self.Instr };

    /// The token at the front, and the bytes after it. `Malformed` where no front of the bytes spells a token.
    fn token(
        alloc: Global,
        bytes: &[u8],
    ) -> Result<(Token<Self::Instr, Self::Head>, &[u8]), FormError>
        ensures { Gives (λ p. (p.0, p.1.now)) result (token.read bytes.now) };

    /// Whether an else may stand in the code of the instruction.
    fn has_arms(head: &Self::Head) -> bool
        ensures { result ≡ has_arms head.now };

    /// Whether an instruction that holds no code has the mark.
    fn marks(instr: &Self::Instr) -> bool
        ensures { result ≡ marks instr.now };

    /// The instruction of a head, its code, and its second arm.
    fn build(head: Self::Head, first: Items<Self::Instr>, second: Items<Self::Instr>) -> Self::Instr
        ensures { result ≡ build head first second };
}
