// Tests of one instruction, asked of all that stand in code, however deep.

ghost use Rattle.std.specs.Prelude.{◌≡◌};
ghost use Rattle.wasm_ast.specs.Occurrence.{head_of, inside, some, some_in};
ghost use Rattle.wasm_ast.specs.declared.module.code.Instr.{out-Instr};

use crate::module::Instr;

/// A test of an instruction that does not look into its bodies.
pub trait InstrTest {
    ghost use Rattle.std.specs.Prelude.{Bool};
    ghost use Rattle.wasm_ast.specs.Occurrence.{Head};

    ghost test: { Self → Head → Bool };

    /// Whether the instruction passes.
    fn passes(&self, instr: &Instr) -> bool
        ensures { result ≡ test self.now (head_of instr.now) };
}

/// Whether the instruction, or one in its bodies, passes the test.
#[cycle(occurrence)]
#[tactic(auto, using(crate::proofs::Bodies::bodies))]
fn occurs_at<T: InstrTest>(test: &T, instr: &Instr) -> bool
    ensures { result ≡ some (T.test test.now) instr.now }
{
    test.passes(instr) || occurs_inside(test, instr)
}

/// Whether an instruction in the bodies of this one passes the test.
#[cycle(occurrence)]
#[tactic(auto, using(std::proofs::lemmas::Grind::common_steps, crate::proofs::Bodies::bodies))]
fn occurs_inside<T: InstrTest>(test: &T, instr: &Instr) -> bool
    ensures { result ≡ some_in (T.test test.now) (inside (out-Instr instr.now)) }
{
    match instr {
        Instr::Block(_, code) | Instr::Loop(_, code) | Instr::TryTable(_, _, code) => {
            occurs_in(test, code.as_slice())
        }
        Instr::If(_, first, second) => {
            occurs_in(test, first.as_slice()) || occurs_in(test, second.as_slice())
        }
        _ => false,
    }
}

/// Whether an instruction of the code, or one in their bodies, passes the test. It takes time linear in the code.
#[cycle(occurrence)]
pub fn occurs_in<T: InstrTest>(test: &T, code: &[Instr]) -> bool
    ensures { result ≡ some_in (T.test test.now) code.now }
{
    for instr in code {
        if occurs_at(test, instr) {
            return true;
        }
    }
    false
}
