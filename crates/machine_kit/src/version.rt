ghost use Rattle.std.specs.Prelude.{◌≡◌, ◌++◌, IfOk, OnOk};
ghost use Rattle.machine_kit.specs.Acts.{Acts, Laws, test_of, handler_of, pick_of, zeros_of, host_of};
ghost use Rattle.machine_kit.specs.Heads.{HeadIs, TargetIs, StepIs, Hosted, Handled};

use crate::head::{Head, Step, Target};
use crate::locals::Locals;
use crate::operands::Operands;
use evaluation_kit::Jump;
use std::alloc::AllocError;

/// A language of instructions I over values V and a state S, as a machine runs it. `AllocError` comes for want of memory
/// alone.
pub trait Version<I, V, S> {
    /// The language.
    ghost acts: { Self → Acts I V S };

    /// The form of an instruction.
    fn head<'a>(&self, instr: &'a I) -> Head<'a, I>
        ensures { HeadIs ((acts self.now).form instr.now) result };

    /// Does an instruction, where it neither holds code nor calls a function.
    fn leaf(
        &self,
        instr: &I,
        operands: &mut Operands<V>,
        locals: &mut Locals<V>,
        state: &mut S,
    ) -> Result<Step, AllocError>
        ensures { IfOk result (λ step. StepIs ((acts self.now).form instr.now) step operands.old locals.old state.old operands.new locals.new state.new) };

    /// Whether the condition of a choice holds.
    fn test(&self, instr: &I, operands: &Operands<V>) -> bool
        ensures { result ≡ test_of ((acts self.now).form instr.now) operands.now.used };

    /// The function that the operands pick, or none, which traps.
    fn pick(&self, instr: &I, operands: &Operands<V>, locals: &Locals<V>, state: &S) -> Option<u32>
        ensures { result ≡ pick_of ((acts self.now).form instr.now) (record { operands = operands.now.used; locals = locals.now.used; state = state.now }) };

    /// Takes the exception of this number where the handler of the instruction takes it: the answer is how it leaves.
    /// Where there is none the operands and the state are as before.
    fn catch(
        &self,
        instr: &I,
        exception: u32,
        operands: &mut Operands<V>,
        state: &mut S,
    ) -> Result<Option<Jump>, AllocError>
        ensures { IfOk result (λ jump. Handled (handler_of ((acts self.now).form instr.now)) exception operands.old state.old operands.new state.new jump) };

    /// What the index of a function names.
    fn callee<'a>(&'a self, func: u32) -> Target<'a, I>
        ensures { TargetIs ((acts self.now).callee func) result };

    /// Puts behind the parameters what the further locals of a function begin with.
    fn zeros(&self, func: u32, locals: &mut Locals<V>) -> Result<(), AllocError>
        ensures { OnOk result (locals.new ≡ record locals.old { used = locals.old.used ++ zeros_of ((acts self.now).callee func) }) };

    /// Calls a function of the host's, which takes all operands in use.
    fn host(
        &self,
        func: u32,
        operands: &mut Operands<V>,
        state: &mut S,
    ) -> Result<Option<Jump>, AllocError>
        ensures { IfOk result (λ jump. Hosted (host_of ((acts self.now).callee func)) operands.old state.old operands.new state.new jump) };

    /// The language is as the machine takes it to be.
    ghost laws: { (p : Self) → Laws (acts p) };
}
