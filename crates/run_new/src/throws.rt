// Exceptions (the standard's "Control Instructions": throw, throw_ref, try_table).
ghost use Rattle.std.specs.Prelude.{◌≡◌, ◌++◌, ◌==◌, List, [], ◌∷◌, reverse, find, IfOk, OnOk};
ghost use Rattle.meaning_new.specs.Store as states;
ghost use Rattle.meaning_new.specs.Store.{with_store};
ghost use Rattle.meaning_new.specs.Exceptions.{throw, throw_ref, takes, handler};
ghost use Rattle.machine_kit.specs.Heads.{Handled};
ghost use Rattle.run_kit.specs.Changes.{Changes};
ghost use Rattle.run_kit.specs.Narrowing.{part_handler};
ghost use Rattle.run_new.specs.Leaves.{Does};
ghost use Rattle.run_new.specs.States.{unbounded};

use crate::exception::Exception;
use crate::slot::Slot;
use crate::state::State;
use crate::store::Store;
use evaluation_kit::Jump;
use machine_kit::Operands;
use meaning_new::Val;
use run_kit::Change;
use std::alloc::AllocError;
use wasm_ast::module::Catch;

impl<'a> Store<'a> {
    /// What throw does: a new exception of the tag with so many operands. It fails for want of memory, and so it does
    /// where 2^32 exceptions were made before.
    pub fn throw(
        &mut self,
        tag: u32,
        count: usize,
        operands: &Operands<Slot>,
    ) -> Result<Change<Slot>, AllocError>
        ensures { IfOk result (λ change. (locals : List Val) (s : states.State) → Changes (throw tag count) operands.now locals (with_store self.old s) change locals (with_store self.new s)) }
    {
        let number = u32::try_from(self.exceptions.len()).map_err(|_| AllocError)?;
        let exception = Exception::new(self.alloc, tag, operands.top(count))?;
        self.exceptions.push(exception)?;
        Ok(Change::Exit(count, Jump::Throw(number)))
    }
}

/// What throw_ref does: the exception to which the operand refers is thrown again, and null traps.
pub(crate) fn throw_ref(top: Slot) -> Change<Slot>
    ensures { (s : states.State) → Does throw_ref (top ∷ []) s result s }
{
    match top.value() {
        Val::Exn(exception) => Change::Exit(1, Jump::Throw(exception)),
        _ => Change::Exit(1, Jump::Trap),
    }
}

impl<'a> State<'a> {
    /// Takes an exception by the first of the clauses that takes it: its values, and the exception where the clause asks
    /// for it, lie on the operands. The answer is the branch to the label of the clause, or none where no clause takes
    /// it. It fails for want of memory alone.
    pub fn catch(
        &mut self,
        clauses: &[Catch],
        exception: u32,
        operands: &mut Operands<Slot>,
    ) -> Result<Option<Jump>, AllocError>
        ensures { IfOk result (λ jump. Handled (part_handler unbounded (handler clauses.now)) exception operands.old self.old operands.new self.new jump) }
    {
        let Some(thrown) = self.store.exception(exception) else {
            return Ok(None);
        };
        match taking(clauses, thrown.tag()) {
            None => Ok(None),
            Some(Catch::Tag(_, label)) => {
                put_all(operands, thrown.values())?;
                Ok(Some(Jump::Branch(label)))
            }
            Some(Catch::TagRef(_, label)) => {
                put_all(operands, thrown.values())?;
                operands.push(Slot::exn(exception))?;
                self.tell_capture()?;
                Ok(Some(Jump::Branch(label)))
            }
            Some(Catch::All(label)) => {
                operands.clear();
                Ok(Some(Jump::Branch(label)))
            }
            Some(Catch::AllRef(label)) => {
                operands.clear();
                operands.push(Slot::exn(exception))?;
                self.tell_capture()?;
                Ok(Some(Jump::Branch(label)))
            }
        }
    }
}

/// The first clause that takes exceptions of a tag, if one does.
fn taking(clauses: &[Catch], tag: u32) -> Option<Catch>
    ensures { result ≡ find (takes tag) clauses.now }
{
    for clause in clauses {
        if takes(tag, *clause) {
            return Some(*clause);
        }
    }
    None
}

/// Whether a clause takes exceptions of a tag.
fn takes(tag: u32, clause: Catch) -> bool
    ensures { result ≡ takes tag clause }
{
    match clause {
        Catch::Tag(taken, _) | Catch::TagRef(taken, _) => tag == taken,
        Catch::All(_) | Catch::AllRef(_) => true,
    }
}

/// Puts values in the place of all operands in use, the last one topmost.
pub(crate) fn put_all(operands: &mut Operands<Slot>, values: &[Slot]) -> Result<(), AllocError>
    ensures { OnOk result (operands.new ≡ record operands.old { used = reverse values.now }) }
{
    operands.clear();
    for value in values {
        operands.push(*value)?;
    }
    Ok(())
}
