// Plain instructions on the stacks of a machine, a class of them in each function.
ghost use Rattle.meaning_new.specs.declared.val.Val.{Val};
ghost use Rattle.std.specs.Prelude.{◌≡◌, ℕ, List, [], ◌∷◌, slice_index_or, IfOk};
ghost use Rattle.wasm_ast.specs.declared.module.code.Instr.{out-Instr};
ghost use Rattle.wasm_ast.specs.declared.module.parts.Module.{Module};
ghost use Rattle.typed_trees.specs.Typed.{module_of};
ghost use Rattle.evaluation_kit.specs.Leaves.{top, below, on_operands};
ghost use Rattle.meaning_new.specs.Store as states;
ghost use Rattle.meaning_new.specs.Numeric.{pure};
ghost use Rattle.meaning_new.specs.Store.{missing, with_store};
ghost use Rattle.run_kit.specs.Changes.{Changes};
ghost use Rattle.run_new.specs.States.{whole};
ghost use Rattle.run_new.specs.Leaves.{act, Settles, Ends, Stepped, IsOnLocals, IsParametric, IsJump, IsAccess, IsVectorAccess, IsRare, IsOnMemories, IsOnTables};

use crate::numeric::{
    binary_operator, comparison, conversion, pure, test_operator, unary_operator,
};
use crate::program::Program;
use crate::slot::{MISSING, Slot};
use crate::state::State;
use crate::store::Store;
use crate::throws::throw_ref;
use crate::values::{branch_if, branch_table, select};
use evaluation_kit::Jump;
use machine_kit::{Locals, Operands, Step};
use run_kit::Change;
use std::alloc::AllocError;
use wasm_ast::module::{Instr, Op};

/// The operand on the top.
#[inline(always)]
pub(crate) fn top(operands: &Operands<Slot>) -> Slot
    ensures { result ≡ top missing operands.now.used }
{
    operands.peek(0).unwrap_or(MISSING)
}

/// The operand below the top.
#[inline(always)]
pub(crate) fn next(operands: &Operands<Slot>) -> Slot
    ensures { result ≡ top missing (below operands.now.used) }
{
    operands.peek(1).unwrap_or(MISSING)
}

/// The operand below the two on the top.
#[inline(always)]
pub(crate) fn third(operands: &Operands<Slot>) -> Slot
    ensures { result ≡ top missing (below (below operands.now.used)) }
{
    operands.peek(2).unwrap_or(MISSING)
}

/// Makes a change to the operands. The answer is the jump by which the instruction ends, if it does not end at its end.
#[inline(always)]
fn settle(change: Change<Slot>, operands: &mut Operands<Slot>) -> Result<Option<Jump>, AllocError>
    ensures { IfOk result (λ jump. Settles change operands.old operands.new jump) }
{
    match change {
        Change::Take(count) => {
            operands.drop_top(count);
            Ok(None)
        }
        Change::Put(count, value) => {
            operands.put(count, value)?;
            Ok(None)
        }
        Change::Exit(count, jump) => {
            operands.drop_top(count);
            Ok(Some(jump))
        }
    }
}

/// Does an instruction, where it neither holds code nor calls a function. It fails for want of memory alone.
#[inline(always)]
pub(crate) fn plain<'s>(
    program: &Program,
    instr: &Instr,
    operands: &mut Operands<Slot>,
    locals: &mut Locals<Slot>,
    state: &mut State<'s>,
) -> Result<Step, AllocError>
    ensures { IfOk result (λ step. Stepped (module_of program.now) instr.now step operands.old locals.old state.old operands.new locals.new state.new) }
{
    match instr {
        Instr::Pure(op) => Ok(Step::done(pure_leaf(op, operands)?)),
        Instr::LocalGet(_) | Instr::LocalSet(_) | Instr::LocalTee(_) => {
            Ok(Step::done(local_leaf(instr, operands, locals)?))
        }
        Instr::GlobalGet(_) | Instr::GlobalSet(_) | Instr::Load(_, _) | Instr::Store(_, _) => {
            Ok(Step::done(access_leaf(instr, operands, &mut state.store)?))
        }
        Instr::Drop | Instr::Select | Instr::SelectTyped(_) | Instr::Nop => {
            Ok(Step::done(parametric_leaf(instr, operands)?))
        }
        Instr::Unreachable
        | Instr::Br(_)
        | Instr::BrIf(_)
        | Instr::BrTable(_, _)
        | Instr::Return
        | Instr::ReturnCall(_)
        | Instr::Float(_, _) => Ok(Step::done(jump_leaf(instr, operands)?)),
        Instr::Block(_, _)
        | Instr::Loop(_, _)
        | Instr::If(_, _, _)
        | Instr::TryTable(_, _, _)
        | Instr::Call(_)
        | Instr::CallIndirect(_, _) => Ok(Step::Form),
        Instr::LoadVector(_, _)
        | Instr::StoreVector(_)
        | Instr::LoadLane(_, _, _)
        | Instr::StoreLane(_, _, _) => {
            Ok(Step::done(vector_leaf(instr, operands, &mut state.store)?))
        }
        Instr::ReturnCallIndirect(_, _)
        | Instr::Throw(_)
        | Instr::ThrowRef
        | Instr::MemoryGrow(_)
        | Instr::TableGrow(_)
        | Instr::MemorySize(_)
        | Instr::MemoryFill(_)
        | Instr::MemoryCopy(_, _)
        | Instr::MemoryInit(_, _)
        | Instr::DataDrop(_)
        | Instr::TableGet(_)
        | Instr::TableSet(_)
        | Instr::TableSize(_)
        | Instr::TableFill(_)
        | Instr::TableCopy(_, _)
        | Instr::TableInit(_, _)
        | Instr::ElemDrop(_) => Ok(Step::done(rare_leaf(program, instr, operands, state)?)),
    }
}

/// Does an instruction on operands alone. One on integers reads no more operands than it takes, since most of the time of
/// a run goes into these.
#[inline(always)]
fn pure_leaf(op: &Op, operands: &mut Operands<Slot>) -> Result<Option<Jump>, AllocError>
    ensures { (l : List Val) (s : states.State) → IfOk result (λ jump. Ends (on_operands (pure op.now)) operands.old l s operands.new l s jump) }
{
    match op {
        Op::I32Const(i) => settle(Change::Put(0, Slot::i32(*i)), operands),
        Op::I64Const(i) => settle(Change::Put(0, Slot::i64(*i)), operands),
        Op::Eqz(width) => {
            let change = test_operator(*width, top(operands));
            settle(change, operands)
        }
        Op::Compare(width, op) => {
            let change = comparison(*width, *op, top(operands), next(operands));
            settle(change, operands)
        }
        Op::Unary(width, op) => {
            let change = unary_operator(*width, *op, top(operands));
            settle(change, operands)
        }
        Op::Binary(width, op) => {
            let change = binary_operator(*width, *op, top(operands), next(operands));
            settle(change, operands)
        }
        Op::Convert(op) => {
            let change = conversion(*op, top(operands));
            settle(change, operands)
        }
        other => {
            let change = pure(*other, top(operands), next(operands), third(operands));
            settle(change, operands)
        }
    }
}

/// Does an instruction on locals.
#[inline(always)]
fn local_leaf(
    instr: &Instr,
    operands: &mut Operands<Slot>,
    locals: &mut Locals<Slot>,
) -> Result<Option<Jump>, AllocError>
    requires { IsOnLocals (out-Instr instr.now) }
    ensures act { (m : Module) (s : states.State) → IfOk result (λ jump. Ends (act m instr.now) operands.old locals.old.used s operands.new locals.new.used s jump) }
    ensures aside { locals.new.aside ≡ locals.old.aside }
{
    match instr {
        Instr::LocalGet(index) => settle(Change::Put(0, local(locals, *index)), operands),
        Instr::LocalSet(index) => {
            locals.set(*index as usize, top(operands));
            settle(Change::Take(1), operands)
        }
        Instr::LocalTee(index) => {
            locals.set(*index as usize, top(operands));
            Ok(None)
        }
        _ => Ok(None),
    }
}

/// The local with this index.
#[inline(always)]
fn local(locals: &Locals<Slot>, index: u32) -> Slot
    ensures { result ≡ slice_index_or locals.now.used index missing }
{
    match locals.get(index as usize) {
        Some(value) => value,
        None => MISSING,
    }
}

/// Does drop, select or nop.
#[inline(always)]
fn parametric_leaf(instr: &Instr, operands: &mut Operands<Slot>) -> Result<Option<Jump>, AllocError>
    requires { IsParametric (out-Instr instr.now) }
    ensures { (m : Module) (l : List Val) (s : states.State) → IfOk result (λ jump. Ends (act m instr.now) operands.old l s operands.new l s jump) }
{
    match instr {
        Instr::Drop => settle(Change::Take(1), operands),
        Instr::Select | Instr::SelectTyped(_) => {
            let change = select(top(operands), next(operands), third(operands));
            settle(change, operands)
        }
        _ => Ok(None),
    }
}

/// Does a plain instruction of control.
#[inline(always)]
fn jump_leaf(instr: &Instr, operands: &mut Operands<Slot>) -> Result<Option<Jump>, AllocError>
    requires { IsJump (out-Instr instr.now) }
    ensures { (m : Module) (l : List Val) (s : states.State) → IfOk result (λ jump. Ends (act m instr.now) operands.old l s operands.new l s jump) }
{
    match instr {
        Instr::Br(label) => Ok(Some(Jump::Branch(*label))),
        Instr::BrIf(label) => {
            let change = branch_if(*label, top(operands));
            settle(change, operands)
        }
        Instr::BrTable(labels, last) => {
            let change = branch_table(labels.as_slice(), *last, top(operands));
            settle(change, operands)
        }
        Instr::Return => Ok(Some(Jump::Return)),
        Instr::ReturnCall(func) => Ok(Some(Jump::TailCall(*func))),
        _ => Ok(Some(Jump::Trap)),
    }
}

/// Does an access to globals, or one of integers to memories.
fn access_leaf(
    instr: &Instr,
    operands: &mut Operands<Slot>,
    store: &mut Store,
) -> Result<Option<Jump>, AllocError>
    requires { IsAccess (out-Instr instr.now) }
    ensures { (m : Module) (l : List Val) (s : states.State) → IfOk result (λ jump. Ends (act m instr.now) operands.old l (with_store store.old s) operands.new l (with_store store.new s) jump) }
{
    match instr {
        Instr::GlobalGet(global) => settle(store.global_get(*global), operands),
        Instr::GlobalSet(global) => {
            let change = store.global_set(*global, top(operands));
            settle(change, operands)
        }
        Instr::Load(op, at) => {
            let change = store.load(*op, *at, top(operands));
            settle(change, operands)
        }
        Instr::Store(op, at) => {
            let change = store.store(*op, *at, top(operands), next(operands));
            settle(change, operands)
        }
        _ => Ok(None),
    }
}

/// Does an access of vectors to memories.
#[inline(never)]
fn vector_leaf(
    instr: &Instr,
    operands: &mut Operands<Slot>,
    store: &mut Store,
) -> Result<Option<Jump>, AllocError>
    requires { IsVectorAccess (out-Instr instr.now) }
    ensures { (m : Module) (l : List Val) (s : states.State) → IfOk result (λ jump. Ends (act m instr.now) operands.old l (with_store store.old s) operands.new l (with_store store.new s) jump) }
{
    let (top, next) = (top(operands), next(operands));
    let change = match instr {
        Instr::LoadVector(op, at) => store.load_vector(*op, *at, top),
        Instr::StoreVector(at) => store.store_vector(*at, top, next),
        Instr::LoadLane(shape, at, lane) => store.load_lane(*shape, *at, *lane, top, next),
        Instr::StoreLane(shape, at, lane) => store.store_lane(*shape, *at, *lane, top, next),
        _ => Change::Take(0),
    };
    settle(change, operands)
}

/// Does an instruction of the others: those take more than constant time, or are few.
#[inline(never)]
fn rare_leaf<'s>(
    program: &Program,
    instr: &Instr,
    operands: &mut Operands<Slot>,
    state: &mut State<'s>,
) -> Result<Option<Jump>, AllocError>
    requires { IsRare (out-Instr instr.now) }
    ensures { (l : List Val) → IfOk result (λ jump. Ends (act (module_of program.now) instr.now) operands.old l (whole state.old) operands.new l (whole state.new) jump) }
{
    let change = rare(program, instr, operands, state)?;
    settle(change, operands)
}

/// What such an instruction does to the operands, after it has changed the state. It fails for want of memory alone.
fn rare<'s>(
    program: &Program,
    instr: &Instr,
    operands: &Operands<Slot>,
    state: &mut State<'s>,
) -> Result<Change<Slot>, AllocError>
    requires { IsRare (out-Instr instr.now) }
    ensures { (l : List Val) → IfOk result (λ change. Changes (act (module_of program.now) instr.now) operands.now l (whole state.old) change l (whole state.new)) }
{
    match instr {
        Instr::ReturnCallIndirect(ty, table) => {
            Ok(program.tail_call(*ty, *table, state, top(operands)))
        }
        Instr::Throw(tag) => {
            let count = program.tag_values(*tag);
            let change = state.store.throw(*tag, count, operands)?;
            Ok(change)
        }
        Instr::ThrowRef => Ok(throw_ref(top(operands))),
        Instr::MemoryGrow(memory) => state.memory_grow(*memory, top(operands)),
        Instr::TableGrow(table) => state.table_grow(*table, top(operands), next(operands)),
        Instr::MemorySize(_)
        | Instr::MemoryFill(_)
        | Instr::MemoryCopy(_, _)
        | Instr::MemoryInit(_, _)
        | Instr::DataDrop(_) => {
            let change = memory_leaf(instr, operands, &mut state.store)?;
            Ok(change)
        }
        Instr::TableGet(_)
        | Instr::TableSet(_)
        | Instr::TableSize(_)
        | Instr::TableFill(_)
        | Instr::TableCopy(_, _)
        | Instr::TableInit(_, _)
        | Instr::ElemDrop(_) => {
            let change = table_leaf(instr, operands, &mut state.store)?;
            Ok(change)
        }
        _ => Ok(Change::Take(0)),
    }
}

/// What an instruction on the size of memories or on ranges of them does.
fn memory_leaf(
    instr: &Instr,
    operands: &Operands<Slot>,
    store: &mut Store,
) -> Result<Change<Slot>, AllocError>
    requires { IsOnMemories (out-Instr instr.now) }
    ensures { (m : Module) (l : List Val) (s : states.State) → IfOk result (λ change. Changes (act m instr.now) operands.now l (with_store store.old s) change l (with_store store.new s)) }
{
    let (top, next, third) = (top(operands), next(operands), third(operands));
    match instr {
        Instr::MemorySize(memory) => Ok(store.memory_size(*memory)),
        Instr::MemoryFill(memory) => Ok(store.memory_fill(*memory, top, next, third)),
        Instr::MemoryCopy(to, from) => store.memory_copy(*to, *from, top, next, third),
        Instr::MemoryInit(segment, memory) => {
            Ok(store.memory_init(*segment, *memory, top, next, third))
        }
        Instr::DataDrop(segment) => Ok(store.data_drop(*segment)),
        _ => Ok(Change::Take(0)),
    }
}

/// What an instruction on tables does.
fn table_leaf(
    instr: &Instr,
    operands: &Operands<Slot>,
    store: &mut Store,
) -> Result<Change<Slot>, AllocError>
    requires { IsOnTables (out-Instr instr.now) }
    ensures { (m : Module) (l : List Val) (s : states.State) → IfOk result (λ change. Changes (act m instr.now) operands.now l (with_store store.old s) change l (with_store store.new s)) }
{
    let (top, next, third) = (top(operands), next(operands), third(operands));
    match instr {
        Instr::TableGet(table) => Ok(store.table_get(*table, top)),
        Instr::TableSet(table) => Ok(store.table_set(*table, top, next)),
        Instr::TableSize(table) => Ok(store.table_size(*table)),
        Instr::TableFill(table) => Ok(store.table_fill(*table, top, next, third)),
        Instr::TableCopy(to, from) => store.table_copy(*to, *from, top, next, third),
        Instr::TableInit(segment, table) => {
            Ok(store.table_init(*segment, *table, top, next, third))
        }
        Instr::ElemDrop(segment) => Ok(store.elem_drop(*segment)),
        _ => Ok(Change::Take(0)),
    }
}
