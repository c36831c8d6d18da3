// What the bodies of a module show, gathered in one walk: one question of the code serves all that is asked of it later.

ghost use Rattle.std.specs.Prelude.{◌≡◌, ◌||◌, false};
ghost use Rattle.wasm_ast.specs.declared.module.code.Instr.{out-Instr};
ghost use Rattle.wasm_ast.specs.Occurrence.{head_of, inside};
ghost use Rattle.wasm_ast.specs.Features.{shows};
ghost use Rattle.wasm_ast.specs.Kept.{uses_table};
ghost use Rattle.wasm_ast.specs.Facts.{is_memory_init, is_plain, is_plain_op, facts_of, with_head, with_instr, with_code, with_bodies};

use crate::features::{Feature, Shows};
use crate::kept::UsesTable;
use crate::module::{Body, Instr, Module, Op};
use crate::occurrence::InstrTest;
use num_core::operators::Conv;

/// What some code shows: the features that an instruction can show, and two more facts.
#[derive(Clone, Copy, Default)]
pub struct Facts {
    /// An instruction shows `Feature::Floats`.
    pub floats: bool,
    /// An instruction shows `Feature::Sign`.
    pub sign: bool,
    /// An instruction shows `Feature::Multi`.
    pub multi: bool,
    /// An instruction shows `Feature::TypedSelect`.
    pub typed_select: bool,
    /// An instruction shows `Feature::Simd`.
    pub simd: bool,
    /// An instruction shows `Feature::LateLanes`.
    pub late_lanes: bool,
    /// An instruction shows `Feature::Tail`.
    pub tail: bool,
    /// An instruction shows `Feature::Refs`.
    pub refs: bool,
    /// An instruction shows `Feature::Tables`.
    pub tables: bool,
    /// An instruction shows `Feature::Exceptions`.
    pub exceptions: bool,
    /// An instruction shows `Feature::Bulk`.
    pub bulk: bool,
    /// An instruction other than an indirect call uses table 0.
    pub table_use: bool,
    /// A memory.init.
    pub memory_init: bool,
}

/// The test of memory.init.
#[derive(Clone, Copy)]
pub struct IsMemoryInit;

impl InstrTest for IsMemoryInit {
    ghost test = { λ s. is_memory_init };

    fn passes(&self, instr: &Instr) -> bool {
        matches!(instr, Instr::MemoryInit(_, _))
    }
}

/// What the bodies of the module show, code that cannot be reached included. It is one walk over the code.
#[tactic(auto, using(crate::proofs::Noting::bodies_shown))]
pub fn facts_of(m: &Module) -> Facts
    ensures { result ≡ facts_of m.now }
{
    let mut facts = Facts::default();
    note_bodies(m.codes.as_slice(), &mut facts);
    facts
}

#[tactic(auto, using(std::proofs::lemmas::Grind::common_steps, crate::proofs::Noting::noting))]
fn note_bodies(bodies: &[Body], facts: &mut Facts)
    ensures { facts.new ≡ with_bodies bodies.now facts.old }
{
    for body in bodies {
        note_code(body.code.as_slice(), facts);
    }
}

#[cycle(noting)]
#[tactic(auto, using(std::proofs::lemmas::Grind::common_steps, crate::proofs::Noting::noting))]
fn note_code(code: &[Instr], facts: &mut Facts)
    ensures { facts.new ≡ with_code code.now facts.old }
{
    for instr in code {
        note_instr(instr, facts);
    }
}

#[cycle(noting)]
#[tactic(auto, using(std::proofs::lemmas::Grind::common_steps, crate::proofs::Noting::noting))]
fn note_instr(instr: &Instr, facts: &mut Facts)
    ensures { facts.new ≡ with_instr instr.now facts.old }
{
    note_head(instr, facts);
    note_inside(instr, facts);
}

#[cycle(noting)]
#[tactic(auto, using(std::proofs::lemmas::Grind::common_steps, crate::proofs::Noting::noting))]
fn note_inside(instr: &Instr, facts: &mut Facts)
    ensures { facts.new ≡ with_code (inside (out-Instr instr.now)) facts.old }
{
    match instr {
        Instr::Block(_, code) | Instr::Loop(_, code) | Instr::TryTable(_, _, code) => {
            note_code(code.as_slice(), facts);
        }
        Instr::If(_, first, second) => {
            note_code(first.as_slice(), facts);
            note_code(second.as_slice(), facts);
        }
        _ => {}
    }
}

/// Notes what the instruction shows, whatever its bodies hold.
#[tactic(auto, using(crate::proofs::Noting::plain_shows_none))]
fn note_head(instr: &Instr, facts: &mut Facts)
    ensures { facts.new ≡ with_head (head_of instr.now) facts.old }
{
    if !is_plain(instr) {
        *facts = with_head(instr, facts);
    }
}

/// The facts, and what the instruction shows.
#[tactic(auto, unfolding(crate::specs::Facts::with_head))]
fn with_head(instr: &Instr, facts: &Facts) -> Facts
    ensures { result ≡ with_head (head_of instr.now) facts.now }
{
    Facts {
        floats: shows_or(instr, Feature::Floats, facts.floats),
        sign: shows_or(instr, Feature::Sign, facts.sign),
        multi: shows_or(instr, Feature::Multi, facts.multi),
        typed_select: shows_or(instr, Feature::TypedSelect, facts.typed_select),
        simd: shows_or(instr, Feature::Simd, facts.simd),
        late_lanes: shows_or(instr, Feature::LateLanes, facts.late_lanes),
        tail: shows_or(instr, Feature::Tail, facts.tail),
        refs: shows_or(instr, Feature::Refs, facts.refs),
        tables: shows_or(instr, Feature::Tables, facts.tables),
        exceptions: shows_or(instr, Feature::Exceptions, facts.exceptions),
        bulk: shows_or(instr, Feature::Bulk, facts.bulk),
        table_use: uses_table_or(instr, facts.table_use),
        memory_init: is_memory_init_or(instr, facts.memory_init),
    }
}

fn shows_or(instr: &Instr, feature: Feature, before: bool) -> bool
    ensures { result ≡ (shows feature (head_of instr.now) || before) }
{
    Shows { feature }.passes(instr) || before
}

fn uses_table_or(instr: &Instr, before: bool) -> bool
    ensures { result ≡ (uses_table (head_of instr.now) || before) }
{
    UsesTable.passes(instr) || before
}

fn is_memory_init_or(instr: &Instr, before: bool) -> bool
    ensures { result ≡ (is_memory_init (head_of instr.now) || before) }
{
    IsMemoryInit.passes(instr) || before
}

/// Whether the instruction shows nothing, whatever its immediates are: most instructions of most modules.
fn is_plain(instr: &Instr) -> bool
    ensures { result ≡ is_plain (head_of instr.now) }
{
    match instr {
        Instr::LocalGet(_)
        | Instr::LocalSet(_)
        | Instr::LocalTee(_)
        | Instr::GlobalGet(_)
        | Instr::GlobalSet(_)
        | Instr::Load(_, _)
        | Instr::Store(_, _)
        | Instr::MemorySize(_)
        | Instr::MemoryGrow(_) => true,
        Instr::Unreachable
        | Instr::Nop
        | Instr::Br(_)
        | Instr::BrIf(_)
        | Instr::BrTable(_, _)
        | Instr::Return
        | Instr::Call(_)
        | Instr::CallIndirect(_, _)
        | Instr::Drop
        | Instr::Select => true,
        Instr::Pure(op) => is_plain_op(*op),
        _ => false,
    }
}

fn is_plain_op(op: Op) -> bool
    ensures { result ≡ is_plain_op op }
{
    matches!(
        op,
        Op::I32Const(_)
            | Op::I64Const(_)
            | Op::Eqz(_)
            | Op::Compare(_, _)
            | Op::Unary(_, _)
            | Op::Binary(_, _)
            | Op::Convert(Conv::Wrap | Conv::Ext32S | Conv::Ext32U)
    )
}
