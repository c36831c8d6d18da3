// Comes in: a module of 3.0. Goes out: the same parts and bodies, without sign extensions.
// Each extension of the lowest bits of an integer becomes a shift to the left and one back, which copies the sign.
// Assumed: nothing beside that the module is typed, so that no constant expression extends a sign.
// Right because: the two shifts do to any operands what the extension does, in no turn as it does, so every body is the
// same function as before.

ghost use Rattle.std.specs.Prelude.{◌≡◌, ◌≤◌, ◌++◌, [], ◌∷◌, true, IsTrue, IfOk, OnOk};
ghost use Rattle.wasm_ast.specs.declared.module.code.Instr.TheVariants.{Pure};
ghost use Rattle.typed_trees.specs.Operands.{int_type};
ghost use Rattle.typed_trees.specs.Typed.{module_of};
ghost use Rattle.rewriting_kit.specs.Rewrites.{Stays, node_of};
ghost use Rattle.pass_law.specs.Law.{Law};
ghost use Rattle.pass_law.specs.Needs.{needs_of};
ghost use Rattle.pass_law.specs.Stages.{Stage};
ghost use Rattle.pass_plain.specs.Bodies.{no_entry};
ghost use Rattle.pass_plain.specs.Plans.{sign_plan, sign_lawful};
ghost use Rattle.pass_plain.specs.Shifts.{constant, shift, extend, by_shifts};

use crate::bodies::rewrite_functions;
use num_core::operators::{Bin, Conv, Width};
use pass_law::{Pass, Settings};
use rewriting_kit::{Rewriting, keep};
use sqlite_items::Items;
use std::alloc::{AllocError, Global};
use typed_trees::{Nodes, Signature, TypedModule};
use wasm_ast::module::{Instr, Op, Ty};

/// The stage that writes sign extension by shifts.
#[derive(Clone, Copy)]
pub struct Sign;

impl Rewriting<()> for Sign {
    ghost entry = { λ s. no_entry };

    ghost layer = { λ s. by_shifts };

    fn entry(&self, _head: &Instr) -> ()
        ensures { result ≡ no_entry _head.now }
    {}

    fn stays(&self, head: &Instr) -> bool
        ensures { IsTrue result → Stays by_shifts head.now }
    {
        match head {
            Instr::Pure(Op::Convert(op)) => matches!(op, Conv::Wrap | Conv::Ext32S | Conv::Ext32U),
            _ => true,
        }
    }

    fn layer(
        &self,
        alloc: Global,
        _around: &[()],
        head: Instr,
        types: Signature,
        first: Nodes,
        second: Nodes,
        out: &mut Nodes,
    ) -> Result<(), AllocError>
        ensures { OnOk result (out.new ≡ out.old ++ by_shifts _around.now head types.0 types.1 first second) }
    {
        match head {
            Instr::Pure(Op::Convert(Conv::S8of32)) => put_shifts(alloc, Width::W32, 24, out),
            Instr::Pure(Op::Convert(Conv::S16of32)) => put_shifts(alloc, Width::W32, 16, out),
            Instr::Pure(Op::Convert(Conv::S8of64)) => put_shifts(alloc, Width::W64, 56, out),
            Instr::Pure(Op::Convert(Conv::S16of64)) => put_shifts(alloc, Width::W64, 48, out),
            Instr::Pure(Op::Convert(Conv::S32of64)) => put_shifts(alloc, Width::W64, 32, out),
            _ => keep(alloc, head, types, first, second, out),
        }
    }
}

/// A constant of the width.
fn constant(width: Width, bits: u32) -> Op
    ensures { result ≡ constant width bits }
{
    match width {
        Width::W32 => Op::I32Const(bits),
        Width::W64 => Op::I64Const(bits as u64),
    }
}

/// The type of the width.
fn type_of(width: Width) -> Ty
    ensures { result ≡ int_type width }
{
    match width {
        Width::W32 => Ty::I32,
        Width::W64 => Ty::I64,
    }
}

/// Puts the shifts to the left and back by so many bits behind other nodes.
fn put_shifts(alloc: Global, width: Width, bits: u32, out: &mut Nodes) -> Result<(), AllocError>
    ensures { OnOk result (out.new ≡ out.old ++ extend width bits) }
{
    put_shift(alloc, width, bits, Bin::Shl, out)?;
    put_shift(alloc, width, bits, Bin::ShrS, out)
}

/// Puts a shift by so many bits behind other nodes.
fn put_shift(
    alloc: Global,
    width: Width,
    bits: u32,
    op: Bin,
    out: &mut Nodes,
) -> Result<(), AllocError>
    ensures { OnOk result (out.new ≡ out.old ++ shift width bits op) }
{
    let ty = type_of(width);
    put(alloc, constant(width, bits), &[], &[ty], out)?;
    put(alloc, Op::Binary(width, op), &[ty, ty], &[ty], out)
}

/// Puts an instruction on operands alone behind other nodes.
fn put(alloc: Global, op: Op, takes: &[Ty], gives: &[Ty], out: &mut Nodes) -> Result<(), AllocError>
    ensures { OnOk result (out.new ≡ out.old ++ node_of (Pure op) takes.now gives.now [] [] ∷ []) }
{
    let types = Signature::new(alloc, takes, gives)?;
    let none = Items::new(alloc);
    keep(alloc, Instr::Pure(op), types, Items::new(alloc), none, out)
}

impl Pass for Sign {
    ghost plan = { sign_plan };

    fn lower_owned(
        &self,
        alloc: Global,
        m: TypedModule,
        settings: &Settings,
    ) -> Result<TypedModule, AllocError>
        requires takes { sign_plan.takes (needs_of (module_of m)) ≡ true }
        requires stage { Stage (module_of m) }
        requires least { 1 ≤ settings.now.captures }
        requires most { settings.now.captures ≤ 16384 }
        ensures law { IfOk result (λ o. Law sign_plan (module_of m) (module_of o) settings.now.captures) }
    {
        let (part, fns) = m.into_tree();
        let fns = rewrite_functions(alloc, self, fns)?;
        Ok(TypedModule::build(part, fns))
    }

    ghost lawful = { sign_lawful };
}
