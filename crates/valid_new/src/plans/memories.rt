// Instructions on memories.

ghost use Rattle.std.specs.Prelude.{◌≡◌, ◌≤◌, ◌||◌, nat_lt, nat_le, ◌^◌, option_map, slice_get};
ghost use Rattle.num_core.specs.Accesses.{load_bytes, load_width, store_bytes, store_width};
ghost use Rattle.lane_core.specs.Shapes.{lane_bytes, lane_count, lane_load_bytes};
ghost use Rattle.typing_kit.specs.Steps.{IsPlanOf};
ghost use Rattle.typed_trees.specs.Contexts.{address_type};
ghost use Rattle.typed_trees.specs.Forms.{form, is_access, accessed, lane_accessed, addressed};
ghost use Rattle.wasm_ast.specs.declared.module.code.Instr.{out-Instr};
ghost use Rattle.valid_new.specs.Groups.{group, IsPlanned};
ghost use Rattle.valid_new.specs.Scopes.{context_of, labels_of};

use crate::groups::Group;
use crate::scope::{Scope, memory_limits};
use crate::types::{address_of, addresses, int_type, one};
use crate::widths::{
    is_aligned, lane_bytes, lane_count, lane_load_bytes, load_bytes, load_width, store_bytes,
    store_width,
};
use lane_core::vector::Shape;
use typing_kit::Plan;
use wasm_ast::module::{Instr, Limits, MemArg, Ty};

/// The type of an address where the instruction reaches its memory, of which it touches so many bytes.
fn accessed(scope: Scope<'_>, arg: MemArg, bytes: u32) -> Option<Ty>
    requires { bytes ≤ 16 }
    ensures { result ≡ accessed (context_of scope.entry) arg bytes }
{
    match memory_limits(scope, arg.memory) {
        Some(limits) => {
            if is_access(limits, arg, bytes) {
                Some(address_of(limits.wide))
            } else {
                None
            }
        }
        None => None,
    }
}

/// Whether the alignment is at most the natural one, and the offset an address of the memory.
fn is_access(limits: Limits, arg: MemArg, bytes: u32) -> bool
    requires { bytes ≤ 16 }
    ensures { result ≡ is_access limits arg bytes }
{
    is_aligned(arg.align, bytes) && (limits.wide || arg.offset < 0x1_0000_0000)
}

/// The same of an access to one lane, where the shape has it.
fn lane_accessed(scope: Scope<'_>, shape: Shape, arg: MemArg, lane: u8) -> Option<Ty>
    ensures { result ≡ lane_accessed (context_of scope.entry) shape arg lane }
{
    if lane < lane_count(shape) {
        accessed(scope, arg, lane_bytes(shape))
    } else {
        None
    }
}

/// The type of an address of a memory.
fn addressed(scope: Scope<'_>, memory: u32) -> Option<Ty>
    ensures { result ≡ addressed (context_of scope.entry) memory }
{
    match memory_limits(scope, memory) {
        Some(limits) => Some(address_of(limits.wide)),
        None => None,
    }
}

/// The plan of an instruction on memories.
pub fn plan_of_memory<'a>(scope: Scope<'a>, labels: &[&'a [Ty]], instr: &'a Instr) -> Plan<'a, Ty>
    requires { group (out-Instr instr.now) ≡ Group.Memories }
    ensures { IsPlanned result (context_of scope.entry) (labels_of labels.now) instr.now }
{
    match instr {
        Instr::Load(op, arg) => match accessed(scope, *arg, load_bytes(*op)) {
            Some(address) => Plan::Flat(&[], Some(address), one(int_type(load_width(*op)))),
            None => Plan::Untyped,
        },
        Instr::Store(op, arg) => match accessed(scope, *arg, store_bytes(*op)) {
            Some(address) => Plan::Flat(one(address), Some(int_type(store_width(*op))), &[]),
            None => Plan::Untyped,
        },
        Instr::LoadVector(op, arg) => match accessed(scope, *arg, lane_load_bytes(*op)) {
            Some(address) => Plan::Flat(&[], Some(address), one(Ty::V128)),
            None => Plan::Untyped,
        },
        Instr::StoreVector(arg) => match accessed(scope, *arg, 16) {
            Some(address) => Plan::Flat(one(address), Some(Ty::V128), &[]),
            None => Plan::Untyped,
        },
        Instr::LoadLane(shape, arg, lane) => match lane_accessed(scope, *shape, *arg, *lane) {
            Some(address) => Plan::Flat(one(address), Some(Ty::V128), one(Ty::V128)),
            None => Plan::Untyped,
        },
        Instr::StoreLane(shape, arg, lane) => match lane_accessed(scope, *shape, *arg, *lane) {
            Some(address) => Plan::Flat(one(address), Some(Ty::V128), &[]),
            None => Plan::Untyped,
        },
        Instr::MemorySize(memory) => match addressed(scope, *memory) {
            Some(address) => Plan::Flat(&[], None, one(address)),
            None => Plan::Untyped,
        },
        Instr::MemoryGrow(memory) => match addressed(scope, *memory) {
            Some(address) => Plan::Flat(&[], Some(address), one(address)),
            None => Plan::Untyped,
        },
        Instr::MemoryFill(memory) => match memory_limits(scope, *memory) {
            Some(limits) => Plan::Flat(
                addresses(limits.wide, false),
                Some(address_of(limits.wide)),
                &[],
            ),
            None => Plan::Untyped,
        },
        Instr::MemoryCopy(to, from) => {
            match (memory_limits(scope, *to), memory_limits(scope, *from)) {
                (Some(to), Some(from)) => Plan::Flat(
                    addresses(to.wide, from.wide),
                    Some(address_of(to.wide && from.wide)),
                    &[],
                ),
                _ => Plan::Untyped,
            }
        }
        Instr::MemoryInit(segment, memory) => match memory_limits(scope, *memory) {
            Some(limits) => {
                if (*segment as usize) < scope.spaces.datas {
                    Plan::Flat(addresses(limits.wide, false), Some(Ty::I32), &[])
                } else {
                    Plan::Untyped
                }
            }
            None => Plan::Untyped,
        },
        Instr::DataDrop(segment) => {
            if (*segment as usize) < scope.spaces.datas {
                Plan::Flat(&[], None, &[])
            } else {
                Plan::Untyped
            }
        }
        _ => Plan::Untyped,
    }
}
