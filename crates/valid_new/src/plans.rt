// The plan of each instruction: what it does to the operands, by its form in the context.

ghost use Rattle.valid_new.specs.Groups.{IsPlanned};
ghost use Rattle.valid_new.specs.Scopes.{context_of, labels_of};

mod control;
mod memories;
mod operators;
mod tables;
mod variables;

use crate::groups::{Group, group_of};
use crate::scope::Scope;
use control::plan_of_control;
use memories::plan_of_memory;
use tables::plan_of_table;
use typing_kit::Plan;
use variables::plan_of_variable;
use wasm_ast::module::{Instr, Ty};

/// The plan of an instruction. One that holds code, and br_table, are left to the caller.
pub fn plan_of<'a>(scope: Scope<'a>, labels: &[&'a [Ty]], instr: &'a Instr) -> Plan<'a, Ty>
    ensures { IsPlanned result (context_of scope.entry) (labels_of labels.now) instr.now }
{
    match group_of(instr) {
        Group::Variables => plan_of_variable(scope, labels, instr),
        Group::Control => plan_of_control(scope, labels, instr),
        Group::Tables => plan_of_table(scope, labels, instr),
        Group::Memories => plan_of_memory(scope, labels, instr),
        Group::Nested => Plan::Nested,
    }
}
