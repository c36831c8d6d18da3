//! Typed code never goes wrong (the standard's appendix "Soundness").
//!
//! `specs/States.antt` says when a state is typed: values, the store, frames, and what jumps carry. `specs/Strict.antt` has
//! the language in which every instruction asks for the types that its node takes and gives, and is stuck without them;
//! `specs/Laws.antt` what the theorems say, and `specs/Events.antt` what a host sees of a typed module. A stage of lowering
//! may take runs of that language for the runs of its input.
#![tactic(auto)]

ghost use Rattle.soundness.specs.Events.{EventsAreTyped};
ghost use Rattle.soundness.specs.Laws.{AsksForTypes, CodeIsSafe, CallsAreSafe, RunsAreStrict, StatesStayTyped, RunsAreNeverStuck};

/// In the language that asks for types a node whose operands lack the types that it takes is stuck, and so is a plain one
/// that would leave others than those that it gives.
pub fn strict_code_asks_for_types()
    ensures { AsksForTypes }
{}

/// From a typed state, typed nodes and functions of a typed module find operands of the types that every node takes, and
/// what they leave is typed: operands and locals, the store, results, and what jumps carry.
pub fn typed_code_is_safe()
    ensures code { CodeIsSafe }
    ensures calls { CallsAreSafe }
{}

/// Of every typed module, under every script that fits it and within any number of turns: the run in which each instruction
/// asks for the types of its operands is the run, is never stuck, and leaves typed states.
pub fn typed_runs_are_strict()
    ensures strict { RunsAreStrict }
    ensures stuck { RunsAreNeverStuck }
    ensures typed { StatesStayTyped }
{}

/// Of every typed module, under every script that fits it and within any number of turns: what the host sees has the types
/// that the module says. A call of an imported function has arguments of its type, the call of an item results of the type
/// of the function that it calls, an exception that leaves it a payload of its tag's, and each has the exported globals.
pub fn typed_runs_show_typed_events()
    ensures { EventsAreTyped }
{}
