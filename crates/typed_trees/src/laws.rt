//! Laws of typed trees, as the contracts of functions that do nothing.

ghost use Rattle.std.specs.Prelude.{◌↔◌, List, Option};
ghost use Rattle.wasm_ast.specs.declared.module.code.Instr.{Instr};
ghost use Rattle.wasm_ast.specs.declared.module.ty.Ty.{Ty};
ghost use Rattle.wasm_ast.specs.declared.module.parts.Module.{Module};
ghost use Rattle.typing_kit.specs.Matching.{known};
ghost use Rattle.typing_kit.specs.declared.operand.Operand.{Operand};
ghost use Rattle.typing_kit.specs.Standard.{StandardCode};
ghost use Rattle.typing_kit.specs.Typing.{TypedCode};
ghost use Rattle.typed_trees.specs.declared.module.TypedFn.{TypedFn};
ghost use Rattle.typed_trees.specs.declared.node.Node.{Node};
ghost use Rattle.typed_trees.specs.Contexts.{Context};
ghost use Rattle.typed_trees.specs.Forms.{language};
ghost use Rattle.typed_trees.specs.Modules.{IsTyped};
ghost use Rattle.typed_trees.specs.Trees.{erased, EndsAs, TypedNodes};
ghost use Rattle.typed_trees.specs.Typed.{module_of, IsTypedTree};

/// What typed nodes stand for is typed code, of the same types.
pub fn typed_nodes_are_typed_code()
    ensures { (c : Context) (labels : List (List Ty)) (nodes : List Node) (before : List Ty) (end : Option (List Ty)) → TypedNodes c labels nodes before end → (after : List Ty) → EndsAs end after → TypedCode (language c) labels (erased nodes) (known before) (known after) }
{}

/// The module that a typed module stands for is typed.
pub fn typed_modules_are_typed()
    ensures { (m : Module × List TypedFn) → IsTypedTree m → IsTyped (module_of m) }
{}

/// The rules over forms type the same code as the standard's rules in their own shape: code is empty, one instruction or
/// a sequence, over a frame of operands that it leaves as they are, and up to subsumption ("Instruction Sequences" of
/// chapter 3).
pub fn standard_shape()
    ensures { (c : Context) (labels : List (List Ty)) (code : List Instr) (before after : List (Operand Ty)) → TypedCode (language c) labels code before after ↔ StandardCode (language c) labels code before after }
{}
