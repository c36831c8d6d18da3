// The function that sets globals, and then calls the start function.

ghost use Rattle.std.specs.Prelude.{◌≡◌, ◌++◌, [], ◌∷◌, map, IfOk, OnOk};
ghost use Rattle.wasm_ast.specs.declared.module.code.Instr.{out-Instr};
ghost use Rattle.typed_trees.specs.Operands.{int_type};
ghost use Rattle.wasm_ast.specs.Spaces.{func_count, global_types};
ghost use Rattle.pass_plain.specs.Folding.{type_at, setting_types, setting_node, start_body, start_fns, folded_part, with_start, started_part};

use super::parts::folded_part;
use super::setting::put_call;
use num_core::operators::Width;
use owned_lists::Drain;
use rewriting_kit::keep;
use sqlite_items::Items;
use std::alloc::{AllocError, Global};
use typed_trees::{Nodes, Signature, TypedFn};
use wasm_ast::lists::Types;
use wasm_ast::module::{Code, FuncType, Instr, Module, Op, Ty};
use wasm_ast::spaces::{global_types, imported_func_count};

/// The type of the width.
fn type_of(width: Width) -> Ty
    ensures { result ≡ int_type width }
{
    match width {
        Width::W32 => Ty::I32,
        Width::W64 => Ty::I64,
    }
}

/// The type of the global with this index, if there is one, as a list.
fn type_at(globals: &[Ty], x: u32) -> &[Ty]
    ensures { result.now ≡ type_at globals.now x }
{
    match globals.get(x as usize) {
        Some(ty) => std::slice::from_ref(ty),
        None => &[],
    }
}

/// What an instruction of that code takes and gives.
fn setting_types(alloc: Global, globals: &[Ty], instr: &Instr) -> Result<Signature, AllocError>
    ensures { IfOk result (λ types. types ≡ setting_types globals.now (out-Instr instr.now)) }
{
    match instr {
        Instr::GlobalGet(x) => Signature::new(alloc, &[], type_at(globals, *x)),
        Instr::GlobalSet(x) => Signature::new(alloc, type_at(globals, *x), &[]),
        Instr::Pure(Op::I32Const(_)) => Signature::new(alloc, &[], &[Ty::I32]),
        Instr::Pure(Op::I64Const(_)) => Signature::new(alloc, &[], &[Ty::I64]),
        Instr::Pure(Op::Binary(width, _)) => {
            let ty = type_of(*width);
            Signature::new(alloc, &[ty, ty], &[ty])
        }
        _ => Signature::new(alloc, &[], &[]),
    }
}

/// Puts an instruction of that code as a node behind others.
fn put_node(alloc: Global, globals: &[Ty], instr: Instr, out: &mut Nodes) -> Result<(), AllocError>
    ensures { OnOk result (out.new ≡ out.old ++ setting_node globals.now instr ∷ []) }
{
    let types = setting_types(alloc, globals, &instr)?;
    let none = Items::new(alloc);
    keep(alloc, instr, types, Items::new(alloc), none, out)
}

/// That code as nodes.
fn setting_nodes(alloc: Global, globals: &[Ty], code: Code) -> Result<Nodes, AllocError>
    ensures { IfOk result (λ nodes. nodes ≡ map (setting_node globals.now) code) }
{
    let mut nodes = Items::from_vec(Vec::with_capacity(alloc, code.len())?);
    let mut rest = Drain::new(alloc, code)?;
    while let Some(instr) = rest.next() {
        put_node(alloc, globals, instr, &mut nodes)?;
    }
    Ok(nodes)
}

/// The function that runs first: that code, and a call of the start function, if there is one.
fn start_fn(alloc: Global, part: &Module, mut code: Code) -> Result<TypedFn, AllocError>
    ensures { IfOk result (λ f. f ≡ record { locals = []; body = map (setting_node (global_types part.now)) (start_body part.now.start code) }) }
{
    put_call(part.start, &mut code)?;
    let globals = global_types(alloc, part)?;
    let body = setting_nodes(alloc, globals.as_slice(), code)?;
    Ok(TypedFn {
        locals: Types::new(alloc),
        body,
    })
}

/// A number as an index, where it can be one.
fn index_of(count: usize) -> Result<u32, AllocError>
    ensures { IfOk result (λ index. index ≡ count) }
{
    u32::try_from(count).map_err(|_| AllocError)
}

/// The index of the function that is put behind those of a module.
fn next_func(m: &Module) -> Result<u32, AllocError>
    ensures { IfOk result (λ index. index ≡ func_count m.now) }
{
    match imported_func_count(m).checked_add(m.funcs.len()) {
        Some(count) => index_of(count),
        None => Err(AllocError),
    }
}

/// Puts a function that runs first behind those of a module, and its type behind the types.
fn put_start(alloc: Global, m: &mut Module) -> Result<(), AllocError>
    ensures { OnOk result (m.new ≡ with_start m.old) }
{
    let index = next_func(m)?;
    let ty = index_of(m.types.len())?;
    m.types.push(FuncType {
        params: Types::new(alloc),
        results: Types::new(alloc),
    })?;
    m.funcs.push(ty)?;
    m.start = Some(index);
    Ok(())
}

/// The parts with folded expressions and the functions, and behind them the function that runs first, where there is code
/// to be run.
pub(crate) fn started(
    alloc: Global,
    part: Module,
    code: Code,
    fns: Items<TypedFn>,
) -> Result<(Module, Items<TypedFn>), AllocError>
    ensures part { IfOk result (λ new. new.0 ≡ started_part code (folded_part part)) }
    ensures functions { IfOk result (λ new. new.1 ≡ fns ++ start_fns part code) }
{
    if code.is_empty() {
        return Ok((folded_part(alloc, part)?, fns));
    }
    let mut all = fns;
    all.push(start_fn(alloc, &part, code)?)?;
    let mut new = folded_part(alloc, part)?;
    put_start(alloc, &mut new)?;
    Ok((new, all))
}
