// Functions of a whole module: their bodies are annotated, and the module is built of its parts and its typed body.

ghost use Rattle.std.specs.Prelude.{◌≡◌, [], ◌∷◌, IfOk};
ghost use Rattle.typed_trees.specs.Modules.{context};
ghost use Rattle.typed_trees.specs.Typed.{IsTypedTree};
ghost use Rattle.valid_new.specs.Scopes.{spaces_context};
ghost use Rattle.valid_new_tests.specs.Example.{IsExample, with_codes};

use crate::steps::Plain::Return;
use crate::steps::Step::{self, Plain};
use crate::steps::{I32_CONST, I64_CONST, NULL_EXTERN, UNREACHABLE, code_of, types_of};
use crate::trees::{Head, Seen, are_nodes, is_body};
use crate::world::world;
use num_core::lists::TryCopy;
use sqlite_items::Items;
use std::alloc::{AllocError, Global};
use std::test::Fail;
use typed_trees::{TypedFn, TypedModule};
use valid_new::{Fault, Spaces, annotate, annotate_func, spaces_of};
use wasm_ast::lists::Types;
use wasm_ast::module::Ty::{Extern, I32, I64};
use wasm_ast::module::{Body, FuncType, Module, Op, Ty};

/// The parts of the example, with these bodies.
fn parts(alloc: Global, codes: Items<Body>) -> Result<Module, AllocError>
    ensures { IfOk result (λ m. m ≡ with_codes codes) }
{
    let mut results = Types::new(alloc);
    results.push(Ty::I32)?;
    let params = Types::new(alloc);
    let mut types = Items::new(alloc);
    types.push(FuncType { params, results })?;
    let mut funcs = Items::new(alloc);
    funcs.push(0)?;
    Ok(Module {
        types,
        imports: Items::new(alloc),
        funcs,
        tables: Items::new(alloc),
        memories: Items::new(alloc),
        tags: Items::new(alloc),
        globals: Items::new(alloc),
        exports: Items::new(alloc),
        start: None,
        elems: Items::new(alloc),
        data_count: Some(0),
        codes,
        datas: Items::new(alloc),
    })
}

/// The example with this body.
#[tactic(auto, using(crate::proofs::Examples::is_example))]
fn example(alloc: Global, body: Body) -> Result<Module, AllocError>
    ensures { IfOk result IsExample }
{
    let mut codes = Items::new(alloc);
    codes.push(body)?;
    parts(alloc, codes)
}

/// The typed module of a typed body.
fn typed_module(alloc: Global, body: TypedFn) -> Result<TypedModule, AllocError>
    requires { IsTypedTree (with_codes [], body ∷ []) }
    ensures { IfOk result (λ m. m ≡ (with_codes [], body ∷ [])) }
{
    let mut bodies = Items::new(alloc);
    bodies.push(body)?;
    let part = parts(alloc, Items::new(alloc))?;
    Ok(TypedModule::build(part, bodies))
}

/// The example with this body typed, where it is typed.
#[tactic(auto, using(crate::proofs::Examples::counts_agree, crate::proofs::Examples::parts_typed, crate::proofs::Examples::has_body, crate::proofs::Examples::tree_typed))]
fn typed_example(alloc: Global, body: Body) -> Result<Option<TypedModule>, AllocError> {
    let m = example(alloc, body)?;
    match annotate(alloc, &m, 0) {
        Ok(typed) => Ok(Some(typed_module(alloc, typed)?)),
        Err(Fault::Untyped) => Ok(None),
        Err(Fault::Memory(error)) => Err(error),
    }
}

/// A body with one declared local and this code.
fn body_of(alloc: Global, code: &[Step]) -> Result<Body, AllocError> {
    let locals = types_of(alloc, &[I64])?;
    let code = code_of(alloc, code)?;
    Ok(Body { locals, code })
}

/// Code that gives an i32, and the nodes of what is reached.
static CODE: [Step; 3] = [I32_CONST, Plain(Return), UNREACHABLE];

static NODES: [Seen; 2] = [
    Seen(Head::Pure(Op::I32Const(5)), &[], &[I32], &[], &[]),
    Seen(Head::Return, &[I32], &[], &[], &[]),
];

/// Whether the module has one type and no bodies among its parts, and one function: that of `CODE`.
fn is_example(m: &TypedModule) -> bool {
    match m.functions().first() {
        Some(found) => m.part().types.len() == 1
            && m.part().codes.is_empty()
            && m.functions().len() == 1
            && found.locals.as_slice() == [I64].as_slice()
            && are_nodes(found.body.as_slice(), &NODES),
        None => false,
    }
}

/// Whether the module is built, and so is its copy.
fn are_built(alloc: Global) -> Result<bool, AllocError> {
    match typed_example(alloc, body_of(alloc, &CODE)?)? {
        Some(m) => Ok(is_example(&m) && is_example(&m.copy(alloc)?)),
        None => Ok(false),
    }
}

/// Whether there is such a module of this code.
fn is_built(alloc: Global, code: &[Step]) -> Result<bool, AllocError> {
    Ok(typed_example(alloc, body_of(alloc, code)?)?.is_some())
}

#[test]
fn a_module_is_built_of_its_parts_and_typed_bodies(rt: HostRuntime) -> Result<(), Fail> {
    assert!(rt; are_built(rt.alloc())?);
    assert!(rt; !is_built(rt.alloc(), &[I64_CONST])?);
    Ok(())
}

/// The code of each function of the world's own, and the nodes of what is typed.
static FUNCTIONS: [(&[Step], Option<&[Seen]>); 6] = [
    (
        &[I64_CONST, NULL_EXTERN],
        Some(&[
            Seen(Head::Pure(Op::I64Const(5)), &[], &[I64], &[], &[]),
            Seen(Head::Pure(Op::RefNull(Extern)), &[], &[Extern], &[], &[]),
        ]),
    ),
    (&[], Some(&[])),
    (&[I32_CONST], None),
    (
        &[Plain(Return), UNREACHABLE],
        Some(&[Seen(Head::Return, &[], &[], &[], &[])]),
    ),
    (&[NULL_EXTERN, I32_CONST], None),
    (&[], Some(&[])),
];

fn put_bodies(alloc: Global, m: &mut Module) -> Result<(), AllocError> {
    for (code, _) in &FUNCTIONS {
        m.codes.push(body_of(alloc, code)?)?;
    }
    Ok(())
}

/// The typed body of this function of the module's own, where there is one and it is typed.
fn function(
    alloc: Global,
    spaces: &Spaces<'_>,
    m: &Module,
    f: u32,
) -> Result<Option<TypedFn>, AllocError>
    requires { spaces_context spaces.now ≡ context m.now }
{
    if m.funcs.len() == m.codes.len() && (f as usize) < m.codes.len() {
        annotate_func(alloc, spaces, m, f)
    } else {
        Ok(None)
    }
}

/// Whether the body is these nodes, or there is none.
fn is_told(found: Option<TypedFn>, seen: Option<&[Seen]>) -> bool {
    match seen {
        Some(nodes) => is_body(found, nodes),
        None => found.is_none(),
    }
}

/// Whether each function of the module's own is what its row says.
fn are_functions(alloc: Global, spaces: &Spaces<'_>, m: &Module) -> Result<bool, AllocError>
    requires { spaces_context spaces.now ≡ context m.now }
{
    let mut f: u32 = 0;
    for (_, seen) in &FUNCTIONS {
        if !is_told(function(alloc, spaces, m, f)?, *seen) {
            return Ok(false);
        }
        f = f.wrapping_add(1);
    }
    Ok(true)
}

fn are_functions_told(alloc: Global) -> Result<bool, AllocError> {
    let mut m = world(alloc)?;
    put_bodies(alloc, &mut m)?;
    let spaces = spaces_of(alloc, &m)?;
    are_functions(alloc, &spaces, &m)
}

#[test]
fn each_function_of_a_module_is_annotated_or_untyped(rt: HostRuntime) -> Result<(), Fail> {
    assert!(rt; are_functions_told(rt.alloc())?);
    Ok(())
}
