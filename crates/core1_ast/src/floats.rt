// Whether floats occur in a module of 1.0.

ghost use Rattle.std.specs.Prelude.{◌≡◌, ◌||◌};
ghost use Rattle.std.specs.List.{list_any};
ghost use Rattle.core1_ast.specs.Floats.{is_float, some_float, type_has_float, import_has_float, block_has_float, shows_float, inside, instr_has_float, code_has_float, body_has_float, has_floats};
ghost use Rattle.core1_ast.specs.declared.module.code.Instr1.{out-Instr1};

use crate::module::{
    BlockType1, Body1, Element1, FuncType1, Global1, Import1, ImportDesc1, Instr1, Module1,
    Segment1, Ty1,
};

/// Whether a float type or an instruction on floats occurs anywhere in a module, code that cannot be reached included. It
/// takes time linear in the module, and recurses as deep as its code nests.
pub fn has_floats(m: &Module1) -> bool
    ensures { result ≡ has_floats m.now }
{
    types_have(m.types.as_slice())
        || imports_have(m.imports.as_slice())
        || globals_have(m.globals.as_slice())
        || elements_have(m.elems.as_slice())
        || bodies_have(m.codes.as_slice())
        || segments_have(m.datas.as_slice())
}

fn is_float(ty: Ty1) -> bool
    ensures { result ≡ is_float ty }
{
    matches!(ty, Ty1::F32 | Ty1::F64)
}

fn some_float(types: &[Ty1]) -> bool
    ensures { result ≡ some_float types.now }
{
    types.iter().any(|ty| is_float(*ty))
}

fn types_have(types: &[FuncType1]) -> bool
    ensures { result ≡ list_any type_has_float types.now }
{
    types.iter().any(|ty| some_float(ty.params.as_slice()) || some_float(ty.results.as_slice()))
}

fn imports_have(imports: &[Import1]) -> bool
    ensures { result ≡ list_any (λ i. import_has_float i.desc) imports.now }
{
    imports.iter().any(|import| import_has(import.desc))
}

fn import_has(desc: ImportDesc1) -> bool
    ensures { result ≡ import_has_float desc }
{
    match desc {
        ImportDesc1::Global(ty, _) => is_float(ty),
        _ => false,
    }
}

fn globals_have(globals: &[Global1]) -> bool
    ensures { result ≡ list_any (λ g. is_float g.ty || code_has_float g.init) globals.now }
{
    globals.iter().any(|global| is_float(global.ty) || code_has(global.init.as_slice()))
}

fn elements_have(elements: &[Element1]) -> bool
    ensures { result ≡ list_any (λ e. code_has_float e.offset) elements.now }
{
    elements
        .iter()
        .any(|element| code_has(element.offset.as_slice()))
}

fn bodies_have(bodies: &[Body1]) -> bool
    ensures { result ≡ list_any body_has_float bodies.now }
{
    bodies.iter().any(|body| some_float(body.locals.as_slice()) || code_has(body.code.as_slice()))
}

fn segments_have(segments: &[Segment1]) -> bool
    ensures { result ≡ list_any (λ s. code_has_float s.offset) segments.now }
{
    segments
        .iter()
        .any(|segment| code_has(segment.offset.as_slice()))
}

fn block_has(ty: BlockType1) -> bool
    ensures { result ≡ block_has_float ty }
{
    match ty {
        BlockType1::Empty => false,
        BlockType1::One(ty) => is_float(ty),
    }
}

/// Whether the instruction is on floats, or holds code with a float as its result.
fn shows_float(instr: &Instr1) -> bool
    ensures { result ≡ shows_float (out-Instr1 instr.now) }
{
    match instr {
        Instr1::Float(..) => true,
        Instr1::Block(ty, _) | Instr1::Loop(ty, _) | Instr1::If(ty, _, _) => block_has(*ty),
        _ => false,
    }
}

/// Whether one of the instructions, or one in the code that they hold, has a float.
#[cycle(floats)]
fn code_has(code: &[Instr1]) -> bool
    ensures { result ≡ code_has_float code.now }
{
    for instr in code {
        if instr_has(instr) {
            return true;
        }
    }
    false
}

/// Whether the instruction, or one in the code that it holds, has a float.
#[cycle(floats)]
#[tactic(auto, using(crate::proofs::FloatsInside::float_out))]
fn instr_has(instr: &Instr1) -> bool
    ensures { result ≡ instr_has_float instr.now }
{
    shows_float(instr) || inside_has(instr)
}

/// Whether an instruction in the code that this one holds has a float.
#[cycle(floats)]
#[tactic(auto, using(std::proofs::lemmas::Grind::common_steps, crate::proofs::FloatsInside::code_append))]
fn inside_has(instr: &Instr1) -> bool
    ensures { result ≡ code_has_float (inside (out-Instr1 instr.now)) }
{
    match instr {
        Instr1::Block(_, code) | Instr1::Loop(_, code) => code_has(code.as_slice()),
        Instr1::If(_, first, second) => code_has(first.as_slice()) || code_has(second.as_slice()),
        _ => false,
    }
}
