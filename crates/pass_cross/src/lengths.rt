// Whether the lists of a module of 1.0 are short, those inside its items and instructions too; and that its numbers lie in
// the ranges of their types, which each number of this program does: the walks that are there anyway read the constants.

ghost use Rattle.std.specs.Prelude.{◌≡◌, ◌&&◌, IsTrue, true};
ghost use Rattle.std.specs.List.{AllByRecursion};
ghost use Rattle.core1_ast.specs.Lengths.{IsShort, IsShortType, IsShortImport, IsShortElement, IsShortBody, IsShortSegment};
ghost use Rattle.ranges_core1.specs.Ranges.{op_in_range, is_in_range, CodeInRange, AreBytes, SegmentInRange};
ghost use Rattle.pass_cross.specs.Short.{own_code, is_short_inside as is_short_inside_of, are_short_inside as are_short_inside_of, ListsAreShort, IsShortThroughout, ConstantsInRange};

use core1_ast::module::{Instr1, Module1, Op1, Segment1};

/// Whether a constant lies in the range of its type, which each does.
fn has_range(op: Op1) -> bool
    ensures value { result ≡ true }
    ensures range { op_in_range op ≡ true }
{
    match op {
        Op1::I32Const(bits) => bits <= u32::MAX,
        Op1::I64Const(bits) => bits <= u64::MAX,
        _ => true,
    }
}

/// What a slice of bytes holds are bytes.
fn are_bytes(bytes: &[u8])
    ensures { AreBytes bytes.now }
{}

/// Whether the lists inside the instructions of code are short. The recursion goes as deep as blocks nest.
#[cycle(lengths)]
fn are_short_inside(code: &[Instr1]) -> bool
    ensures value { result ≡ are_short_inside_of code.now }
    ensures ranges { IsTrue result → CodeInRange code.now }
{
    for instr in code {
        if !is_short_inside(instr) {
            return false;
        }
    }
    true
}

/// Whether code inside an instruction is short, at every depth.
#[cycle(lengths)]
fn is_short_body(code: &[Instr1]) -> bool
    ensures value { result ≡ own_code code.now }
    ensures ranges { IsTrue result → CodeInRange code.now }
{
    code.len() <= u32::MAX as usize && are_short_inside(code)
}

#[cycle(lengths)]
fn is_short_inside(instr: &Instr1) -> bool
    ensures value { result ≡ is_short_inside_of instr.now }
    ensures ranges { IsTrue result → is_in_range instr.now ≡ true }
{
    match instr {
        Instr1::Block(_, code) => is_short_body(code.as_slice()),
        Instr1::Loop(_, code) => is_short_body(code.as_slice()),
        Instr1::If(_, first, second) => {
            if !is_short_body(first.as_slice()) {
                return false;
            }
            is_short_body(second.as_slice())
        }
        Instr1::BrTable(labels, _) => labels.len() <= u32::MAX as usize,
        Instr1::Pure(op) => has_range(*op),
        _ => true,
    }
}

fn types_are_short(m: &Module1) -> bool
    ensures { IsTrue result → AllByRecursion IsShortType m.now.types }
{
    m.types.as_slice().iter().all(|ty| {
        ty.params.len() <= u32::MAX as usize && ty.results.len() <= u32::MAX as usize
    })
}

fn imports_are_short(m: &Module1) -> bool
    ensures { IsTrue result → AllByRecursion IsShortImport m.now.imports }
{
    m.imports.as_slice().iter().all(|import| {
        import.module.as_str().len() <= u32::MAX as usize
            && import.name.as_str().len() <= u32::MAX as usize
    })
}

fn globals_are_short(m: &Module1) -> bool
    ensures { IsTrue result → AllByRecursion (λ g. IsShort g.init) m.now.globals }
{
    m.globals
        .as_slice()
        .iter()
        .all(|global| global.init.len() <= u32::MAX as usize)
}

fn exports_are_short(m: &Module1) -> bool
    ensures { IsTrue result → AllByRecursion (λ e. IsShort e.name) m.now.exports }
{
    m.exports
        .as_slice()
        .iter()
        .all(|export| export.name.as_str().len() <= u32::MAX as usize)
}

fn elements_are_short(m: &Module1) -> bool
    ensures { IsTrue result → AllByRecursion IsShortElement m.now.elems }
{
    m.elems.as_slice().iter().all(|element| {
        element.offset.len() <= u32::MAX as usize && element.items.len() <= u32::MAX as usize
    })
}

fn bodies_are_short(m: &Module1) -> bool
    ensures { IsTrue result → AllByRecursion IsShortBody m.now.codes }
{
    m.codes.as_slice().iter().all(|body| {
        body.locals.len() <= u32::MAX as usize && body.code.len() <= u32::MAX as usize
    })
}

fn segments_are_short(m: &Module1) -> bool
    ensures { IsTrue result → AllByRecursion IsShortSegment m.now.datas }
{
    m.datas.as_slice().iter().all(|segment| {
        segment.offset.len() <= u32::MAX as usize
            && segment.bytes.as_slice().len() <= u32::MAX as usize
    })
}

fn codes_are_short_inside(m: &Module1) -> bool
    ensures short { IsTrue result → AllByRecursion (λ b. are_short_inside_of b.code ≡ true) m.now.codes }
    ensures ranges { IsTrue result → AllByRecursion (λ b. CodeInRange b.code) m.now.codes }
{
    m.codes
        .as_slice()
        .iter()
        .all(|body| are_short_inside(body.code.as_slice()))
}

fn globals_are_in_range(m: &Module1) -> bool
    ensures { IsTrue result → AllByRecursion (λ g. CodeInRange g.init) m.now.globals }
{
    m.globals
        .as_slice()
        .iter()
        .all(|global| are_short_inside(global.init.as_slice()))
}

fn elements_are_in_range(m: &Module1) -> bool
    ensures { IsTrue result → AllByRecursion (λ e. CodeInRange e.offset) m.now.elems }
{
    m.elems
        .as_slice()
        .iter()
        .all(|element| are_short_inside(element.offset.as_slice()))
}

fn is_segment_in_range(segment: &Segment1) -> bool
    ensures { IsTrue result → SegmentInRange segment.now }
{
    are_bytes(segment.bytes.as_slice());
    are_short_inside(segment.offset.as_slice())
}

fn segments_are_in_range(m: &Module1) -> bool
    ensures { IsTrue result → AllByRecursion SegmentInRange m.now.datas }
{
    m.datas
        .as_slice()
        .iter()
        .all(|segment| is_segment_in_range(segment))
}

fn lists_are_short(m: &Module1) -> bool
    ensures { IsTrue result → ListsAreShort m.now }
{
    m.types.len() <= u32::MAX as usize
        && m.imports.len() <= u32::MAX as usize
        && m.funcs.len() <= u32::MAX as usize
        && m.tables.len() <= u32::MAX as usize
        && m.memories.len() <= u32::MAX as usize
        && m.globals.len() <= u32::MAX as usize
        && m.exports.len() <= u32::MAX as usize
        && m.elems.len() <= u32::MAX as usize
        && m.codes.len() <= u32::MAX as usize
        && m.datas.len() <= u32::MAX as usize
}

/// Whether all lists of the module have fewer than 2^32 items each, those inside its items and instructions too.
pub(crate) fn is_short_throughout(m: &Module1) -> bool
    ensures short { IsTrue result → IsShortThroughout m.now }
    ensures ranges { IsTrue result → ConstantsInRange m.now }
{
    lists_are_short(m)
        && types_are_short(m)
        && imports_are_short(m)
        && globals_are_short(m)
        && exports_are_short(m)
        && elements_are_short(m)
        && bodies_are_short(m)
        && segments_are_short(m)
        && codes_are_short_inside(m)
        && globals_are_in_range(m)
        && elements_are_in_range(m)
        && segments_are_in_range(m)
}
