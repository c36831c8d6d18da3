// The parts of a module with folded expressions.

ghost use Rattle.std.specs.Prelude.{◌≡◌, ◌+◌, ◌<◌, ◌^◌, map, length, IfOk};
ghost use Rattle.wasm_ast.specs.Fold.{known_globals};
ghost use Rattle.wasm_ast.specs.Spaces.{is_global, imported};
ghost use Rattle.pass_plain.specs.Folding.{folded_elem, folded_data, folded_globals, folded_part};

use super::instructions::{folded_global, folded_mode, known_at};
use owned_lists::Drain;
use sqlite_items::Items;
use std::alloc::{AllocError, Global};
use std::mem;
use wasm_ast::folding::{Folded, known_globals};
use wasm_ast::module::{self, Element, Module, Segment};
use wasm_ast::spaces::imported_globals;

/// Element segments with folded offsets.
fn folded_elems(
    alloc: Global,
    known: &[Option<Folded>],
    elems: Items<Element>,
) -> Result<Items<Element>, AllocError>
    ensures { IfOk result (λ new. new ≡ map (folded_elem known.now) elems) }
{
    let mut new = Items::from_vec(Vec::with_capacity(alloc, elems.len())?);
    let mut rest = Drain::new(alloc, elems)?;
    while let Some(e) = rest.next() {
        new.push(folded_elem(alloc, known, e)?)?;
    }
    Ok(new)
}

/// An element segment with a folded offset.
fn folded_elem(alloc: Global, known: &[Option<Folded>], e: Element) -> Result<Element, AllocError>
    ensures { IfOk result (λ new. new ≡ folded_elem known.now e) }
{
    let Element { mode, ty, items } = e;
    let mode = folded_mode(alloc, known, mode)?;
    Ok(Element { mode, ty, items })
}

/// Data segments with folded offsets.
fn folded_datas(
    alloc: Global,
    known: &[Option<Folded>],
    datas: Items<Segment>,
) -> Result<Items<Segment>, AllocError>
    ensures { IfOk result (λ new. new ≡ map (folded_data known.now) datas) }
{
    let mut new = Items::from_vec(Vec::with_capacity(alloc, datas.len())?);
    let mut rest = Drain::new(alloc, datas)?;
    while let Some(d) = rest.next() {
        new.push(folded_data(alloc, known, d)?)?;
    }
    Ok(new)
}

/// A data segment with a folded offset.
fn folded_data(alloc: Global, known: &[Option<Folded>], d: Segment) -> Result<Segment, AllocError>
    ensures { IfOk result (λ new. new ≡ folded_data known.now d) }
{
    let Segment { mode, bytes } = d;
    let mode = folded_mode(alloc, known, mode)?;
    Ok(Segment { mode, bytes })
}

/// The module's own globals, the first of which has this index.
fn folded_globals(
    alloc: Global,
    known: &[Option<Folded>],
    first: u32,
    globals: &[module::Global],
) -> Result<Items<module::Global>, AllocError>
    requires { first + length globals.now < 2 ^ 32 }
    ensures { IfOk result (λ new. new ≡ folded_globals known.now first globals.now) }
{
    let mut new = Items::new(alloc);
    let mut x = first;
    for global in globals {
        new.push(folded_global(alloc, global, known_at(known, x))?)?;
        x += 1;
    }
    Ok(new)
}

/// The index of the first global of its own, where each of them has an index.
pub(crate) fn first_own(part: &Module) -> Result<u32, AllocError>
    ensures { IfOk result (λ first. (first ≡ imported is_global part.now) × (first + length part.now.globals < 2 ^ 32)) }
{
    let imported = imported_globals(part);
    let Some(count) = imported.checked_add(part.globals.len()) else {
        return Err(AllocError);
    };
    match u32::try_from(count) {
        Ok(_) => Ok(imported as u32),
        Err(_) => Err(AllocError),
    }
}

/// The parts with folded expressions, where it is known what each global folds to.
fn with_folded(
    alloc: Global,
    part: Module,
    first: u32,
    known: &[Option<Folded>],
) -> Result<Module, AllocError>
    requires first { first ≡ imported is_global part }
    requires known { known.now ≡ known_globals part }
    requires range { first + length part.globals < 2 ^ 32 }
    ensures { IfOk result (λ new. new ≡ folded_part part) }
{
    let mut new = part;
    let globals = folded_globals(alloc, known, first, new.globals.as_slice())?;
    new.globals = globals;
    let elems = mem::replace(&mut new.elems, Items::new(alloc));
    new.elems = folded_elems(alloc, known, elems)?;
    let datas = mem::replace(&mut new.datas, Items::new(alloc));
    new.datas = folded_datas(alloc, known, datas)?;
    Ok(new)
}

/// The parts with folded expressions.
pub(crate) fn folded_part(alloc: Global, part: Module) -> Result<Module, AllocError>
    ensures { IfOk result (λ new. new ≡ folded_part part) }
{
    let known = known_globals(alloc, &part)?;
    let first = first_own(&part)?;
    with_folded(alloc, part, first, known.as_slice())
}
