// The typing of the bodies of a module.

ghost use Rattle.std.specs.Prelude.{◌≡◌, ◌≤◌, ◌<◌, ◌^◌, true, false, [], length, IfOk};
ghost use Rattle.core1_ast.specs.Operands.{block_results};
ghost use Rattle.core1_ast.specs.Lengths.{IsShort};
ghost use Rattle.core1_ast.specs.Typing.{TypedBody};
ghost use Rattle.valid_core1.specs.Checks.{Decided};
ghost use Rattle.valid_core1.specs.Parts.{BodyTyped, Types, Functions};
ghost use Rattle.valid_core1.specs.Scopes.{AreSpaces};
ghost use Rattle.valid_core1.specs.Sections.{Finds};
ghost use Rattle.valid_core1.specs.Verdict.{SectionTyped};

use crate::code::check_code;
use crate::parts::all_integers;
use crate::scope::Scope;
use crate::spaces::Spaces;
use core1_ast::module::{BlockType1, Body1, FuncType1, Module1, Ty1};
use sqlite_items::Items;
use std::alloc::{AllocError, Global};
use typing_kit::Operands;

/// The results of a function as those of a block.
fn block_of(results: &[Ty1]) -> BlockType1
    requires { length results.now ≤ 1 }
    ensures { block_results result ≡ results.now }
{
    match results {
        [ty] => BlockType1::One(*ty),
        _ => BlockType1::Empty,
    }
}

/// Whether a body is typed. Where it is, the labels and the operands are as before: there are none.
fn check_body(
    labels: &mut Items<BlockType1>,
    operands: &mut Operands<Ty1>,
    m: &Module1,
    spaces: &Spaces,
    ty: &FuncType1,
    body: &Body1,
) -> Result<bool, AllocError>
    requires spaces { AreSpaces m.now spaces.now }
    requires results { length ty.now.results ≤ 1 }
    requires labels { labels.old ≡ [] }
    ensures typed { IfOk result (λ typed. Decided typed (TypedBody m.now ty.now body.now)) }
    ensures labels { IfOk result (λ typed. typed ≡ true → labels.new ≡ []) }
{
    if !all_integers(body.locals.as_slice()) {
        return Ok(false);
    }
    let results = block_of(ty.results.as_slice());
    let scope = Scope {
        module: m,
        spaces,
        params: ty.params.as_slice(),
        locals: body.locals.as_slice(),
        results,
    };
    check_code(&scope, labels, operands, results, results, &body.code)
}

/// The first body that is not typed.
pub fn first_body(alloc: Global, m: &Module1, spaces: &Spaces) -> Result<Option<usize>, AllocError>
    requires spaces { AreSpaces m.now spaces.now }
    requires counts { length m.now.funcs ≡ length m.now.codes }
    requires types { SectionTyped m.now Types }
    requires functions { SectionTyped m.now Functions }
    ensures { IfOk result (Finds (BodyTyped m.now) (length m.now.codes)) }
{
    let mut labels = Items::new(alloc);
    let mut operands = Operands::new(alloc);
    for (place, body) in m.codes.as_slice().iter().enumerate() {
        let index = m.funcs.as_slice()[place];
        let ty = &m.types.as_slice()[index as usize];
        if !check_body(&mut labels, &mut operands, m, spaces, ty, body)? {
            return Ok(Some(place));
        }
    }
    Ok(None)
}
