// The words that carry the values of exceptions.

ghost use Rattle.std.specs.Prelude.{◌≡◌, length};
ghost use Rattle.grammar_kit.specs.Measures.{greatest};
ghost use Rattle.wasm_ast.specs.Flattening.{flattened, flat};
ghost use Rattle.read_new.specs.Limits.{payload_words};

use sqlite_items::at;
use wasm_ast::module::{FuncType, Ty};

/// The words that carry a value: two for a vector, else one.
fn words(ty: Ty) -> u64
    ensures { result ≡ length (flattened ty) }
{
    match ty {
        Ty::V128 => 2,
        Ty::I32 | Ty::I64 | Ty::F32 | Ty::F64 | Ty::Func | Ty::Extern | Ty::Exn => 1,
    }
}

fn words_of(types: &[Ty]) -> u64
    ensures { result ≡ length (flat types.now) }
{
    let mut total = 0;
    for ty in types {
        total += words(*ty);
    }
    total
}

/// The greatest number of words that carry the values of a tag's exceptions. A tag whose type is not there has none.
pub fn greatest_payload(types: &[FuncType], tags: &[u32]) -> u64
    ensures { result ≡ greatest (payload_words types.now) tags.now }
{
    let mut most = 0;
    for tag in tags {
        let words = match at(types, *tag as usize) {
            Some(ty) => words_of(ty.params.as_slice()),
            None => 0,
        };
        if words > most {
            most = words;
        }
    }
    most
}
