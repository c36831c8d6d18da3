// Function types as bytes, by which they are looked up.

ghost use Rattle.std.specs.Prelude.{◌≡◌, ◌++◌, map, IfOk, OnOk};
ghost use Rattle.wasm_ast.specs.Types.{type_code, type_key};

use std::alloc::{AllocError, Global};
use wasm_ast::module::{FuncType, Ty, type_code};

/// The bytes of the types, appended to the key.
fn push_codes(types: &[Ty], key: &mut Vec<u8>) -> Result<(), AllocError>
    ensures { OnOk result (key.new.items ≡ key.old.items ++ map type_code types.now) }
{
    for ty in types {
        key.push(type_code(*ty))?;
    }
    Ok(())
}

/// The function type as bytes: the parameters, a zero, the results. It fails for want of memory alone.
pub fn type_key(alloc: Global, ty: &FuncType) -> Result<Vec<u8>, AllocError>
    ensures { IfOk result (λ key. key.items ≡ type_key ty.now) }
{
    let mut key = Vec::new(alloc);
    push_codes(ty.params.as_slice(), &mut key)?;
    key.push(0)?;
    push_codes(ty.results.as_slice(), &mut key)?;
    Ok(key)
}
