// The first index of each type of a module.

ghost use Rattle.std.specs.Prelude.{◌≡◌, None, [], ◌∷◌, ◌++◌, length, IfOk, OnOk, OnErr};
ghost use Rattle.emit_kit.specs.FirstTypes.{index_at, TellsOfTypes};

use crate::keys::type_key;
use crate::next_index::next_index;
use indexmap::IndexMap;
use sqlite_items::Items;
use std::alloc::{AllocError, Global};
use std::marker::Model;
use wasm_ast::module::FuncType;

/// The keys of types, each beside the first index of its type.
#[derive(Drop)]
pub struct FirstTypes {
    indices: IndexMap<Vec<u8>, u32>,
}

impl Model for FirstTypes {
    ghost use Rattle.std.specs.Prelude.{List, ℕ, map};

    ghost Value = { List (List ℕ × ℕ) };

    ghost view = { λ f. map (λ e. (e.0.items, e.1)) f.indices.entries };
}

impl FirstTypes {
    /// The keys of these types with their first indices. It takes time linear in the types, and fails for want of memory
    /// alone.
    pub fn of_types(alloc: Global, types: &[FuncType]) -> Result<FirstTypes, AllocError>
        ensures { IfOk result (λ first. TellsOfTypes types.now first) }
    {
        let mut first = FirstTypes {
            indices: IndexMap::new(alloc),
        };
        for (place, ty) in types.iter().enumerate() {
            let key = type_key(alloc, ty)?;
            if first.get(key.as_slice()).is_none() {
                first.insert(key, next_index(0, place)?)?;
            }
        }
        Ok(first)
    }

    /// The index beside the key.
    pub fn get(&self, key: &[u8]) -> Option<u32>
        ensures { result ≡ index_at key.now self.now }
    {
        self.indices.get(key).copied()
    }

    /// Puts a key that is not there beside the index. For want of memory nothing changes.
    pub fn insert(&mut self, key: Vec<u8>, index: u32) -> Result<(), AllocError>
        requires { index_at key.items self.old ≡ None }
        ensures ok { OnOk result (self.new ≡ self.old ++ (key.items, index) ∷ []) }
        ensures err { OnErr result (self.new ≡ self.old) }
    {
        match self.indices.insert(key, index) {
            Ok(_) => Ok(()),
            Err(_) => Err(AllocError),
        }
    }

    /// Puts a type last, whose key is not there yet, and gives its index. For want of memory nothing changes.
    pub fn push_type(
        &mut self,
        types: &mut Items<FuncType>,
        ty: FuncType,
        key: Vec<u8>,
    ) -> Result<u32, AllocError>
        requires { index_at key.items self.old ≡ None }
        ensures index { IfOk result (λ index. index ≡ length types.old) }
        ensures types { OnOk result (types.new ≡ types.old ++ ty ∷ []) }
        ensures noted { OnOk result (self.new ≡ self.old ++ (key.items, length types.old) ∷ []) }
        ensures err_types { OnErr result (types.new ≡ types.old) }
        ensures err_noted { OnErr result (self.new ≡ self.old) }
    {
        let index = next_index(0, types.len())?;
        types.push(ty)?;
        if self.insert(key, index).is_err() {
            types.pop();
            return Err(AllocError);
        }
        Ok(index)
    }
}
