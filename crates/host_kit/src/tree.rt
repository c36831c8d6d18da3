// Trees of JSON that are read by forms: the value, or the first place that is not of the form.
ghost use Rattle.std.specs.Prelude.{◌≡◌, ◌^◌, List, ℕ, Bool, Result};
ghost use Rattle.std.specs.Fmt.{decimal};
ghost use Rattle.serde_json.specs.Data.{Data};
ghost use Rattle.serde_json.specs.View.{view, items_view};
ghost use Rattle.host_kit.specs.Faults.{Tells};
ghost use Rattle.host_kit.specs.Forms.{below, number_form, field_form, place_form, items_form, list_form, pair_form, triple_form, sole_form, or_here, has_places, has_members, has_key};
ghost use Rattle.serde_json.specs.Find.{as_bool, as_str};

use super::fault::ScriptFault;
use num_core::lists::Text;
use serde_json::Value as Tree;
use sqlite_items::Items;
use std::alloc::Global;

/// A value that a tree is read as.
pub(crate) trait FromTree {
    ghost form: { Data → Result Self (List ℕ) };

    /// The value that the tree is read as, or the fault that its form names.
    fn from_tree(alloc: Global, tree: &Tree) -> Result<Self, ScriptFault>
        ensures { Tells result (form (view tree.now)) };
}

impl FromTree for bool {
    ghost form = { λ d. or_here (as_bool d) };

    fn from_tree(alloc: Global, tree: &Tree) -> Result<bool, ScriptFault> {
        tree.as_bool().ok_or(ScriptFault::here(alloc))
    }
}

impl FromTree for u32 {
    ghost form = { number_form (2 ^ 32) };

    fn from_tree(alloc: Global, tree: &Tree) -> Result<u32, ScriptFault> {
        match tree.as_u64() {
            Some(number) if number <= u32::MAX as u64 => Ok(number as u32),
            _ => Err(ScriptFault::here(alloc)),
        }
    }
}

impl FromTree for u64 {
    ghost form = { number_form (2 ^ 64) };

    fn from_tree(alloc: Global, tree: &Tree) -> Result<u64, ScriptFault> {
        tree.as_u64().ok_or(ScriptFault::here(alloc))
    }
}

impl FromTree for Text {
    ghost form = { λ d. or_here (as_str d) };

    fn from_tree(alloc: Global, tree: &Tree) -> Result<Text, ScriptFault> {
        match tree.as_str() {
            Some(text) => Ok(Text::new(alloc, text)?),
            None => Err(ScriptFault::here(alloc)),
        }
    }
}

impl<T: FromTree + Drop> FromTree for Items<T> {
    ghost form = { list_form T.form };

    fn from_tree(alloc: Global, tree: &Tree) -> Result<Items<T>, ScriptFault> {
        match tree.as_array() {
            Some(trees) => items(alloc, trees.as_slice()),
            None => Err(ScriptFault::here(alloc)),
        }
    }
}

/// The values of a list of trees.
fn items<T: FromTree + Drop>(alloc: Global, trees: &[Tree]) -> Result<Items<T>, ScriptFault>
    ensures { Tells result (items_form T.form 0 (items_view trees.now)) }
{
    let mut items = Items::new(alloc);
    for (place, tree) in trees.iter().enumerate() {
        items.push(at_place(alloc, place, tree)?)?;
    }
    Ok(items)
}

/// The value of the tree at this place of a list.
fn at_place<T: FromTree + Drop>(alloc: Global, place: usize, tree: &Tree) -> Result<T, ScriptFault>
    ensures { Tells result (below (decimal place) (T.form (view tree.now))) }
{
    match T::from_tree(alloc, tree) {
        Ok(value) => Ok(value),
        Err(fault) => Err(fault.below_place(alloc, place)),
    }
}

/// The value at a place of a list. A tree that has no such place is named itself.
pub(crate) fn place<T: FromTree + Drop>(
    alloc: Global,
    tree: &Tree,
    place: usize,
) -> Result<T, ScriptFault>
    ensures { Tells result (place_form T.form place (view tree.now)) }
{
    match tree.get(place) {
        Some(tree) => at_place(alloc, place, tree),
        None => Err(ScriptFault::here(alloc)),
    }
}

/// The value of a key of an object.
pub(crate) fn field<T: FromTree + Drop>(
    alloc: Global,
    tree: &Tree,
    key: &str,
) -> Result<T, ScriptFault>
    ensures { Tells result (field_form T.form key.now (view tree.now)) }
{
    match tree.get(key) {
        Some(tree) => at_key(alloc, key, tree),
        None => Err(ScriptFault::here(alloc).below(alloc, key)),
    }
}

/// The value of the tree at this key of an object.
fn at_key<T: FromTree + Drop>(alloc: Global, key: &str, tree: &Tree) -> Result<T, ScriptFault>
    ensures { Tells result (below key.now (T.form (view tree.now))) }
{
    match T::from_tree(alloc, tree) {
        Ok(value) => Ok(value),
        Err(fault) => Err(fault.below(alloc, key)),
    }
}

/// The value of the one key of an object. A further key is a fault of the object.
pub(crate) fn sole<T: FromTree + Drop>(
    alloc: Global,
    tree: &Tree,
    key: &str,
) -> Result<T, ScriptFault>
    ensures { Tells result (sole_form T.form key.now (view tree.now)) }
{
    let value = field(alloc, tree, key)?;
    if has_members(tree, 1) {
        Ok(value)
    } else {
        Err(ScriptFault::here(alloc))
    }
}

/// Whether a tree is a list of so many places.
pub(crate) fn has_places(tree: &Tree, count: usize) -> bool
    ensures { result ≡ has_places count (view tree.now) }
{
    match tree.as_array() {
        Some(places) => places.as_slice().len() == count,
        None => false,
    }
}

/// Whether a tree is an object of so many members.
pub(crate) fn has_members(tree: &Tree, count: usize) -> bool
    ensures { result ≡ has_members count (view tree.now) }
{
    match tree.as_object() {
        Some(members) => members.len() == count,
        None => false,
    }
}

/// Whether a tree is an object that has this key.
pub(crate) fn has_key(tree: &Tree, key: &str) -> bool
    ensures { result ≡ has_key key.now (view tree.now) }
{
    tree.get(key).is_some()
}

impl<A: FromTree + Drop, B: FromTree + Drop> FromTree for (A, B) {
    ghost form = { pair_form A.form B.form };

    fn from_tree(alloc: Global, tree: &Tree) -> Result<(A, B), ScriptFault> {
        if !has_places(tree, 2) {
            return Err(ScriptFault::here(alloc));
        }
        let first = place(alloc, tree, 0)?;
        let second = place(alloc, tree, 1)?;
        Ok((first, second))
    }
}

impl<A: FromTree + Drop, B: FromTree + Drop, C: FromTree + Drop> FromTree for (A, B, C) {
    ghost form = { triple_form A.form B.form C.form };

    fn from_tree(alloc: Global, tree: &Tree) -> Result<(A, B, C), ScriptFault> {
        if !has_places(tree, 3) {
            return Err(ScriptFault::here(alloc));
        }
        let first = place(alloc, tree, 0)?;
        let second = place(alloc, tree, 1)?;
        let third = place(alloc, tree, 2)?;
        Ok((first, second, third))
    }
}
