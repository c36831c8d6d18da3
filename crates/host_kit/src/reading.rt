// Scripts, and their parts, read from trees of JSON.
ghost use Rattle.std.specs.Prelude.{◌≡◌};
ghost use Rattle.serde_json.specs.View.{view};
ghost use Rattle.host_kit.specs.Faults.{Tells};
ghost use Rattle.host_kit.specs.ScriptForms.{second, value_form, value_by, act_form, set_form, peek_form, poke_form, item_form, call_form, reply_form, reply_keys, script_form, script_keys};

use super::fault::ScriptFault;
use super::script::{Act, Item, Reply, Script};
use super::tree::{FromTree, field, has_key, has_members, has_places, place, sole};
use super::value::{Value, Values};
use super::words::{Count, Null, Version, Word};
use num_core::lists::{Bytes, Text};
use serde_json::Value as Tree;
use std::alloc::Global;

/// The script that a tree of JSON is, or the first place of it that is not of the form of scripts.
///
/// A script is an object with the keys `version`, which is 1, `globals`, `replies`, `grows` and `items`, in any order.
///
/// # Errors
///
/// `Shape` exactly where the tree is not of the form, with the path of the first place that is not, in the order of the
/// form: of a value that is not of the form of its place, of a key that is missing, or of an object that has a further
/// key; the path of the whole is empty. `Memory` where memory was not found.
pub fn script_of(alloc: Global, tree: &Tree) -> Result<Script, ScriptFault>
    ensures { Tells result (script_form (view tree.now)) }
{
    Script::from_tree(alloc, tree)
}

impl FromTree for Value {
    ghost form = { value_form };

    fn from_tree(alloc: Global, tree: &Tree) -> Result<Value, ScriptFault> {
        let word = place(alloc, tree, 0)?;
        value_by(alloc, word, tree)
    }
}

/// The value whose word is known.
fn value_by(alloc: Global, word: Word, tree: &Tree) -> Result<Value, ScriptFault>
    ensures { Tells result (value_by word (view tree.now)) }
{
    match word {
        Word::I32 => Ok(Value::I32(second(alloc, tree)?)),
        Word::I64 => Ok(Value::I64(second(alloc, tree)?)),
        Word::V128 => vector(alloc, tree),
        Word::Func => Ok(Value::Func(second(alloc, tree)?)),
        Word::Extern => Ok(Value::Extern(second(alloc, tree)?)),
        Word::Null => null(alloc, tree),
    }
}

/// What stands behind the word, where nothing else does.
fn second<T: FromTree + Drop>(alloc: Global, tree: &Tree) -> Result<T, ScriptFault>
    ensures { Tells result (second T.form (view tree.now)) }
{
    if has_places(tree, 2) {
        place(alloc, tree, 1)
    } else {
        Err(ScriptFault::here(alloc))
    }
}

/// The two halves of a v128, the lower one first.
fn vector(alloc: Global, tree: &Tree) -> Result<Value, ScriptFault>
    ensures { Tells result (value_by Word.V128 (view tree.now)) }
{
    if !has_places(tree, 3) {
        return Err(ScriptFault::here(alloc));
    }
    let low = place(alloc, tree, 1)?;
    let high = place(alloc, tree, 2)?;
    Ok(Value::V128(low, high))
}

/// A null reference, by the word of its type.
fn null(alloc: Global, tree: &Tree) -> Result<Value, ScriptFault>
    ensures { Tells result (value_by Word.Null (view tree.now)) }
{
    let null: Null = second(alloc, tree)?;
    Ok(Value::from(null))
}

impl FromTree for Act {
    ghost form = { act_form };

    fn from_tree(alloc: Global, tree: &Tree) -> Result<Act, ScriptFault> {
        if has_key(tree, "set") {
            set(alloc, tree)
        } else if has_key(tree, "peek") {
            peek(alloc, tree)
        } else if has_key(tree, "poke") {
            poke(alloc, tree)
        } else {
            Err(ScriptFault::here(alloc))
        }
    }
}

fn set(alloc: Global, tree: &Tree) -> Result<Act, ScriptFault>
    ensures { Tells result (set_form (view tree.now)) }
{
    let (name, value): (Text, Value) = sole(alloc, tree, "set")?;
    Ok(Act::Set(name, value))
}

fn peek(alloc: Global, tree: &Tree) -> Result<Act, ScriptFault>
    ensures { Tells result (peek_form (view tree.now)) }
{
    let (name, at, count): (Text, u64, Count) = sole(alloc, tree, "peek")?;
    Ok(Act::Peek(name, at, count.0))
}

fn poke(alloc: Global, tree: &Tree) -> Result<Act, ScriptFault>
    ensures { Tells result (poke_form (view tree.now)) }
{
    let (name, at, bytes): (Text, u64, Bytes) = sole(alloc, tree, "poke")?;
    Ok(Act::Poke(name, at, bytes))
}

impl FromTree for Item {
    ghost form = { item_form };

    fn from_tree(alloc: Global, tree: &Tree) -> Result<Item, ScriptFault> {
        if has_key(tree, "call") {
            call(alloc, tree)
        } else {
            Ok(Item::Host(Act::from_tree(alloc, tree)?))
        }
    }
}

fn call(alloc: Global, tree: &Tree) -> Result<Item, ScriptFault>
    ensures { Tells result (call_form (view tree.now)) }
{
    let (name, arguments): (Text, Values) = sole(alloc, tree, "call")?;
    Ok(Item::Call(name, arguments))
}

impl FromTree for Reply {
    ghost form = { reply_form };

    fn from_tree(alloc: Global, tree: &Tree) -> Result<Reply, ScriptFault> {
        if tree.is_object() {
            reply(alloc, tree)
        } else {
            Err(ScriptFault::here(alloc))
        }
    }
}

fn reply(alloc: Global, tree: &Tree) -> Result<Reply, ScriptFault>
    ensures { Tells result (reply_keys (view tree.now)) }
{
    let acts = field(alloc, tree, "acts")?;
    let values = field(alloc, tree, "values")?;
    if has_members(tree, 2) {
        Ok(Reply { acts, values })
    } else {
        Err(ScriptFault::here(alloc))
    }
}

impl FromTree for Script {
    ghost form = { script_form };

    fn from_tree(alloc: Global, tree: &Tree) -> Result<Script, ScriptFault> {
        if tree.is_object() {
            script(alloc, tree)
        } else {
            Err(ScriptFault::here(alloc))
        }
    }
}

fn script(alloc: Global, tree: &Tree) -> Result<Script, ScriptFault>
    ensures { Tells result (script_keys (view tree.now)) }
{
    let _version: Version = field(alloc, tree, "version")?;
    let globals = field(alloc, tree, "globals")?;
    let replies = field(alloc, tree, "replies")?;
    let grows = field(alloc, tree, "grows")?;
    let items = field(alloc, tree, "items")?;
    if has_members(tree, 5) {
        Ok(Script {
            globals,
            replies,
            grows,
            items,
        })
    } else {
        Err(ScriptFault::here(alloc))
    }
}
