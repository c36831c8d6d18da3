// Whether scripts fit a module.

use super::modules::{module, module1};
use host_kit::{Act, Item, Script, fits, fits1, script_of};
use num_core::lists::{Bytes, Text};
use serde_json::Value as Tree;
use std::alloc::{AllocError, Global};
use std::test::Fail;

/// Scripts over the module of 3.0.
static ROWS: [(&str, bool); 59] = [
    (
        r#"{"version":1,"globals":[["i64",7],["extern",4294967294]],"replies":[[{"acts":[],"values":[["i32",1],["i64",2]]}],[]],"grows":[],"items":[]}"#,
        true,
    ),
    (
        r#"{"version":1,"globals":[["i64",7],["extern",4294967294]],"replies":[[{"acts":[],"values":[["i32",1],["i64",2]]}],[]],"grows":[true,false],"items":[]}"#,
        true,
    ),
    (
        r#"{"version":1,"globals":[],"replies":[[{"acts":[],"values":[["i32",1],["i64",2]]}],[]],"grows":[],"items":[]}"#,
        false,
    ),
    (
        r#"{"version":1,"globals":[["i64",7]],"replies":[[{"acts":[],"values":[["i32",1],["i64",2]]}],[]],"grows":[],"items":[]}"#,
        false,
    ),
    (
        r#"{"version":1,"globals":[["i64",7],["extern",1],["i32",1]],"replies":[[{"acts":[],"values":[["i32",1],["i64",2]]}],[]],"grows":[],"items":[]}"#,
        false,
    ),
    (
        r#"{"version":1,"globals":[["extern",1],["i64",7]],"replies":[[{"acts":[],"values":[["i32",1],["i64",2]]}],[]],"grows":[],"items":[]}"#,
        false,
    ),
    (
        r#"{"version":1,"globals":[["i32",7],["extern",1]],"replies":[[{"acts":[],"values":[["i32",1],["i64",2]]}],[]],"grows":[],"items":[]}"#,
        false,
    ),
    (
        r#"{"version":1,"globals":[["i64",18446744073709551615],["null","extern"]],"replies":[[{"acts":[],"values":[["i32",1],["i64",2]]}],[]],"grows":[],"items":[]}"#,
        true,
    ),
    (
        r#"{"version":1,"globals":[["i64",7],["null","func"]],"replies":[[{"acts":[],"values":[["i32",1],["i64",2]]}],[]],"grows":[],"items":[]}"#,
        false,
    ),
    (
        r#"{"version":1,"globals":[["i64",7],["func",0]],"replies":[[{"acts":[],"values":[["i32",1],["i64",2]]}],[]],"grows":[],"items":[]}"#,
        false,
    ),
    (
        r#"{"version":1,"globals":[["i64",7],["extern",4294967295]],"replies":[[{"acts":[],"values":[["i32",1],["i64",2]]}],[]],"grows":[],"items":[]}"#,
        false,
    ),
    (
        r#"{"version":1,"globals":[["i64",7],["extern",4294967294]],"replies":[],"grows":[],"items":[]}"#,
        false,
    ),
    (
        r#"{"version":1,"globals":[["i64",7],["extern",4294967294]],"replies":[[]],"grows":[],"items":[]}"#,
        false,
    ),
    (
        r#"{"version":1,"globals":[["i64",7],["extern",4294967294]],"replies":[[],[]],"grows":[],"items":[]}"#,
        true,
    ),
    (
        r#"{"version":1,"globals":[["i64",7],["extern",4294967294]],"replies":[[],[],[]],"grows":[],"items":[]}"#,
        false,
    ),
    (
        r#"{"version":1,"globals":[["i64",7],["extern",4294967294]],"replies":[[],[{"acts":[],"values":[]}]],"grows":[],"items":[]}"#,
        true,
    ),
    (
        r#"{"version":1,"globals":[["i64",7],["extern",4294967294]],"replies":[[],[{"acts":[],"values":[["i32",1]]}]],"grows":[],"items":[]}"#,
        false,
    ),
    (
        r#"{"version":1,"globals":[["i64",7],["extern",4294967294]],"replies":[[{"acts":[],"values":[]}],[]],"grows":[],"items":[]}"#,
        false,
    ),
    (
        r#"{"version":1,"globals":[["i64",7],["extern",4294967294]],"replies":[[{"acts":[],"values":[["i32",1]]}],[]],"grows":[],"items":[]}"#,
        false,
    ),
    (
        r#"{"version":1,"globals":[["i64",7],["extern",4294967294]],"replies":[[{"acts":[],"values":[["i64",1],["i32",2]]}],[]],"grows":[],"items":[]}"#,
        false,
    ),
    (
        r#"{"version":1,"globals":[["i64",7],["extern",4294967294]],"replies":[[{"acts":[],"values":[["i32",1],["i64",2],["i32",3]]}],[]],"grows":[],"items":[]}"#,
        false,
    ),
    (
        r#"{"version":1,"globals":[["i64",7],["extern",4294967294]],"replies":[[{"acts":[],"values":[["i32",1],["i64",2]]},{"acts":[],"values":[]}],[]],"grows":[],"items":[]}"#,
        false,
    ),
    (
        r#"{"version":1,"globals":[["i64",7],["extern",4294967294]],"replies":[[{"acts":[{"set":["g",["i32",1]]},{"peek":["m",0,1]}],"values":[["i32",1],["i64",2]]}],[]],"grows":[],"items":[]}"#,
        true,
    ),
    (
        r#"{"version":1,"globals":[["i64",7],["extern",4294967294]],"replies":[[{"acts":[{"peek":["m",0,1]},{"set":["fixed",["i32",1]]}],"values":[["i32",1],["i64",2]]}],[]],"grows":[],"items":[]}"#,
        false,
    ),
    (
        r#"{"version":1,"globals":[["i64",7],["extern",4294967294]],"replies":[[{"acts":[],"values":[["i32",1],["i64",2]]}],[]],"grows":[],"items":[{"call":["f",[]]}]}"#,
        true,
    ),
    (
        r#"{"version":1,"globals":[["i64",7],["extern",4294967294]],"replies":[[{"acts":[],"values":[["i32",1],["i64",2]]}],[]],"grows":[],"items":[{"call":["f",[["i32",1]]]}]}"#,
        false,
    ),
    (
        r#"{"version":1,"globals":[["i64",7],["extern",4294967294]],"replies":[[{"acts":[],"values":[["i32",1],["i64",2]]}],[]],"grows":[],"items":[{"call":["j",[["i32",1],["i64",2],["v128",3,4],["func",2],["extern",0]]]}]}"#,
        true,
    ),
    (
        r#"{"version":1,"globals":[["i64",7],["extern",4294967294]],"replies":[[{"acts":[],"values":[["i32",1],["i64",2]]}],[]],"grows":[],"items":[{"call":["j",[["i32",1],["i64",2],["v128",3,4],["null","func"],["null","extern"]]]}]}"#,
        true,
    ),
    (
        r#"{"version":1,"globals":[["i64",7],["extern",4294967294]],"replies":[[{"acts":[],"values":[["i32",1],["i64",2]]}],[]],"grows":[],"items":[{"call":["j",[["i32",1],["i64",2],["v128",3,4],["func",3],["extern",0]]]}]}"#,
        false,
    ),
    (
        r#"{"version":1,"globals":[["i64",7],["extern",4294967294]],"replies":[[{"acts":[],"values":[["i32",1],["i64",2]]}],[]],"grows":[],"items":[{"call":["j",[["i32",1],["i64",2],["v128",3,4],["func",2],["extern",4294967295]]]}]}"#,
        false,
    ),
    (
        r#"{"version":1,"globals":[["i64",7],["extern",4294967294]],"replies":[[{"acts":[],"values":[["i32",1],["i64",2]]}],[]],"grows":[],"items":[{"call":["j",[["i64",1],["i64",2],["v128",3,4],["func",2],["extern",0]]]}]}"#,
        false,
    ),
    (
        r#"{"version":1,"globals":[["i64",7],["extern",4294967294]],"replies":[[{"acts":[],"values":[["i32",1],["i64",2]]}],[]],"grows":[],"items":[{"call":["j",[["i32",1],["i64",2],["v128",3,4],["extern",0],["func",2]]]}]}"#,
        false,
    ),
    (
        r#"{"version":1,"globals":[["i64",7],["extern",4294967294]],"replies":[[{"acts":[],"values":[["i32",1],["i64",2]]}],[]],"grows":[],"items":[{"call":["j",[["i32",1],["i64",2]]]}]}"#,
        false,
    ),
    (
        r#"{"version":1,"globals":[["i64",7],["extern",4294967294]],"replies":[[{"acts":[],"values":[["i32",1],["i64",2]]}],[]],"grows":[],"items":[{"call":["absent",[]]}]}"#,
        false,
    ),
    (
        r#"{"version":1,"globals":[["i64",7],["extern",4294967294]],"replies":[[{"acts":[],"values":[["i32",1],["i64",2]]}],[]],"grows":[],"items":[{"call":["F",[]]}]}"#,
        false,
    ),
    (
        r#"{"version":1,"globals":[["i64",7],["extern",4294967294]],"replies":[[{"acts":[],"values":[["i32",1],["i64",2]]}],[]],"grows":[],"items":[{"call":["",[]]}]}"#,
        false,
    ),
    (
        r#"{"version":1,"globals":[["i64",7],["extern",4294967294]],"replies":[[{"acts":[],"values":[["i32",1],["i64",2]]}],[]],"grows":[],"items":[{"call":["g",[]]}]}"#,
        false,
    ),
    (
        r#"{"version":1,"globals":[["i64",7],["extern",4294967294]],"replies":[[{"acts":[],"values":[["i32",1],["i64",2]]}],[]],"grows":[],"items":[{"call":["m",[]]}]}"#,
        false,
    ),
    (
        r#"{"version":1,"globals":[["i64",7],["extern",4294967294]],"replies":[[{"acts":[],"values":[["i32",1],["i64",2]]}],[]],"grows":[],"items":[{"call":["t",[]]}]}"#,
        false,
    ),
    (
        r#"{"version":1,"globals":[["i64",7],["extern",4294967294]],"replies":[[{"acts":[],"values":[["i32",1],["i64",2]]}],[]],"grows":[],"items":[{"call":["e",[]]}]}"#,
        false,
    ),
    (
        r#"{"version":1,"globals":[["i64",7],["extern",4294967294]],"replies":[[{"acts":[],"values":[["i32",1],["i64",2]]}],[]],"grows":[],"items":[{"call":["no function",[]]}]}"#,
        false,
    ),
    (
        r#"{"version":1,"globals":[["i64",7],["extern",4294967294]],"replies":[[{"acts":[],"values":[["i32",1],["i64",2]]}],[]],"grows":[],"items":[{"call":["no type",[]]}]}"#,
        false,
    ),
    (
        r#"{"version":1,"globals":[["i64",7],["extern",4294967294]],"replies":[[{"acts":[],"values":[["i32",1],["i64",2]]}],[]],"grows":[],"items":[{"set":["g",["i32",1]]}]}"#,
        true,
    ),
    (
        r#"{"version":1,"globals":[["i64",7],["extern",4294967294]],"replies":[[{"acts":[],"values":[["i32",1],["i64",2]]}],[]],"grows":[],"items":[{"set":["g",["i64",1]]}]}"#,
        false,
    ),
    (
        r#"{"version":1,"globals":[["i64",7],["extern",4294967294]],"replies":[[{"acts":[],"values":[["i32",1],["i64",2]]}],[]],"grows":[],"items":[{"set":["fixed",["i32",1]]}]}"#,
        false,
    ),
    (
        r#"{"version":1,"globals":[["i64",7],["extern",4294967294]],"replies":[[{"acts":[],"values":[["i32",1],["i64",2]]}],[]],"grows":[],"items":[{"set":["given",["i64",1]]}]}"#,
        false,
    ),
    (
        r#"{"version":1,"globals":[["i64",7],["extern",4294967294]],"replies":[[{"acts":[],"values":[["i32",1],["i64",2]]}],[]],"grows":[],"items":[{"set":["absent",["i32",1]]}]}"#,
        false,
    ),
    (
        r#"{"version":1,"globals":[["i64",7],["extern",4294967294]],"replies":[[{"acts":[],"values":[["i32",1],["i64",2]]}],[]],"grows":[],"items":[{"set":["f",["i32",1]]}]}"#,
        false,
    ),
    (
        r#"{"version":1,"globals":[["i64",7],["extern",4294967294]],"replies":[[{"acts":[],"values":[["i32",1],["i64",2]]}],[]],"grows":[],"items":[{"set":["no global",["i32",1]]}]}"#,
        false,
    ),
    (
        r#"{"version":1,"globals":[["i64",7],["extern",4294967294]],"replies":[[{"acts":[],"values":[["i32",1],["i64",2]]}],[]],"grows":[],"items":[{"peek":["m",0,1]}]}"#,
        true,
    ),
    (
        r#"{"version":1,"globals":[["i64",7],["extern",4294967294]],"replies":[[{"acts":[],"values":[["i32",1],["i64",2]]}],[]],"grows":[],"items":[{"peek":["n",18446744073709551615,65536]}]}"#,
        true,
    ),
    (
        r#"{"version":1,"globals":[["i64",7],["extern",4294967294]],"replies":[[{"acts":[],"values":[["i32",1],["i64",2]]}],[]],"grows":[],"items":[{"peek":["g",0,1]}]}"#,
        false,
    ),
    (
        r#"{"version":1,"globals":[["i64",7],["extern",4294967294]],"replies":[[{"acts":[],"values":[["i32",1],["i64",2]]}],[]],"grows":[],"items":[{"peek":["absent",0,1]}]}"#,
        false,
    ),
    (
        r#"{"version":1,"globals":[["i64",7],["extern",4294967294]],"replies":[[{"acts":[],"values":[["i32",1],["i64",2]]}],[]],"grows":[],"items":[{"peek":["no memory",0,1]}]}"#,
        false,
    ),
    (
        r#"{"version":1,"globals":[["i64",7],["extern",4294967294]],"replies":[[{"acts":[],"values":[["i32",1],["i64",2]]}],[]],"grows":[],"items":[{"peek":["t",0,0]}]}"#,
        false,
    ),
    (
        r#"{"version":1,"globals":[["i64",7],["extern",4294967294]],"replies":[[{"acts":[],"values":[["i32",1],["i64",2]]}],[]],"grows":[],"items":[{"poke":["n",0,"00ff"]}]}"#,
        true,
    ),
    (
        r#"{"version":1,"globals":[["i64",7],["extern",4294967294]],"replies":[[{"acts":[],"values":[["i32",1],["i64",2]]}],[]],"grows":[],"items":[{"poke":["f",0,"00"]}]}"#,
        false,
    ),
    (
        r#"{"version":1,"globals":[["i64",7],["extern",4294967294]],"replies":[[{"acts":[],"values":[["i32",1],["i64",2]]}],[]],"grows":[],"items":[{"poke":["absent",0,""]}]}"#,
        false,
    ),
    (
        r#"{"version":1,"globals":[["i64",7],["extern",4294967294]],"replies":[[{"acts":[],"values":[["i32",1],["i64",2]]}],[]],"grows":[],"items":[{"call":["f",[]]},{"peek":["m",0,1]},{"poke":["no memory",0,""]}]}"#,
        false,
    ),
];

/// Scripts over the module of 1.0.
static ROWS1: [(&str, bool); 34] = [
    (
        r#"{"version":1,"globals":[["i64",7]],"replies":[[{"acts":[],"values":[["i32",1]]}],[]],"grows":[],"items":[]}"#,
        true,
    ),
    (
        r#"{"version":1,"globals":[],"replies":[[{"acts":[],"values":[["i32",1]]}],[]],"grows":[],"items":[]}"#,
        false,
    ),
    (
        r#"{"version":1,"globals":[["i32",7]],"replies":[[{"acts":[],"values":[["i32",1]]}],[]],"grows":[],"items":[]}"#,
        false,
    ),
    (
        r#"{"version":1,"globals":[["i64",7],["i64",7]],"replies":[[{"acts":[],"values":[["i32",1]]}],[]],"grows":[],"items":[]}"#,
        false,
    ),
    (
        r#"{"version":1,"globals":[["v128",7,0]],"replies":[[{"acts":[],"values":[["i32",1]]}],[]],"grows":[],"items":[]}"#,
        false,
    ),
    (
        r#"{"version":1,"globals":[["i64",7]],"replies":[],"grows":[],"items":[]}"#,
        false,
    ),
    (
        r#"{"version":1,"globals":[["i64",7]],"replies":[[]],"grows":[],"items":[]}"#,
        false,
    ),
    (
        r#"{"version":1,"globals":[["i64",7]],"replies":[[],[]],"grows":[],"items":[]}"#,
        true,
    ),
    (
        r#"{"version":1,"globals":[["i64",7]],"replies":[[],[],[]],"grows":[],"items":[]}"#,
        false,
    ),
    (
        r#"{"version":1,"globals":[["i64",7]],"replies":[[{"acts":[],"values":[]}],[]],"grows":[],"items":[]}"#,
        false,
    ),
    (
        r#"{"version":1,"globals":[["i64",7]],"replies":[[{"acts":[],"values":[["i64",1]]}],[]],"grows":[],"items":[]}"#,
        false,
    ),
    (
        r#"{"version":1,"globals":[["i64",7]],"replies":[[],[{"acts":[],"values":[["i32",1]]}]],"grows":[],"items":[]}"#,
        false,
    ),
    (
        r#"{"version":1,"globals":[["i64",7]],"replies":[[{"acts":[{"set":["g",["i32",1]]},{"poke":["m",0,"00"]}],"values":[["i32",1]]}],[]],"grows":[],"items":[]}"#,
        true,
    ),
    (
        r#"{"version":1,"globals":[["i64",7]],"replies":[[{"acts":[{"set":["given",["i64",1]]}],"values":[["i32",1]]}],[]],"grows":[],"items":[]}"#,
        false,
    ),
    (
        r#"{"version":1,"globals":[["i64",7]],"replies":[[{"acts":[],"values":[["i32",1]]}],[]],"grows":[],"items":[{"call":["f",[]]}]}"#,
        true,
    ),
    (
        r#"{"version":1,"globals":[["i64",7]],"replies":[[{"acts":[],"values":[["i32",1]]}],[]],"grows":[],"items":[{"call":["j",[["i32",1],["i64",2]]]}]}"#,
        true,
    ),
    (
        r#"{"version":1,"globals":[["i64",7]],"replies":[[{"acts":[],"values":[["i32",1]]}],[]],"grows":[],"items":[{"call":["j",[["i64",2],["i32",1]]]}]}"#,
        false,
    ),
    (
        r#"{"version":1,"globals":[["i64",7]],"replies":[[{"acts":[],"values":[["i32",1]]}],[]],"grows":[],"items":[{"call":["j",[["i32",1]]]}]}"#,
        false,
    ),
    (
        r#"{"version":1,"globals":[["i64",7]],"replies":[[{"acts":[],"values":[["i32",1]]}],[]],"grows":[],"items":[{"call":["j",[["i32",1],["func",2]]]}]}"#,
        false,
    ),
    (
        r#"{"version":1,"globals":[["i64",7]],"replies":[[{"acts":[],"values":[["i32",1]]}],[]],"grows":[],"items":[{"call":["absent",[]]}]}"#,
        false,
    ),
    (
        r#"{"version":1,"globals":[["i64",7]],"replies":[[{"acts":[],"values":[["i32",1]]}],[]],"grows":[],"items":[{"call":["g",[]]}]}"#,
        false,
    ),
    (
        r#"{"version":1,"globals":[["i64",7]],"replies":[[{"acts":[],"values":[["i32",1]]}],[]],"grows":[],"items":[{"call":["no function",[]]}]}"#,
        false,
    ),
    (
        r#"{"version":1,"globals":[["i64",7]],"replies":[[{"acts":[],"values":[["i32",1]]}],[]],"grows":[],"items":[{"set":["g",["i32",1]]}]}"#,
        true,
    ),
    (
        r#"{"version":1,"globals":[["i64",7]],"replies":[[{"acts":[],"values":[["i32",1]]}],[]],"grows":[],"items":[{"set":["g",["i64",1]]}]}"#,
        false,
    ),
    (
        r#"{"version":1,"globals":[["i64",7]],"replies":[[{"acts":[],"values":[["i32",1]]}],[]],"grows":[],"items":[{"set":["g",["null","func"]]}]}"#,
        false,
    ),
    (
        r#"{"version":1,"globals":[["i64",7]],"replies":[[{"acts":[],"values":[["i32",1]]}],[]],"grows":[],"items":[{"set":["fixed",["i32",1]]}]}"#,
        false,
    ),
    (
        r#"{"version":1,"globals":[["i64",7]],"replies":[[{"acts":[],"values":[["i32",1]]}],[]],"grows":[],"items":[{"set":["given",["i64",1]]}]}"#,
        false,
    ),
    (
        r#"{"version":1,"globals":[["i64",7]],"replies":[[{"acts":[],"values":[["i32",1]]}],[]],"grows":[],"items":[{"set":["no global",["i32",1]]}]}"#,
        false,
    ),
    (
        r#"{"version":1,"globals":[["i64",7]],"replies":[[{"acts":[],"values":[["i32",1]]}],[]],"grows":[],"items":[{"set":["f",["i32",1]]}]}"#,
        false,
    ),
    (
        r#"{"version":1,"globals":[["i64",7]],"replies":[[{"acts":[],"values":[["i32",1]]}],[]],"grows":[],"items":[{"peek":["m",0,65536]}]}"#,
        true,
    ),
    (
        r#"{"version":1,"globals":[["i64",7]],"replies":[[{"acts":[],"values":[["i32",1]]}],[]],"grows":[],"items":[{"peek":["no memory",0,1]}]}"#,
        false,
    ),
    (
        r#"{"version":1,"globals":[["i64",7]],"replies":[[{"acts":[],"values":[["i32",1]]}],[]],"grows":[],"items":[{"peek":["t",0,1]}]}"#,
        false,
    ),
    (
        r#"{"version":1,"globals":[["i64",7]],"replies":[[{"acts":[],"values":[["i32",1]]}],[]],"grows":[],"items":[{"poke":["m",18446744073709551615,"00"]}]}"#,
        true,
    ),
    (
        r#"{"version":1,"globals":[["i64",7]],"replies":[[{"acts":[],"values":[["i32",1]]}],[]],"grows":[],"items":[{"poke":["g",0,"00"]}]}"#,
        false,
    ),
];

/// The script of a text.
fn script(alloc: Global, text: &str) -> Result<Script, Fail> {
    let tree = Tree::from_str(alloc, text)?;
    Ok(script_of(alloc, &tree)?)
}

#[test]
fn scripts_over_a_module(rt: HostRuntime) -> Result<(), Fail> {
    let m = module(rt.alloc())?;
    let mut wrong = 0usize;
    for (text, answer) in &ROWS {
        if fits(&m, &script(rt.alloc(), text)?) != *answer {
            wrong = wrong.saturating_add(1);
        }
    }
    assert_eq!(rt; wrong, 0);
    Ok(())
}

#[test]
fn scripts_over_a_module_of_1_0(rt: HostRuntime) -> Result<(), Fail> {
    let m = module1(rt.alloc())?;
    let mut wrong = 0usize;
    for (text, answer) in &ROWS1 {
        if fits1(&m, &script(rt.alloc(), text)?) != *answer {
            wrong = wrong.saturating_add(1);
        }
    }
    assert_eq!(rt; wrong, 0);
    Ok(())
}

/// A script that fits both modules but for this item alone.
fn with_item(alloc: Global, over_1_0: bool, act: Act) -> Result<Script, Fail> {
    let text = if over_1_0 {
        r#"{"version":1,"globals":[["i64",7]],"replies":[[],[]],"grows":[],"items":[]}"#
    } else {
        r#"{"version":1,"globals":[["i64",7],["extern",1]],"replies":[[],[]],"grows":[],"items":[]}"#
    };
    let mut script = script(alloc, text)?;
    script.items.push(Item::Host(act))?;
    Ok(script)
}

/// Whether this act alone fits both modules.
fn both_fit(alloc: Global, act: Act, again: Act) -> Result<[bool; 2], Fail> {
    let first = fits(&module(alloc)?, &with_item(alloc, false, act)?);
    let second = fits1(&module1(alloc)?, &with_item(alloc, true, again)?);
    Ok([first, second])
}

/// A read of so many bytes.
fn peek(alloc: Global, count: u32) -> Result<Act, AllocError> {
    Ok(Act::Peek(Text::new(alloc, "m")?, 0, count))
}

/// A write of so many bytes.
fn poke(alloc: Global, count: usize) -> Result<Act, AllocError> {
    let mut bytes = Bytes::new(alloc);
    for _ in 0..count {
        bytes.push(0)?;
    }
    Ok(Act::Poke(Text::new(alloc, "m")?, 0, bytes))
}

#[test]
fn more_bytes_than_at_once(rt: HostRuntime) -> Result<(), Fail> {
    let alloc = rt.alloc();
    for (count, fits) in &[(65536u32, true), (65537, false)] {
        let reads = both_fit(alloc, peek(alloc, *count)?, peek(alloc, *count)?)?;
        assert_eq!(rt; reads, [*fits, *fits]);
        let size = *count as usize;
        let writes = both_fit(alloc, poke(alloc, size)?, poke(alloc, size)?)?;
        assert_eq!(rt; writes, [*fits, *fits]);
    }
    Ok(())
}

/// The text of a script with so many calls.
fn many_calls(alloc: Global, count: usize) -> Result<String, AllocError> {
    let front =
        r#"{"version":1,"globals":[["i64",7],["extern",1]],"replies":[[],[]],"grows":[],"items":["#;
    let mut text = String::from_str(alloc, front)?;
    for _ in 0..count {
        text.push_str(r#"{"call":["f",[]]},"#)?;
    }
    text.push_str(r#"{"peek":["m",0,1]}]}"#)?;
    Ok(text)
}

#[test]
fn many_items(rt: HostRuntime) -> Result<(), Fail> {
    let text = many_calls(rt.alloc(), 100_000)?;
    let script = script(rt.alloc(), text.as_str())?;
    assert_eq!(rt; script.items.len(), 100_001);
    assert!(rt; fits(&module(rt.alloc())?, &script));
    Ok(())
}
