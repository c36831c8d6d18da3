// What is read of a script, and that a copy of a script has the same parts.

use host_kit::{Act, Item, Reply, Script, Values, script_of};
use num_core::lists::TryCopy;
use serde_json::Value as Tree;
use std::alloc::{AllocError, Global};
use std::test::Fail;

/// A script with each form of a value, an act and an item.
static WHOLE: &str = r#"{"version":1,
"globals":[["i32",4294967295],["i64",18446744073709551615],["v128",1,2],["func",3],["extern",4],["null","func"],["null","extern"]],
"replies":[[],[{"acts":[{"set":["g",["i32",5]]},{"peek":["m",6,7]}],"values":[["i64",8]]},{"acts":[],"values":[]}]],
"grows":[true,false],
"items":[{"call":["f \u00e9",[["i32",9],["i32",10]]]},{"poke":["m",11,"00ff7f"]},{"set":["g",["v128",12,13]]}]}"#;

/// Its parts, each with a mark behind it.
static PARTS: &str =
    "i32 4294967295;i64 18446744073709551615;v128 1 2;func 3;extern 4;null func;null extern;.\
|set g i32 5;peek m 6 7;.i64 8;...|true false call f é i32 9;i32 10;.poke m 11 0 255 127 ;set g v128 12 13;";

fn push_values(text: &mut String, values: &Values) -> Result<(), AllocError> {
    for value in values.as_slice() {
        write!(text, "{value};")?;
    }
    text.push('.')
}

fn push_act(text: &mut String, act: &Act) -> Result<(), AllocError> {
    match act {
        Act::Set(name, value) => {
            let name = name.as_str();
            write!(text, "set {name} {value};")
        }
        Act::Peek(name, at, count) => {
            let name = name.as_str();
            write!(text, "peek {name} {at} {count};")
        }
        Act::Poke(name, at, bytes) => {
            let name = name.as_str();
            write!(text, "poke {name} {at} ")?;
            for byte in bytes.as_slice() {
                write!(text, "{byte} ")?;
            }
            text.push(';')
        }
    }
}

fn push_reply(text: &mut String, reply: &Reply) -> Result<(), AllocError> {
    for act in reply.acts.as_slice() {
        push_act(text, act)?;
    }
    text.push('.')?;
    push_values(text, &reply.values)
}

fn push_item(text: &mut String, item: &Item) -> Result<(), AllocError> {
    match item {
        Item::Call(name, arguments) => {
            let name = name.as_str();
            write!(text, "call {name} ")?;
            push_values(text, arguments)
        }
        Item::Host(act) => push_act(text, act),
    }
}

/// The parts of a script, in order.
fn parts(alloc: Global, script: &Script) -> Result<String, AllocError> {
    let mut text = String::new(alloc);
    push_values(&mut text, &script.globals)?;
    for replies in script.replies.as_slice() {
        for reply in replies.as_slice() {
            push_reply(&mut text, reply)?;
        }
        text.push('|')?;
    }
    for grow in script.grows.as_slice() {
        write!(text, "{grow} ")?;
    }
    for item in script.items.as_slice() {
        push_item(&mut text, item)?;
    }
    Ok(text)
}

#[test]
fn each_part(rt: HostRuntime) -> Result<(), Fail> {
    let tree = Tree::from_str(rt.alloc(), WHOLE)?;
    let script = script_of(rt.alloc(), &tree)?;
    assert_eq!(rt; parts(rt.alloc(), &script)?.as_str(), PARTS);
    let copy = script.copy(rt.alloc())?;
    assert_eq!(rt; parts(rt.alloc(), &copy)?.as_str(), PARTS);
    Ok(())
}
