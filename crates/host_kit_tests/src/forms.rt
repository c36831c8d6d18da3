// The form of scripts: trees, each with the path of the first place that is not of the form, or `ok`.

use host_kit::{ScriptFault, script_of};
use num_core::lists::Text;
use serde_json::Value as Tree;
use std::alloc::{AllocError, Global};
use std::test::Fail;

/// Values, as the only one of the imported globals.
static VALUES: [(&str, &str); 66] = [
    (r#"["i32",0]"#, "ok"),
    (r#"["i32",4294967295]"#, "ok"),
    (r#"["i64",18446744073709551615]"#, "ok"),
    (r#"["v128",0,18446744073709551615]"#, "ok"),
    (r#"["func",4294967295]"#, "ok"),
    (r#"["extern",4294967295]"#, "ok"),
    (r#"["null","func"]"#, "ok"),
    (r#"["null","extern"]"#, "ok"),
    (r#"7"#, ""),
    (r#""i32""#, ""),
    (r#"null"#, ""),
    (r#"true"#, ""),
    (r#"{}"#, ""),
    (r#"{"i32":1}"#, ""),
    (r#"[]"#, ""),
    (r#"[7]"#, "/0"),
    (r#"[null,1]"#, "/0"),
    (r#"["i31",1]"#, "/0"),
    (r#"["I32",1]"#, "/0"),
    (r#"["f32",1]"#, "/0"),
    (r#"["i32 ",1]"#, "/0"),
    (r#"["",1]"#, "/0"),
    (r#"[["i32"],1]"#, "/0"),
    (r#"["exn"]"#, "/0"),
    (r#"["i32"]"#, ""),
    (r#"["i32",1,2]"#, ""),
    (r#"["i64"]"#, ""),
    (r#"["v128",1]"#, ""),
    (r#"["v128",1,2,3]"#, ""),
    (r#"["func"]"#, ""),
    (r#"["extern",1,1]"#, ""),
    (r#"["null"]"#, ""),
    (r#"["null","func",1]"#, ""),
    (r#"["i32",4294967296]"#, "/1"),
    (r#"["i32",-1]"#, "/1"),
    (r#"["i32",-0]"#, "/1"),
    (r#"["i32",1.0]"#, "/1"),
    (r#"["i32",1e0]"#, "/1"),
    (r#"["i32",1.5]"#, "/1"),
    (r#"["i32","1"]"#, "/1"),
    (r#"["i32",null]"#, "/1"),
    (r#"["i32",true]"#, "/1"),
    (r#"["i32",[1]]"#, "/1"),
    (r#"["i32",{}]"#, "/1"),
    (r#"["i64",18446744073709551616]"#, "/1"),
    (r#"["i64",-1]"#, "/1"),
    (r#"["i64","1"]"#, "/1"),
    (r#"["i64",1.0]"#, "/1"),
    (r#"["v128",18446744073709551616,0]"#, "/1"),
    (r#"["v128","0",0]"#, "/1"),
    (r#"["v128",-1,"x"]"#, "/1"),
    (r#"["v128",0,18446744073709551616]"#, "/2"),
    (r#"["v128",0,0.5]"#, "/2"),
    (r#"["v128",0,-1]"#, "/2"),
    (r#"["func",4294967296]"#, "/1"),
    (r#"["func","f"]"#, "/1"),
    (r#"["func",-1]"#, "/1"),
    (r#"["func",1.0]"#, "/1"),
    (r#"["extern",-1]"#, "/1"),
    (r#"["extern",4294967296]"#, "/1"),
    (r#"["extern",1.0]"#, "/1"),
    (r#"["extern","1"]"#, "/1"),
    (r#"["null","exn"]"#, "/1"),
    (r#"["null",0]"#, "/1"),
    (r#"["null","Func"]"#, "/1"),
    (r#"["null","externref"]"#, "/1"),
];

/// Acts, as the only one of the only reply.
static ACTS: [(&str, &str); 64] = [
    (r#"{"set":["g",["i32",1]]}"#, "ok"),
    (r#"{"set":["",["null","extern"]]}"#, "ok"),
    (r#"{"peek":["m",18446744073709551615,65536]}"#, "ok"),
    (r#"{"peek":["m",0,0]}"#, "ok"),
    (r#"{"poke":["m",0,""]}"#, "ok"),
    (r#"{"poke":["m",18446744073709551615,"00ff0a9e"]}"#, "ok"),
    (r#"7"#, ""),
    (r#""set""#, ""),
    (r#"null"#, ""),
    (r#"["set"]"#, ""),
    (r#"{}"#, ""),
    (r#"{"call":["f",[]]}"#, ""),
    (r#"{"grow":1}"#, ""),
    (r#"{"Set":["g",["i32",1]]}"#, ""),
    (r#"{"set":7}"#, "/set"),
    (r#"{"set":{}}"#, "/set"),
    (r#"{"set":[]}"#, "/set"),
    (r#"{"set":["g"]}"#, "/set"),
    (r#"{"set":["g",["i32",1],1]}"#, "/set"),
    (r#"{"set":[1,["i32",1]]}"#, "/set/0"),
    (r#"{"set":["g",7]}"#, "/set/1"),
    (r#"{"set":["g",[]]}"#, "/set/1"),
    (r#"{"set":["g",["i33",1]]}"#, "/set/1/0"),
    (r#"{"set":["g",["i32",-1]]}"#, "/set/1/1"),
    (r#"{"peek":{}}"#, "/peek"),
    (r#"{"peek":["m",0]}"#, "/peek"),
    (r#"{"peek":["m",0,1,1]}"#, "/peek"),
    (r#"{"peek":[0,0,0]}"#, "/peek/0"),
    (r#"{"peek":["m",-1,0]}"#, "/peek/1"),
    (r#"{"peek":["m",18446744073709551616,0]}"#, "/peek/1"),
    (r#"{"peek":["m",1.0,0]}"#, "/peek/1"),
    (r#"{"peek":["m",0,65537]}"#, "/peek/2"),
    (r#"{"peek":["m",0,4294967296]}"#, "/peek/2"),
    (r#"{"peek":["m",0,-1]}"#, "/peek/2"),
    (r#"{"peek":["m",0,1.0]}"#, "/peek/2"),
    (r#"{"peek":["m",0,"1"]}"#, "/peek/2"),
    (r#"{"poke":"00"}"#, "/poke"),
    (r#"{"poke":["m",0]}"#, "/poke"),
    (r#"{"poke":["m",0,"00",1]}"#, "/poke"),
    (r#"{"poke":[null,0,"00"]}"#, "/poke/0"),
    (r#"{"poke":["m","0","00"]}"#, "/poke/1"),
    (r#"{"poke":["m",-1,"00"]}"#, "/poke/1"),
    (r#"{"poke":["m",1.0,"00"]}"#, "/poke/1"),
    (r#"{"poke":["m",18446744073709551616,"00"]}"#, "/poke/1"),
    (r#"{"poke":["m",0,7]}"#, "/poke/2"),
    (r#"{"poke":["m",0,["00"]]}"#, "/poke/2"),
    (r#"{"poke":["m",0,"0"]}"#, "/poke/2"),
    (r#"{"poke":["m",0,"000"]}"#, "/poke/2"),
    (r#"{"poke":["m",0,"0A"]}"#, "/poke/2"),
    (r#"{"poke":["m",0,"F0"]}"#, "/poke/2"),
    (r#"{"poke":["m",0,"0g"]}"#, "/poke/2"),
    (r#"{"poke":["m",0,"/0"]}"#, "/poke/2"),
    (r#"{"poke":["m",0,"0:"]}"#, "/poke/2"),
    (r#"{"poke":["m",0,"0`"]}"#, "/poke/2"),
    (r#"{"poke":["m",0,"0x00"]}"#, "/poke/2"),
    (r#"{"poke":["m",0," 00"]}"#, "/poke/2"),
    (r#"{"set":["g",["i32",1]],"peek":["m",0,1]}"#, ""),
    (r#"{"peek":["m",0,1],"set":["g",["i32",1]]}"#, ""),
    (r#"{"peek":["m",0,1],"poke":["m",0,""]}"#, ""),
    (r#"{"set":["g",["i32",1]],"x":1}"#, ""),
    (r#"{"x":1,"poke":["m",0,""]}"#, ""),
    (r#"{"peek":7,"set":7}"#, "/set"),
    (r#"{"poke":7,"peek":7}"#, "/peek"),
    (r#"{"poke":7,"x":1}"#, "/poke"),
];

/// Replies, as the only one.
static REPLIES: [(&str, &str); 19] = [
    (r#"{"acts":[],"values":[]}"#, "ok"),
    (
        r#"{"values":[["i32",1]],"acts":[{"peek":["m",0,1]},{"poke":["m",0,"00"]}]}"#,
        "ok",
    ),
    (r#"7"#, ""),
    (r#"[]"#, ""),
    (r#"null"#, ""),
    (r#"{}"#, "/acts"),
    (r#"{"values":[]}"#, "/acts"),
    (r#"{"values":7}"#, "/acts"),
    (r#"{"acts":[]}"#, "/values"),
    (r#"{"acts":7,"values":7}"#, "/acts"),
    (r#"{"acts":{},"values":[]}"#, "/acts"),
    (r#"{"acts":[],"values":7}"#, "/values"),
    (r#"{"acts":[],"values":null}"#, "/values"),
    (r#"{"acts":[7],"values":7}"#, "/acts/0"),
    (
        r#"{"acts":[{"peek":["m",0,1]},{"peek":["m",0,"1"]}],"values":[]}"#,
        "/acts/1/peek/2",
    ),
    (r#"{"acts":[],"values":[7]}"#, "/values/0"),
    (
        r#"{"acts":[],"values":[["i32",1],["i32",1.5]]}"#,
        "/values/1/1",
    ),
    (r#"{"acts":[],"values":[],"throw":["x",[]]}"#, ""),
    (r#"{"acts":7,"x":1,"values":[]}"#, "/acts"),
];

/// Items, as the only one.
static ITEMS: [(&str, &str); 25] = [
    (r#"{"call":["f",[]]}"#, "ok"),
    (r#"{"call":["",[["i32",1],["i64",2],["v128",1,2]]]}"#, "ok"),
    (r#"{"set":["g",["i32",1]]}"#, "ok"),
    (r#"{"peek":["m",0,1]}"#, "ok"),
    (r#"{"poke":["m",0,"00"]}"#, "ok"),
    (r#"7"#, ""),
    (r#"[]"#, ""),
    (r#"null"#, ""),
    (r#""call""#, ""),
    (r#"{}"#, ""),
    (r#"{"calls":["f",[]]}"#, ""),
    (r#"{"call":7}"#, "/call"),
    (r#"{"call":["f"]}"#, "/call"),
    (r#"{"call":["f",[],1]}"#, "/call"),
    (r#"{"call":[7,[]]}"#, "/call/0"),
    (r#"{"call":["f",7]}"#, "/call/1"),
    (r#"{"call":["f",{}]}"#, "/call/1"),
    (r#"{"call":["f",[7]]}"#, "/call/1/0"),
    (r#"{"call":["f",[["i32",1],["i32"]]]}"#, "/call/1/1"),
    (r#"{"call":["f",[["i32",1],["i32",-1]]]}"#, "/call/1/1/1"),
    (r#"{"call":["f",[]],"set":["g",["i32",1]]}"#, ""),
    (r#"{"call":["f",[]],"x":1}"#, ""),
    (r#"{"set":7,"call":7}"#, "/call"),
    (r#"{"poke":["m",0,"0"]}"#, "/poke/2"),
    (r#"{"peek":["m",0,1],"set":["g",["i32",1]]}"#, ""),
];

/// Whole scripts.
static WHOLE: [(&str, &str); 42] = [
    (
        r#"{"version":1,"globals":[],"replies":[],"grows":[],"items":[]}"#,
        "ok",
    ),
    (
        r#"{"items":[],"grows":[true,false],"replies":[[],[]],"globals":[],"version":1}"#,
        "ok",
    ),
    (
        r#" { "version" : 1 , "globals" : [ ] , "replies" : [ ] , "grows" : [ ] , "items" : [ ] } "#,
        "ok",
    ),
    (r#"7"#, ""),
    (r#"[]"#, ""),
    (r#"null"#, ""),
    (r#""script""#, ""),
    (r#"{}"#, "/version"),
    (
        r#"{"globals":[],"replies":[],"grows":[],"items":[]}"#,
        "/version",
    ),
    (
        r#"{"version":2,"globals":[],"replies":[],"grows":[],"items":[]}"#,
        "/version",
    ),
    (
        r#"{"version":0,"globals":[],"replies":[],"grows":[],"items":[]}"#,
        "/version",
    ),
    (
        r#"{"version":1.0,"globals":[],"replies":[],"grows":[],"items":[]}"#,
        "/version",
    ),
    (
        r#"{"version":"1","globals":[],"replies":[],"grows":[],"items":[]}"#,
        "/version",
    ),
    (
        r#"{"version":[1],"globals":[],"replies":[],"grows":[],"items":[]}"#,
        "/version",
    ),
    (
        r#"{"version":1,"replies":[],"grows":[],"items":[]}"#,
        "/globals",
    ),
    (
        r#"{"version":1,"globals":7,"replies":[],"grows":[],"items":[]}"#,
        "/globals",
    ),
    (
        r#"{"version":1,"globals":{},"replies":[],"grows":[],"items":[]}"#,
        "/globals",
    ),
    (
        r#"{"version":1,"globals":[7],"replies":[],"grows":[],"items":[]}"#,
        "/globals/0",
    ),
    (
        r#"{"version":1,"globals":[],"grows":[],"items":[]}"#,
        "/replies",
    ),
    (
        r#"{"version":1,"globals":[],"replies":7,"grows":[],"items":[]}"#,
        "/replies",
    ),
    (
        r#"{"version":1,"globals":[],"replies":[7],"grows":[],"items":[]}"#,
        "/replies/0",
    ),
    (
        r#"{"version":1,"globals":[],"replies":[[],{}],"grows":[],"items":[]}"#,
        "/replies/1",
    ),
    (
        r#"{"version":1,"globals":[],"replies":[[7]],"grows":[],"items":[]}"#,
        "/replies/0/0",
    ),
    (
        r#"{"version":1,"globals":[],"replies":[],"items":[]}"#,
        "/grows",
    ),
    (
        r#"{"version":1,"globals":[],"replies":[],"grows":true,"items":[]}"#,
        "/grows",
    ),
    (
        r#"{"version":1,"globals":[],"replies":[],"grows":[1],"items":[]}"#,
        "/grows/0",
    ),
    (
        r#"{"version":1,"globals":[],"replies":[],"grows":[true,null],"items":[]}"#,
        "/grows/1",
    ),
    (
        r#"{"version":1,"globals":[],"replies":[],"grows":["true"],"items":[]}"#,
        "/grows/0",
    ),
    (
        r#"{"version":1,"globals":[],"replies":[],"grows":[]}"#,
        "/items",
    ),
    (
        r#"{"version":1,"globals":[],"replies":[],"grows":[],"items":{}}"#,
        "/items",
    ),
    (
        r#"{"version":1,"globals":[],"replies":[],"grows":[],"items":[7]}"#,
        "/items/0",
    ),
    (
        r#"{"version":1,"globals":[],"replies":[],"grows":[],"items":[],"memories":[]}"#,
        "",
    ),
    (
        r#"{"version":1,"globals":[],"replies":[],"grows":[],"items":[],"Version":1}"#,
        "",
    ),
    (
        r#"{"version":1,"globals":[],"replies":[],"grows":[],"items":7,"memories":[]}"#,
        "/items",
    ),
    (
        r#"{"version":2,"globals":7,"replies":[],"grows":[],"items":7}"#,
        "/version",
    ),
    (
        r#"{"version":1,"globals":7,"replies":7,"grows":7,"items":7}"#,
        "/globals",
    ),
    (
        r#"{"version":1,"globals":[],"replies":7,"grows":7,"items":7}"#,
        "/replies",
    ),
    (
        r#"{"version":1,"globals":[],"replies":[],"grows":7,"items":7}"#,
        "/grows",
    ),
    (
        r#"{"version":1,"globals":[],"replies":[[{"acts":[],"values":7}]],"grows":[],"items":[{"call":["f",[]]}]}"#,
        "/replies/0/0/values",
    ),
    (
        r#"{"version":2,"globals":[],"replies":[],"grows":[],"items":[]}"#,
        "/version",
    ),
    (
        r#"{"version":1,"globals":[],"replies":[[{"acts":[],"values":[["i32",1],["i64",18446744073709551615],["i32",4294967295]]}]],"grows":[],"items":[{"call":["f",[]]}]}"#,
        "ok",
    ),
    (
        r#"{"version":1,"globals":[],"replies":[],"grows":[],"items":[{"call":["f",[]]},{"call":["f",[]]},{"call":["f",[]]},{"call":["f",[]]},{"call":["f",[]]},{"call":["f",[]]},{"call":["f",[]]},{"call":["f",[]]},{"call":["f",[]]},{"call":["f",[]]},{"call":["f",[]]},{"call":["f",[]]},7]}"#,
        "/items/12",
    ),
];

/// The path that the tree of a text is refused with, or `ok`.
fn outcome_of(alloc: Global, text: &str) -> Result<Text, Fail> {
    let tree = Tree::from_str(alloc, text)?;
    match script_of(alloc, &tree) {
        Ok(_script) => Ok(Text::new(alloc, "ok")?),
        Err(fault) => Ok(path_of(fault)?),
    }
}

/// The path of a fault.
fn path_of(fault: ScriptFault) -> Result<Text, AllocError> {
    match fault {
        ScriptFault::Shape(path) => Ok(path),
        ScriptFault::Memory(error) => Err(error),
    }
}

/// Whether the tree of a text has this outcome below the path of its place.
fn has_outcome(alloc: Global, text: &str, place: &str, outcome: &str) -> Result<bool, Fail> {
    let found = outcome_of(alloc, text)?;
    if outcome == "ok" {
        return Ok(found.as_str() == "ok");
    }
    let path = format!(in alloc; "{place}{outcome}")?;
    Ok(found.as_str() == path.as_str())
}

/// How many rows have another outcome, where each stands between these texts.
fn wrong(
    alloc: Global,
    front: &str,
    back: &str,
    place: &str,
    rows: &[(&str, &str)],
) -> Result<usize, Fail> {
    let mut wrong = 0usize;
    for (text, outcome) in rows {
        let whole = format!(in alloc; "{front}{text}{back}")?;
        if !has_outcome(alloc, whole.as_str(), place, outcome)? {
            wrong = wrong.saturating_add(1);
        }
    }
    Ok(wrong)
}

#[test]
fn values(rt: HostRuntime) -> Result<(), Fail> {
    let front = r#"{"version":1,"globals":["#;
    let back = r#"],"replies":[],"grows":[],"items":[]}"#;
    let wrong = wrong(rt.alloc(), front, back, "/globals/0", VALUES.as_slice())?;
    assert_eq!(rt; wrong, 0);
    Ok(())
}

#[test]
fn acts(rt: HostRuntime) -> Result<(), Fail> {
    let front = r#"{"version":1,"globals":[],"replies":[[{"acts":["#;
    let back = r#"],"values":[]}]],"grows":[],"items":[]}"#;
    let wrong = wrong(
        rt.alloc(),
        front,
        back,
        "/replies/0/0/acts/0",
        ACTS.as_slice(),
    )?;
    assert_eq!(rt; wrong, 0);
    Ok(())
}

#[test]
fn replies(rt: HostRuntime) -> Result<(), Fail> {
    let front = r#"{"version":1,"globals":[],"replies":[["#;
    let back = r#"]],"grows":[],"items":[]}"#;
    let wrong = wrong(rt.alloc(), front, back, "/replies/0/0", REPLIES.as_slice())?;
    assert_eq!(rt; wrong, 0);
    Ok(())
}

#[test]
fn items(rt: HostRuntime) -> Result<(), Fail> {
    let front = r#"{"version":1,"globals":[],"replies":[],"grows":[],"items":["#;
    let back = "]}";
    let wrong = wrong(rt.alloc(), front, back, "/items/0", ITEMS.as_slice())?;
    assert_eq!(rt; wrong, 0);
    Ok(())
}

#[test]
fn whole_scripts(rt: HostRuntime) -> Result<(), Fail> {
    let wrong = wrong(rt.alloc(), "", "", "", WHOLE.as_slice())?;
    assert_eq!(rt; wrong, 0);
    Ok(())
}

/// Whether a poke of so many bytes has this outcome.
fn pokes(alloc: Global, count: usize, outcome: &str) -> Result<bool, Fail> {
    let front = r#"{"version":1,"globals":[],"replies":[],"grows":[],"items":[{"poke":["m",0,""#;
    let mut text = String::from_str(alloc, front)?;
    for _ in 0..count {
        text.push_str("a5")?;
    }
    text.push_str(r#""]}]}"#)?;
    has_outcome(alloc, text.as_str(), "/items/0/poke/2", outcome)
}

#[test]
fn the_most_bytes(rt: HostRuntime) -> Result<(), Fail> {
    assert!(rt; pokes(rt.alloc(), 65536, "ok")?);
    assert!(rt; pokes(rt.alloc(), 65537, "")?);
    Ok(())
}
