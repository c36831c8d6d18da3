// Scripts read from the text of a file.

use host_kit::{MOST_BYTES, read_script};
use std::alloc::Global;
use std::test::Fail;

/// A text, and the text of why it is no script, or `ok`.
static TEXTS: [(&[u8], &str); 18] = [
    (
        b"{\"version\":1,\"globals\":[],\"replies\":[],\"grows\":[],\"items\":[]}",
        "ok",
    ),
    (b"{", "script: not json"),
    (b"", "script: not json"),
    (b" ", "script: not json"),
    (b"{\"version\":1", "script: not json"),
    (b"{\"version\":1,}", "script: not json"),
    (b"{'version':1}", "script: not json"),
    (b"{} {}", "script: not json"),
    (b"[01]", "script: not json"),
    (b"\xEF\xBB\xBF{}", "script: not json"),
    (b"\"\xFF\"", "script: not json"),
    (b"\"\\uD800\"", "script: not json"),
    (b"NaN", "script: not json"),
    (b"7", "script: "),
    (b"{\"version\":2}", "script: /version"),
    (
        b"{\"version\":2,\"version\":1,\"globals\":[],\"replies\":[],\"grows\":[],\"items\":[]}",
        "ok",
    ),
    (
        b"{\"version\":1,\"version\":2,\"globals\":[],\"replies\":[],\"grows\":[],\"items\":[]}",
        "script: /version",
    ),
    (
        b"{\"version\":1,\"globals\":[],\"replies\":[[{\"acts\":[],\"values\":7}]],\"grows\":[],\"items\":[]}",
        "script: /replies/0/0/values",
    ),
];

/// What is printed of a text that is no script, or `ok`.
fn printed(alloc: Global, text: &[u8]) -> Result<String, Fail> {
    match read_script(alloc, text) {
        Ok(_script) => Ok(String::from_str(alloc, "ok")?),
        Err(fault) => Ok(fault.to_string(alloc)?),
    }
}

#[test]
fn texts(rt: HostRuntime) -> Result<(), Fail> {
    let mut wrong = 0usize;
    for (text, expected) in &TEXTS {
        if printed(rt.alloc(), text)?.as_str() != *expected {
            wrong = wrong.saturating_add(1);
        }
    }
    assert_eq!(rt; wrong, 0);
    Ok(())
}

/// What is printed of lists that nest so deep.
fn nested(alloc: Global, depth: usize) -> Result<String, Fail> {
    let mut text = vec![in alloc; b'['; depth]?;
    for _ in 0..depth {
        text.push(b']')?;
    }
    printed(alloc, text.as_slice())
}

#[test]
fn nesting(rt: HostRuntime) -> Result<(), Fail> {
    assert_eq!(rt; nested(rt.alloc(), 127)?.as_str(), "script: ");
    assert_eq!(rt; nested(rt.alloc(), 128)?.as_str(), "script: not json");
    Ok(())
}

#[test]
fn sizes(rt: HostRuntime) -> Result<(), Fail> {
    let mut text = vec![in rt.alloc(); b' '; MOST_BYTES]?;
    assert_eq!(rt;
        printed(rt.alloc(), text.as_slice())?.as_str(),
        "script: not json"
    );
    text.push(b' ')?;
    assert_eq!(rt;
        printed(rt.alloc(), text.as_slice())?.as_str(),
        "script: too large"
    );
    Ok(())
}
