// The host: imports, replies and acts, exported globals, instantiation.
use crate::row::Row;

pub static HOST: [Row; 11] = [
    // (module)
    Row {
        shows: "nothing is asked for",
        module: b"\x00asm\x01\x00\x00\x00",
        script: r#"{"version":1,"globals":[],"replies":[],"grows":[],"items":[]}"#,
        turns: 0,
        printed: "started\ndone\n",
    },
    // (module
    //   (import "e" "h" (func $h (result i32 i64 i32)))
    //   (func (export "f") (result i32 i64 i32) call $h))
    Row {
        shows: "a host function gives several results",
        module: b"\x00asm\x01\x00\x00\x00\x01\x07\x01`\x00\x03\x7F~\x7F\x02\x07\x01\x01e\x01h\x00\x00\x03\x02\x01\x00\x07\x05\x01\x01f\x00\x01\x0A\x06\x01\x04\x00\x10\x00\x0B",
        script: r#"{"version":1,"globals":[],"replies":[[{"acts":[],"values":[["i32",1],["i64",18446744073709551615],["i32",4294967295]]}]],"grows":[],"items":[{"call":["f",[]]}]}"#,
        turns: 1000,
        printed: "started\nhost 0 () []\nreturned 0 (i32 1, i64 18446744073709551615, i32 4294967295) []\ndone\n",
    },
    // (module
    //   (import "env" "h" (func $h (param i32 i32)))
    //   (table 2 funcref)
    //   (memory (export "memory") 2)
    //   (global (mut i32) (i32.const 66560))
    //   (elem (i32.const 1) $run)
    //   (func $run (export "run") (param i32 i32) (result i32)
    //     local.get 0 i32.const 128 local.get 1 memory.fill
    //     local.get 0 local.get 1 call $h
    //     local.get 0 i32.load8_u i32.extend8_s)
    //   (@custom "producers" "\00"))
    Row {
        shows: "a host function acts on the memory",
        module: b"\x00asm\x01\x00\x00\x00\x01\x0C\x02`\x02\x7F\x7F\x00`\x02\x7F\x7F\x01\x7F\x02\x09\x01\x03env\x01h\x00\x00\x03\x02\x01\x01\x04\x04\x01p\x00\x02\x05\x03\x01\x00\x02\x06\x08\x01\x7F\x01A\x80\x88\x04\x0B\x07\x10\x02\x06memory\x02\x00\x03run\x00\x01\x09\x07\x01\x00A\x01\x0B\x01\x01\x0A\x1A\x01\x18\x00 \x00A\x80\x01 \x01\xFC\x0B\x00 \x00 \x01\x10\x00 \x00-\x00\x00\xC0\x0B\x00\x0B\x09producers\x00",
        script: r#"{"version":1,"globals":[],"replies":[[{"acts":[{"peek":["memory",1024,4]},{"poke":["memory",1024,"05"]}],"values":[]}]],"grows":[],"items":[{"call":["run",[["i32",1024],["i32",4]]]},{"peek":["memory",1024,4]},{"peek":["memory",131072,1]}]}"#,
        turns: 1000,
        printed: "started\nhost 0 (i32 1024, i32 4) []\npeeked (80808080)\nreturned 0 (i32 5) []\npeeked (05808080)\nout of range\ndone\n",
    },
    // (module
    //   (import "env" "h" (func $h (param i32 i32)))
    //   (table 2 funcref)
    //   (memory (export "memory") 2)
    //   (global (mut i32) (i32.const 66560))
    //   (elem (i32.const 1) $run)
    //   (func $run (export "run") (param i32 i32) (result i32)
    //     local.get 0 i32.const 128 local.get 1 memory.fill
    //     local.get 0 local.get 1 call $h
    //     local.get 0 i32.load8_u i32.extend8_s)
    //   (@custom "producers" "\00"))
    Row {
        shows: "a host without a reply ends the run",
        module: b"\x00asm\x01\x00\x00\x00\x01\x0C\x02`\x02\x7F\x7F\x00`\x02\x7F\x7F\x01\x7F\x02\x09\x01\x03env\x01h\x00\x00\x03\x02\x01\x01\x04\x04\x01p\x00\x02\x05\x03\x01\x00\x02\x06\x08\x01\x7F\x01A\x80\x88\x04\x0B\x07\x10\x02\x06memory\x02\x00\x03run\x00\x01\x09\x07\x01\x00A\x01\x0B\x01\x01\x0A\x1A\x01\x18\x00 \x00A\x80\x01 \x01\xFC\x0B\x00 \x00 \x01\x10\x00 \x00-\x00\x00\xC0\x0B\x00\x0B\x09producers\x00",
        script: r#"{"version":1,"globals":[],"replies":[[]],"grows":[],"items":[{"call":["run",[["i32",1024],["i32",4]]]},{"peek":["memory",1024,4]}]}"#,
        turns: 1000,
        printed: "started\nhost 0 (i32 1024, i32 4) []\nno reply 0\n",
    },
    // (module
    //   (global (export "g") (mut i32) (i32.const 5))
    //   (func (export "f") (result i32) i32.const -2147483648 i32.const -1 i32.div_s)
    //   (func (export "h")))
    Row {
        shows: "a trap leaves the exported globals, which the host sets",
        module: b"\x00asm\x01\x00\x00\x00\x01\x08\x02`\x00\x01\x7F`\x00\x00\x03\x03\x02\x00\x01\x06\x06\x01\x7F\x01A\x05\x0B\x07\x0D\x03\x01g\x03\x00\x01f\x00\x00\x01h\x00\x01\x0A\x10\x02\x0B\x00A\x80\x80\x80\x80xA\x7Fm\x0B\x02\x00\x0B",
        script: r#"{"version":1,"globals":[],"replies":[],"grows":[],"items":[{"call":["f",[]]},{"set":["g",["i32",9]]},{"call":["h",[]]}]}"#,
        turns: 1000,
        printed: "started\ntrapped 0 [i32 5]\nreturned 2 () [i32 9]\ndone\n",
    },
    // (module
    //   (import "e" "n" (global $n i64))
    //   (global $two i32 (i32.const 2))
    //   (global (export "g") i32 (i32.add (global.get $two) (i32.const 40)))
    //   (global (export "h") i64 (i64.mul (i64.sub (global.get $n) (i64.const 3)) (global.get $n)))
    //   (func (export "f")))
    Row {
        shows: "a global begins with a sum, a difference or a product of others",
        module: b"\x00asm\x01\x00\x00\x00\x01\x04\x01`\x00\x00\x02\x08\x01\x01e\x01n\x03~\x00\x03\x02\x01\x00\x06\x19\x03\x7F\x00A\x02\x0B\x7F\x00#\x01A(j\x0B~\x00#\x00B\x03}#\x00~\x0B\x07\x0D\x03\x01g\x03\x02\x01h\x03\x03\x01f\x00\x00\x0A\x04\x01\x02\x00\x0B",
        script: r#"{"version":1,"globals":[["i64",1]],"replies":[],"grows":[],"items":[{"call":["f",[]]}]}"#,
        turns: 1000,
        printed: "started\nreturned 0 () [i32 42, i64 18446744073709551614]\ndone\n",
    },
    // (module
    //   (import "e" "h" (func $h (param v128 funcref externref) (result externref)))
    //   (import "e" "v" (global $v v128))
    //   (import "e" "x" (global $x externref))
    //   (import "e" "r" (global $r funcref))
    //   (export "v" (global $v))
    //   (export "r" (global $r))
    //   (global $m (export "m") (mut externref) (ref.null extern))
    //   (func (export "f") (result externref externref)
    //     global.get $v global.get $r global.get $x call $h global.get $m))
    Row {
        shows: "the host hands over vectors and references",
        module: b"\x00asm\x01\x00\x00\x00\x01\x0D\x02`\x03{po\x01o`\x00\x02oo\x02\x1C\x04\x01e\x01h\x00\x00\x01e\x01v\x03{\x00\x01e\x01x\x03o\x00\x01e\x01r\x03p\x00\x03\x02\x01\x01\x06\x06\x01o\x01\xD0o\x0B\x07\x11\x04\x01v\x03\x00\x01r\x03\x02\x01m\x03\x03\x01f\x00\x01\x0A\x0E\x01\x0C\x00#\x00#\x02#\x01\x10\x00#\x03\x0B",
        script: r#"{"version":1,"globals":[["v128",1,2],["extern",3],["func",1]],"replies":[[{"acts":[{"set":["m",["extern",8]]}],"values":[["extern",4]]}]],"grows":[],"items":[{"call":["f",[]]}]}"#,
        turns: 1000,
        printed: "started\nhost 0 (v128 1 2, func 1, extern 3) [v128 1 2, func 1, null extern]\nreturned 0 (extern 4, extern 8) [v128 1 2, func 1, extern 8]\ndone\n",
    },
    // (module
    //   (import "e" "h" (func $h (param i32)))
    //   (type $t (func (result i32)))
    //   (memory (export "m") 1)
    //   (table 1 funcref)
    //   (elem (i32.const 0) $a)
    //   (data (i32.const 7) "ab")
    //   (data (i32.const 8) "c")
    //   (func $a (result i32) i32.const 6)
    //   (func $s i32.const 0 call_indirect (type $t) call $h)
    //   (start $s))
    Row {
        shows: "segments are written before the start function runs",
        module: b"\x00asm\x01\x00\x00\x00\x01\x0C\x03`\x00\x01\x7F`\x01\x7F\x00`\x00\x00\x02\x07\x01\x01e\x01h\x00\x01\x03\x03\x02\x00\x02\x04\x04\x01p\x00\x01\x05\x03\x01\x00\x01\x07\x05\x01\x01m\x02\x00\x08\x01\x02\x09\x07\x01\x00A\x00\x0B\x01\x01\x0A\x10\x02\x04\x00A\x06\x0B\x09\x00A\x00\x11\x00\x00\x10\x00\x0B\x0B\x0E\x02\x00A\x07\x0B\x02ab\x00A\x08\x0B\x01c",
        script: r#"{"version":1,"globals":[],"replies":[[{"acts":[{"peek":["m",7,2]}],"values":[]}]],"grows":[],"items":[{"peek":["m",7,2]}]}"#,
        turns: 1000,
        printed: "host 0 (i32 6) []\npeeked (6163)\nstarted\npeeked (6163)\ndone\n",
    },
    // (module (func $s unreachable) (start $s))
    Row {
        shows: "a start function that traps fails",
        module: b"\x00asm\x01\x00\x00\x00\x01\x04\x01`\x00\x00\x03\x02\x01\x00\x08\x01\x00\x0A\x05\x01\x03\x00\x00\x0B",
        script: r#"{"version":1,"globals":[],"replies":[],"grows":[],"items":[]}"#,
        turns: 1000,
        printed: "failed\n",
    },
    // (module (memory (export "m") 1) (data (i32.const 65535) "ab"))
    Row {
        shows: "a segment behind the end of a memory fails",
        module: b"\x00asm\x01\x00\x00\x00\x05\x03\x01\x00\x01\x07\x05\x01\x01m\x02\x00\x0B\x0A\x01\x00A\xFF\xFF\x03\x0B\x02ab",
        script: r#"{"version":1,"globals":[],"replies":[],"grows":[],"items":[{"peek":["m",0,1]}]}"#,
        turns: 1000,
        printed: "failed\n",
    },
    // (module (table 1 funcref) (elem (i32.const 1) $f) (func $f))
    Row {
        shows: "a segment behind the end of a table fails",
        module: b"\x00asm\x01\x00\x00\x00\x01\x04\x01`\x00\x00\x03\x02\x01\x00\x04\x04\x01p\x00\x01\x09\x07\x01\x00A\x01\x0B\x01\x00\x0A\x04\x01\x02\x00\x0B",
        script: r#"{"version":1,"globals":[],"replies":[],"grows":[],"items":[]}"#,
        turns: 1000,
        printed: "failed\n",
    },
];
