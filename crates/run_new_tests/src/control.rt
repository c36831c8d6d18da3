// Blocks, branches, calls and tail calls.
use crate::row::Row;

pub static CONTROL: [Row; 12] = [
    // (module
    //   (func (export "f") (param i32) (result i32)
    //     local.get 0 (block (param i32) (result i32 i32) i32.const 1) i32.sub)
    //   (func (export "b") (param i32) (result i32 i64)
    //     (block (result i32 i64)
    //       i32.const 7 i64.const 8 local.get 0 br_if 0 drop drop i32.const 9 i64.const 10))
    //   (func (export "i") (param i32) (result i32)
    //     i32.const 10 local.get 0
    //     (if (param i32) (result i32) (then i32.const 1 i32.add) (else i32.const 2 i32.mul)))
    //   (func (export "s") (param i32) (result i32)
    //     i32.const 0 local.get 0
    //     (loop (param i32 i32) (result i32)
    //       local.tee 0 i32.add local.get 0 i32.const 1 i32.sub local.tee 0 local.get 0 br_if 0 drop))
    //   (func (export "u") (result i32)
    //     i32.const 1 (block (result i32) i32.const 2 i32.const 3 br 0) i32.add)
    //   (func $two (result i32 i64) i32.const 3 i64.const 4)
    //   (func (export "t") (result i32 i64) call $two)
    //   (func (export "d") (result i64) (local i64)
    //     call $two local.set 0 i64.extend_i32_u local.get 0 i64.sub))
    Row {
        shows: "code has parameters and several results",
        module: b"\x00asm\x01\x00\x00\x00\x01%\x07`\x01\x7F\x01\x7F`\x01\x7F\x02\x7F\x7F`\x01\x7F\x02\x7F~`\x00\x02\x7F~`\x02\x7F\x7F\x01\x7F`\x00\x01\x7F`\x00\x01~\x03\x09\x08\x00\x02\x00\x00\x05\x03\x03\x06\x07\x1D\x07\x01f\x00\x00\x01b\x00\x01\x01i\x00\x02\x01s\x00\x03\x01u\x00\x04\x01t\x00\x06\x01d\x00\x07\x0Ar\x08\x0A\x00 \x00\x02\x01A\x01\x0Bk\x0B\x13\x00\x02\x03A\x07B\x08 \x00\x0D\x00\x1A\x1AA\x09B\x0A\x0B\x0B\x10\x00A\x0A \x00\x04\x00A\x01j\x05A\x02l\x0B\x0B\x18\x00A\x00 \x00\x03\x04\"\x00j \x00A\x01k\"\x00 \x00\x0D\x00\x1A\x0B\x0B\x0E\x00A\x01\x02\x7FA\x02A\x03\x0C\x00\x0Bj\x0B\x06\x00A\x03B\x04\x0B\x04\x00\x10\x05\x0B\x0C\x01\x01~\x10\x05!\x00\xAD \x00}\x0B",
        script: r#"{"version":1,"globals":[],"replies":[],"grows":[],"items":[{"call":["f",[["i32",5]]]},{"call":["b",[["i32",1]]]},{"call":["b",[["i32",0]]]},{"call":["i",[["i32",1]]]},{"call":["i",[["i32",0]]]},{"call":["s",[["i32",4]]]},{"call":["s",[["i32",1]]]},{"call":["u",[]]},{"call":["t",[]]},{"call":["d",[]]}]}"#,
        turns: 1000,
        printed: "started\nreturned 0 (i32 4) []\nreturned 1 (i32 7, i64 8) []\nreturned 2 (i32 9, i64 10) []\nreturned 3 (i32 11) []\nreturned 4 (i32 20) []\nreturned 5 (i32 10) []\nreturned 6 (i32 1) []\nreturned 7 (i32 4) []\nreturned 8 (i32 3, i64 4) []\nreturned 9 (i64 18446744073709551615) []\ndone\n",
    },
    // (module
    //   (func (export "t") (param i32) (result i32)
    //     (block (result i32)
    //       (block (result i32) i32.const 5 local.get 0 br_table 0 1)
    //       i32.const 10 i32.add)))
    Row {
        shows: "a table of labels takes values along",
        module: b"\x00asm\x01\x00\x00\x00\x01\x06\x01`\x01\x7F\x01\x7F\x03\x02\x01\x00\x07\x05\x01\x01t\x00\x00\x0A\x15\x01\x13\x00\x02\x7F\x02\x7FA\x05 \x00\x0E\x01\x00\x01\x0BA\x0Aj\x0B\x0B",
        script: r#"{"version":1,"globals":[],"replies":[],"grows":[],"items":[{"call":["t",[["i32",0]]]},{"call":["t",[["i32",1]]]},{"call":["t",[["i32",9]]]},{"call":["t",[["i32",4294967295]]]}]}"#,
        turns: 1000,
        printed: "started\nreturned 0 (i32 15) []\nreturned 1 (i32 5) []\nreturned 2 (i32 5) []\nreturned 3 (i32 5) []\ndone\n",
    },
    // (module
    //   (func $x (export "x") (param externref externref i32) (result externref)
    //     local.get 0 local.get 1 local.get 2 select (result externref))
    //   (func (export "r") (param i32) (result funcref)
    //     ref.func $x ref.null func local.get 0 select (result funcref))
    //   (func (export "v") (param v128 v128 i32) (result v128)
    //     local.get 0 local.get 1 local.get 2 select))
    Row {
        shows: "select takes references and vectors",
        module: b"\x00asm\x01\x00\x00\x00\x01\x14\x03`\x03oo\x7F\x01o`\x01\x7F\x01p`\x03{{\x7F\x01{\x03\x04\x03\x00\x01\x02\x07\x0D\x03\x01x\x00\x00\x01r\x00\x01\x01v\x00\x02\x0A#\x03\x0B\x00 \x00 \x01 \x02\x1C\x01o\x0B\x0B\x00\xD2\x00\xD0p \x00\x1C\x01p\x0B\x09\x00 \x00 \x01 \x02\x1B\x0B",
        script: r#"{"version":1,"globals":[],"replies":[],"grows":[],"items":[{"call":["x",[["extern",1],["null","extern"],["i32",1]]]},{"call":["x",[["extern",1],["null","extern"],["i32",0]]]},{"call":["r",[["i32",256]]]},{"call":["r",[["i32",0]]]},{"call":["v",[["v128",1,2],["v128",3,4],["i32",1]]]},{"call":["v",[["v128",1,2],["v128",3,4],["i32",0]]]}]}"#,
        turns: 1000,
        printed: "started\nreturned 0 (extern 1) []\nreturned 1 (null extern) []\nreturned 2 (func 0) []\nreturned 3 (null func) []\nreturned 4 (v128 1 2) []\nreturned 5 (v128 3 4) []\ndone\n",
    },
    // (module
    //   (func $even (export "even") (param i32) (result i32)
    //     local.get 0 i32.eqz
    //     (if (result i32) (then i32.const 1)
    //       (else local.get 0 i32.const 1 i32.sub return_call $odd)))
    //   (func $odd (param i32) (result i32)
    //     local.get 0 i32.eqz
    //     (if (result i32) (then i32.const 0)
    //       (else local.get 0 i32.const 1 i32.sub return_call $even))))
    Row {
        shows: "a tail call takes a turn",
        module: b"\x00asm\x01\x00\x00\x00\x01\x06\x01`\x01\x7F\x01\x7F\x03\x03\x02\x00\x00\x07\x08\x01\x04even\x00\x00\x0A'\x02\x12\x00 \x00E\x04\x7FA\x01\x05 \x00A\x01k\x12\x01\x0B\x0B\x12\x00 \x00E\x04\x7FA\x00\x05 \x00A\x01k\x12\x00\x0B\x0B",
        script: r#"{"version":1,"globals":[],"replies":[],"grows":[],"items":[{"call":["even",[["i32",100000]]]}]}"#,
        turns: 100001,
        printed: "started\nreturned 0 (i32 1) []\ndone\n",
    },
    // (module
    //   (func $even (export "even") (param i32) (result i32)
    //     local.get 0 i32.eqz
    //     (if (result i32) (then i32.const 1)
    //       (else local.get 0 i32.const 1 i32.sub return_call $odd)))
    //   (func $odd (param i32) (result i32)
    //     local.get 0 i32.eqz
    //     (if (result i32) (then i32.const 0)
    //       (else local.get 0 i32.const 1 i32.sub return_call $even))))
    Row {
        shows: "a turn too few in a chain of tail calls",
        module: b"\x00asm\x01\x00\x00\x00\x01\x06\x01`\x01\x7F\x01\x7F\x03\x03\x02\x00\x00\x07\x08\x01\x04even\x00\x00\x0A'\x02\x12\x00 \x00E\x04\x7FA\x01\x05 \x00A\x01k\x12\x01\x0B\x0B\x12\x00 \x00E\x04\x7FA\x00\x05 \x00A\x01k\x12\x00\x0B\x0B",
        script: r#"{"version":1,"globals":[],"replies":[],"grows":[],"items":[{"call":["even",[["i32",100000]]]}]}"#,
        turns: 100000,
        printed: "started\n",
    },
    // (module
    //   (import "e" "h" (func $h (param i32) (result i32)))
    //   (func $b (param i32 i32) (result i32) local.get 0 local.get 1 i32.add return_call $h)
    //   (func (export "f") (param i32) (result i32) local.get 0 i32.const 1 return_call $b))
    Row {
        shows: "a tail call reaches functions of other types and the host",
        module: b"\x00asm\x01\x00\x00\x00\x01\x0C\x02`\x01\x7F\x01\x7F`\x02\x7F\x7F\x01\x7F\x02\x07\x01\x01e\x01h\x00\x00\x03\x03\x02\x01\x00\x07\x05\x01\x01f\x00\x02\x0A\x14\x02\x09\x00 \x00 \x01j\x12\x00\x0B\x08\x00 \x00A\x01\x12\x01\x0B",
        script: r#"{"version":1,"globals":[],"replies":[[{"acts":[],"values":[["i32",9]]}]],"grows":[],"items":[{"call":["f",[["i32",5]]]}]}"#,
        turns: 2,
        printed: "started\nhost 0 (i32 6) []\nreturned 0 (i32 9) []\ndone\n",
    },
    // (module
    //   (type $t (func))
    //   (table 1 funcref)
    //   (func (export "f") i32.const 0 return_call_indirect (type $t))
    //   (func (export "g") i32.const 1 return_call_indirect (type $t)))
    Row {
        shows: "a tail call by an empty table traps",
        module: b"\x00asm\x01\x00\x00\x00\x01\x04\x01`\x00\x00\x03\x03\x02\x00\x00\x04\x04\x01p\x00\x01\x07\x09\x02\x01f\x00\x00\x01g\x00\x01\x0A\x11\x02\x07\x00A\x00\x13\x00\x00\x0B\x07\x00A\x01\x13\x00\x00\x0B",
        script: r#"{"version":1,"globals":[],"replies":[],"grows":[],"items":[{"call":["f",[]]},{"call":["g",[]]}]}"#,
        turns: 1000,
        printed: "started\ntrapped 0 []\ntrapped 1 []\ndone\n",
    },
    // (module
    //   (type $t (func (result i32)))
    //   (table 3 funcref)
    //   (elem (i32.const 1) $a $b)
    //   (func $a (result i32) i32.const 5)
    //   (func $b (param i32) (result i32) local.get 0)
    //   (func (export "f") (param i32) (result i32) local.get 0 return_call_indirect (type $t)))
    Row {
        shows: "a tail call by a table tests the type",
        module: b"\x00asm\x01\x00\x00\x00\x01\x0A\x02`\x00\x01\x7F`\x01\x7F\x01\x7F\x03\x04\x03\x00\x01\x01\x04\x04\x01p\x00\x03\x07\x05\x01\x01f\x00\x02\x09\x08\x01\x00A\x01\x0B\x02\x00\x01\x0A\x13\x03\x04\x00A\x05\x0B\x04\x00 \x00\x0B\x07\x00 \x00\x13\x00\x00\x0B",
        script: r#"{"version":1,"globals":[],"replies":[],"grows":[],"items":[{"call":["f",[["i32",0]]]},{"call":["f",[["i32",1]]]},{"call":["f",[["i32",2]]]},{"call":["f",[["i32",3]]]}]}"#,
        turns: 1000,
        printed: "started\ntrapped 0 []\nreturned 1 (i32 5) []\ntrapped 2 []\ntrapped 3 []\ndone\n",
    },
    // (module (func (export "f") (loop br 0)))
    Row {
        shows: "a loop without an end spends all turns",
        module: b"\x00asm\x01\x00\x00\x00\x01\x04\x01`\x00\x00\x03\x02\x01\x00\x07\x05\x01\x01f\x00\x00\x0A\x09\x01\x07\x00\x03@\x0C\x00\x0B\x0B",
        script: r#"{"version":1,"globals":[],"replies":[],"grows":[],"items":[{"call":["f",[]]}]}"#,
        turns: 5,
        printed: "started\n",
    },
    // (module (func (export "f") (loop br 0)))
    Row {
        shows: "no turn is left for a call",
        module: b"\x00asm\x01\x00\x00\x00\x01\x04\x01`\x00\x00\x03\x02\x01\x00\x07\x05\x01\x01f\x00\x00\x0A\x09\x01\x07\x00\x03@\x0C\x00\x0B\x0B",
        script: r#"{"version":1,"globals":[],"replies":[],"grows":[],"items":[{"call":["f",[]]}]}"#,
        turns: 0,
        printed: "started\n",
    },
    // (module
    //   (func (export "f") (param i32) (result i32) local.get 0 i32.extend8_s)
    //   (func (export "g") (param i32) (result i32) local.get 0 i32.extend16_s)
    //   (func (export "h") (param i64) (result i64) local.get 0 i64.extend32_s))
    Row {
        shows: "bytes are extended",
        module: b"\x00asm\x01\x00\x00\x00\x01\x0B\x02`\x01\x7F\x01\x7F`\x01~\x01~\x03\x04\x03\x00\x00\x01\x07\x0D\x03\x01f\x00\x00\x01g\x00\x01\x01h\x00\x02\x0A\x13\x03\x05\x00 \x00\xC0\x0B\x05\x00 \x00\xC1\x0B\x05\x00 \x00\xC4\x0B",
        script: r#"{"version":1,"globals":[],"replies":[],"grows":[],"items":[{"call":["f",[["i32",127]]]},{"call":["f",[["i32",128]]]},{"call":["f",[["i32",255]]]},{"call":["f",[["i32",4294967295]]]},{"call":["g",[["i32",98304]]]},{"call":["h",[["i64",6442450944]]]}]}"#,
        turns: 1000,
        printed: "started\nreturned 0 (i32 127) []\nreturned 1 (i32 4294967168) []\nreturned 2 (i32 4294967295) []\nreturned 3 (i32 4294967295) []\nreturned 4 (i32 4294934528) []\nreturned 5 (i64 18446744071562067968) []\ndone\n",
    },
    // (module
    //   (func (export "d") (param i32 i32) (result i32) local.get 0 local.get 1 i32.div_s)
    //   (func (export "u") (param i64 i64) (result i64) local.get 0 local.get 1 i64.div_u)
    //   (func (export "r") (param i64 i64) (result i64) local.get 0 local.get 1 i64.rem_s)
    //   (func (export "n") unreachable))
    Row {
        shows: "quotients, remainders and unreachable trap",
        module: b"\x00asm\x01\x00\x00\x00\x01\x10\x03`\x02\x7F\x7F\x01\x7F`\x02~~\x01~`\x00\x00\x03\x05\x04\x00\x01\x01\x02\x07\x11\x04\x01d\x00\x00\x01u\x00\x01\x01r\x00\x02\x01n\x00\x03\x0A\x1D\x04\x07\x00 \x00 \x01m\x0B\x07\x00 \x00 \x01\x80\x0B\x07\x00 \x00 \x01\x81\x0B\x03\x00\x00\x0B",
        script: r#"{"version":1,"globals":[],"replies":[],"grows":[],"items":[{"call":["d",[["i32",7],["i32",0]]]},{"call":["d",[["i32",2147483648],["i32",4294967295]]]},{"call":["d",[["i32",4294967289],["i32",2]]]},{"call":["u",[["i64",1],["i64",0]]]},{"call":["u",[["i64",18446744073709551615],["i64",2]]]},{"call":["r",[["i64",9223372036854775808],["i64",18446744073709551615]]]},{"call":["r",[["i64",1],["i64",0]]]},{"call":["n",[]]}]}"#,
        turns: 1000,
        printed: "started\ntrapped 0 []\ntrapped 1 []\nreturned 2 (i32 4294967293) []\ntrapped 3 []\nreturned 4 (i64 9223372036854775807) []\nreturned 5 (i64 0) []\ntrapped 6 []\ntrapped 7 []\ndone\n",
    },
];
