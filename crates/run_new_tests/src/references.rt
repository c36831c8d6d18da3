// References, tables, and calls by tables.
use crate::row::Row;

pub static REFERENCES: [Row; 5] = [
    // (module
    //   (type $a (func (param v128)))
    //   (type $b (func (param i64 i64)))
    //   (type $c (func (param v128)))
    //   (type $one (func (result i32)))
    //   (type $two (func (result i32 i32)))
    //   (table 3 funcref)
    //   (elem (i32.const 0) $f $g)
    //   (func $f (type $a))
    //   (func $g (type $one) i32.const 6)
    //   (func (export "b") i64.const 1 i64.const 2 i32.const 0 call_indirect (type $b))
    //   (func (export "c") v128.const i64x2 1 2 i32.const 0 call_indirect (type $c))
    //   (func (export "one") (param i32) (result i32) local.get 0 call_indirect (type $one))
    //   (func (export "two") (result i32 i32) i32.const 1 call_indirect (type $two)))
    Row {
        shows: "a call by a table tests the type and not its index",
        module: b"\x00asm\x01\x00\x00\x00\x01\x1F\x07`\x01{\x00`\x02~~\x00`\x01{\x00`\x00\x01\x7F`\x00\x02\x7F\x7F`\x00\x00`\x01\x7F\x01\x7F\x03\x07\x06\x00\x03\x05\x05\x06\x04\x04\x04\x01p\x00\x03\x07\x15\x04\x01b\x00\x02\x01c\x00\x03\x03one\x00\x04\x03two\x00\x05\x09\x08\x01\x00A\x00\x0B\x02\x00\x01\x0A?\x06\x02\x00\x0B\x04\x00A\x06\x0B\x0B\x00B\x01B\x02A\x00\x11\x01\x00\x0B\x19\x00\xFD\x0C\x01\x00\x00\x00\x00\x00\x00\x00\x02\x00\x00\x00\x00\x00\x00\x00A\x00\x11\x02\x00\x0B\x07\x00 \x00\x11\x03\x00\x0B\x07\x00A\x01\x11\x04\x00\x0B",
        script: r#"{"version":1,"globals":[],"replies":[],"grows":[],"items":[{"call":["b",[]]},{"call":["c",[]]},{"call":["one",[["i32",1]]]},{"call":["two",[]]},{"call":["one",[["i32",0]]]},{"call":["one",[["i32",2]]]},{"call":["one",[["i32",3]]]},{"call":["one",[["i32",4294967295]]]}]}"#,
        turns: 1000,
        printed: "started\ntrapped 0 []\nreturned 1 () []\nreturned 2 (i32 6) []\ntrapped 3 []\ntrapped 4 []\ntrapped 5 []\ntrapped 6 []\ntrapped 7 []\ndone\n",
    },
    // (module
    //   (type $t (func (result i32)))
    //   (table 4 5 funcref)
    //   (elem (i32.const 0) $a $b $c $d)
    //   (elem $p func $d)
    //   (func $a (result i32) i32.const 10)
    //   (func $b (result i32) i32.const 11)
    //   (func $c (result i32) i32.const 12)
    //   (func $d (result i32) i32.const 13)
    //   (func (export "grow") (param i32) (result i32) ref.null func local.get 0 table.grow 0)
    //   (func (export "copy") (param i32 i32 i32) local.get 0 local.get 1 local.get 2 table.copy)
    //   (func (export "call") (param i32) (result i32) local.get 0 call_indirect (type $t))
    //   (func (export "drop") elem.drop $p)
    //   (func (export "init") (param i32 i32 i32) local.get 0 local.get 1 local.get 2 table.init $p))
    Row {
        shows: "a table grows within its limits and is copied to higher places",
        module: b"\x00asm\x01\x00\x00\x00\x01\x13\x04`\x00\x01\x7F`\x01\x7F\x01\x7F`\x03\x7F\x7F\x7F\x00`\x00\x00\x03\x0A\x09\x00\x00\x00\x00\x01\x02\x01\x03\x02\x04\x05\x01p\x01\x04\x05\x07$\x05\x04grow\x00\x04\x04copy\x00\x05\x04call\x00\x06\x04drop\x00\x07\x04init\x00\x08\x09\x0E\x02\x00A\x00\x0B\x04\x00\x01\x02\x03\x01\x00\x01\x03\x0AG\x09\x04\x00A\x0A\x0B\x04\x00A\x0B\x0B\x04\x00A\x0C\x0B\x04\x00A\x0D\x0B\x09\x00\xD0p \x00\xFC\x0F\x00\x0B\x0C\x00 \x00 \x01 \x02\xFC\x0E\x00\x00\x0B\x07\x00 \x00\x11\x00\x00\x0B\x05\x00\xFC\x0D\x01\x0B\x0C\x00 \x00 \x01 \x02\xFC\x0C\x01\x00\x0B",
        script: r#"{"version":1,"globals":[],"replies":[],"grows":[],"items":[{"call":["grow",[["i32",0]]]},{"call":["grow",[["i32",2]]]},{"call":["grow",[["i32",1]]]},{"call":["copy",[["i32",1],["i32",0],["i32",3]]]},{"call":["call",[["i32",3]]]},{"call":["drop",[]]},{"call":["init",[["i32",0],["i32",0],["i32",1]]]},{"call":["init",[["i32",0],["i32",0],["i32",0]]]}]}"#,
        turns: 1000,
        printed: "started\nreturned 0 (i32 4) []\nreturned 1 (i32 4294967295) []\nreturned 2 (i32 4) []\nreturned 3 () []\nreturned 4 (i32 12) []\nreturned 5 () []\ntrapped 6 []\nreturned 7 () []\ndone\n",
    },
    // (module (func (export "id") (param externref) (result externref) local.get 0))
    Row {
        shows: "references of the host come and go",
        module: b"\x00asm\x01\x00\x00\x00\x01\x06\x01`\x01o\x01o\x03\x02\x01\x00\x07\x06\x01\x02id\x00\x00\x0A\x06\x01\x04\x00 \x00\x0B",
        script: r#"{"version":1,"globals":[],"replies":[],"grows":[],"items":[{"call":["id",[["extern",4294967294]]]},{"call":["id",[["null","extern"]]]}]}"#,
        turns: 1000,
        printed: "started\nreturned 0 (extern 4294967294) []\nreturned 1 (null extern) []\ndone\n",
    },
    // (module
    //   (table $t 3 funcref)
    //   (table $u 1 funcref)
    //   (elem $p funcref (ref.func $a) (ref.null func) (ref.func $b))
    //   (elem $d declare func $a)
    //   (func $a (result i32) i32.const 1)
    //   (func $b (result i32) i32.const 2)
    //   (func (export "get") (param i32) (result funcref) local.get 0 table.get $t)
    //   (func (export "null") (param i32) (result i32) local.get 0 table.get $t ref.is_null)
    //   (func (export "init") (param i32 i32 i32) local.get 0 local.get 1 local.get 2 table.init $t $p)
    //   (func (export "none") (param i32) i32.const 0 i32.const 0 local.get 0 table.init $t $d)
    //   (func (export "copy") (param i32 i32 i32) local.get 0 local.get 1 local.get 2 table.copy $t $t)
    //   (func (export "over") (param i32 i32 i32) local.get 0 local.get 1 local.get 2 table.copy $u $t)
    //   (func (export "fill") (param i32 funcref i32) local.get 0 local.get 1 local.get 2 table.fill $t)
    //   (func (export "call") (param i32) (result i32) local.get 0 call_indirect $u (result i32)))
    Row {
        shows: "entries are read, written, filled, copied and initialised",
        module: b"\x00asm\x01\x00\x00\x00\x01\x1F\x06`\x00\x01\x7F`\x01\x7F\x01p`\x01\x7F\x01\x7F`\x03\x7F\x7F\x7F\x00`\x01\x7F\x00`\x03\x7Fp\x7F\x00\x03\x0B\x0A\x00\x00\x01\x02\x03\x04\x03\x03\x05\x02\x04\x07\x02p\x00\x03p\x00\x01\x078\x08\x03get\x00\x02\x04null\x00\x03\x04init\x00\x04\x04none\x00\x05\x04copy\x00\x06\x04over\x00\x07\x04fill\x00\x08\x04call\x00\x09\x09\x11\x02\x05p\x03\xD2\x00\x0B\xD0p\x0B\xD2\x01\x0B\x03\x00\x01\x00\x0Ab\x0A\x04\x00A\x01\x0B\x04\x00A\x02\x0B\x06\x00 \x00%\x00\x0B\x07\x00 \x00%\x00\xD1\x0B\x0C\x00 \x00 \x01 \x02\xFC\x0C\x00\x00\x0B\x0C\x00A\x00A\x00 \x00\xFC\x0C\x01\x00\x0B\x0C\x00 \x00 \x01 \x02\xFC\x0E\x00\x00\x0B\x0C\x00 \x00 \x01 \x02\xFC\x0E\x01\x00\x0B\x0B\x00 \x00 \x01 \x02\xFC\x11\x00\x0B\x07\x00 \x00\x11\x00\x01\x0B",
        script: r#"{"version":1,"globals":[],"replies":[],"grows":[],"items":[{"call":["get",[["i32",0]]]},{"call":["init",[["i32",0],["i32",0],["i32",3]]]},{"call":["get",[["i32",0]]]},{"call":["null",[["i32",1]]]},{"call":["null",[["i32",2]]]},{"call":["get",[["i32",3]]]},{"call":["init",[["i32",1],["i32",1],["i32",3]]]},{"call":["init",[["i32",2],["i32",0],["i32",2]]]},{"call":["get",[["i32",2]]]},{"call":["init",[["i32",3],["i32",3],["i32",0]]]},{"call":["init",[["i32",4],["i32",0],["i32",0]]]},{"call":["copy",[["i32",1],["i32",0],["i32",2]]]},{"call":["get",[["i32",1]]]},{"call":["get",[["i32",2]]]},{"call":["copy",[["i32",0],["i32",1],["i32",2]]]},{"call":["get",[["i32",0]]]},{"call":["get",[["i32",1]]]},{"call":["fill",[["i32",1],["func",1],["i32",2]]]},{"call":["get",[["i32",2]]]},{"call":["fill",[["i32",2],["func",0],["i32",2]]]},{"call":["get",[["i32",2]]]},{"call":["fill",[["i32",3],["null","func"],["i32",0]]]},{"call":["fill",[["i32",4],["null","func"],["i32",0]]]},{"call":["copy",[["i32",0],["i32",0],["i32",4]]]},{"call":["over",[["i32",0],["i32",2],["i32",1]]]},{"call":["call",[["i32",0]]]},{"call":["over",[["i32",1],["i32",0],["i32",1]]]},{"call":["none",[["i32",0]]]},{"call":["none",[["i32",1]]]}]}"#,
        turns: 1000,
        printed: "started\nreturned 0 (null func) []\nreturned 1 () []\nreturned 2 (func 0) []\nreturned 3 (i32 1) []\nreturned 4 (i32 0) []\ntrapped 5 []\ntrapped 6 []\ntrapped 7 []\nreturned 8 (func 1) []\nreturned 9 () []\ntrapped 10 []\nreturned 11 () []\nreturned 12 (func 0) []\nreturned 13 (null func) []\nreturned 14 () []\nreturned 15 (func 0) []\nreturned 16 (null func) []\nreturned 17 () []\nreturned 18 (func 1) []\ntrapped 19 []\nreturned 20 (func 1) []\nreturned 21 () []\ntrapped 22 []\ntrapped 23 []\nreturned 24 () []\nreturned 25 (i32 2) []\ntrapped 26 []\nreturned 27 () []\ntrapped 28 []\ndone\n",
    },
    // (module
    //   (table 2 4 externref)
    //   (func (export "get") (param i32) (result externref) local.get 0 table.get 0)
    //   (func (export "set") (param i32 externref) local.get 0 local.get 1 table.set 0)
    //   (func (export "grow") (param externref i32) (result i32) local.get 0 local.get 1 table.grow 0)
    //   (func (export "size") (result i32) table.size 0))
    Row {
        shows: "a table of externals is written and grows",
        module: b"\x00asm\x01\x00\x00\x00\x01\x15\x04`\x01\x7F\x01o`\x02\x7Fo\x00`\x02o\x7F\x01\x7F`\x00\x01\x7F\x03\x05\x04\x00\x01\x02\x03\x04\x05\x01o\x01\x02\x04\x07\x1B\x04\x03get\x00\x00\x03set\x00\x01\x04grow\x00\x02\x04size\x00\x03\x0A!\x04\x06\x00 \x00%\x00\x0B\x08\x00 \x00 \x01&\x00\x0B\x09\x00 \x00 \x01\xFC\x0F\x00\x0B\x05\x00\xFC\x10\x00\x0B",
        script: r#"{"version":1,"globals":[],"replies":[],"grows":[],"items":[{"call":["set",[["i32",1],["extern",7]]]},{"call":["get",[["i32",1]]]},{"call":["get",[["i32",0]]]},{"call":["set",[["i32",2],["extern",7]]]},{"call":["grow",[["extern",9],["i32",1]]]},{"call":["get",[["i32",2]]]},{"call":["size",[]]},{"call":["grow",[["null","extern"],["i32",2]]]},{"call":["size",[]]},{"call":["grow",[["null","extern"],["i32",4294967295]]]},{"call":["get",[["i32",3]]]}]}"#,
        turns: 1000,
        printed: "started\nreturned 0 () []\nreturned 1 (extern 7) []\nreturned 2 (null extern) []\ntrapped 3 []\nreturned 4 (i32 2) []\nreturned 5 (extern 9) []\nreturned 6 (i32 3) []\nreturned 7 (i32 4294967295) []\nreturned 8 (i32 3) []\nreturned 9 (i32 4294967295) []\ntrapped 10 []\ndone\n",
    },
];
