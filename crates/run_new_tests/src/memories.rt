// Memories: ranges, 64-bit addresses, several memories, growths.
use crate::row::Row;

pub static MEMORIES: [Row; 11] = [
    // (module
    //   (memory (export "m") 1)
    //   (func (export "s") (param i32) local.get 0 v128.const i64x2 -1 -1 v128.store))
    Row {
        shows: "a store of a vector across the end traps and writes nothing",
        module: b"\x00asm\x01\x00\x00\x00\x01\x05\x01`\x01\x7F\x00\x03\x02\x01\x00\x05\x03\x01\x00\x01\x07\x09\x02\x01m\x02\x00\x01s\x00\x00\x0A\x1C\x01\x1A\x00 \x00\xFD\x0C\xFF\xFF\xFF\xFF\xFF\xFF\xFF\xFF\xFF\xFF\xFF\xFF\xFF\xFF\xFF\xFF\xFD\x0B\x04\x00\x0B",
        script: r#"{"version":1,"globals":[],"replies":[],"grows":[],"items":[{"call":["s",[["i32",65528]]]},{"peek":["m",65528,8]},{"call":["s",[["i32",65520]]]},{"peek":["m",65519,17]}]}"#,
        turns: 1000,
        printed: "started\ntrapped 0 []\npeeked (0000000000000000)\nreturned 2 () []\npeeked (00ffffffffffffffffffffffffffffffff)\ndone\n",
    },
    // (module
    //   (memory 2)
    //   (data (i32.const 65534) "ABCD")
    //   (data $p "xyz")
    //   (func (export "copy") (param i32 i32 i32) local.get 0 local.get 1 local.get 2 memory.copy)
    //   (func (export "init") (param i32 i32 i32) local.get 0 local.get 1 local.get 2 memory.init $p)
    //   (func (export "drop") data.drop $p)
    //   (func (export "load") (param i32) (result i32) local.get 0 i32.load))
    Row {
        shows: "a range is copied to higher places as if read before it is written",
        module: b"\x00asm\x01\x00\x00\x00\x01\x0F\x03`\x03\x7F\x7F\x7F\x00`\x00\x00`\x01\x7F\x01\x7F\x03\x05\x04\x00\x00\x01\x02\x05\x03\x01\x00\x02\x07\x1D\x04\x04copy\x00\x00\x04init\x00\x01\x04drop\x00\x02\x04load\x00\x03\x0C\x01\x02\x0A)\x04\x0C\x00 \x00 \x01 \x02\xFC\x0A\x00\x00\x0B\x0C\x00 \x00 \x01 \x02\xFC\x08\x01\x00\x0B\x05\x00\xFC\x09\x01\x0B\x07\x00 \x00(\x02\x00\x0B\x0B\x11\x02\x00A\xFE\xFF\x03\x0B\x04ABCD\x01\x03xyz",
        script: r#"{"version":1,"globals":[],"replies":[],"grows":[],"items":[{"call":["copy",[["i32",65535],["i32",65534],["i32",4]]]},{"call":["load",[["i32",65535]]]},{"call":["copy",[["i32",131072],["i32",131072],["i32",0]]]},{"call":["copy",[["i32",131073],["i32",0],["i32",0]]]},{"call":["copy",[["i32",0],["i32",131073],["i32",0]]]},{"call":["copy",[["i32",131071],["i32",0],["i32",2]]]},{"call":["copy",[["i32",0],["i32",4294967295],["i32",2]]]}]}"#,
        turns: 1000,
        printed: "started\nreturned 0 () []\nreturned 1 (i32 1145258561) []\nreturned 2 () []\ntrapped 3 []\ntrapped 4 []\ntrapped 5 []\ntrapped 6 []\ndone\n",
    },
    // (module
    //   (memory 2)
    //   (data (i32.const 65534) "ABCD")
    //   (data $p "xyz")
    //   (func (export "copy") (param i32 i32 i32) local.get 0 local.get 1 local.get 2 memory.copy)
    //   (func (export "init") (param i32 i32 i32) local.get 0 local.get 1 local.get 2 memory.init $p)
    //   (func (export "drop") data.drop $p)
    //   (func (export "load") (param i32) (result i32) local.get 0 i32.load))
    Row {
        shows: "and so to lower places",
        module: b"\x00asm\x01\x00\x00\x00\x01\x0F\x03`\x03\x7F\x7F\x7F\x00`\x00\x00`\x01\x7F\x01\x7F\x03\x05\x04\x00\x00\x01\x02\x05\x03\x01\x00\x02\x07\x1D\x04\x04copy\x00\x00\x04init\x00\x01\x04drop\x00\x02\x04load\x00\x03\x0C\x01\x02\x0A)\x04\x0C\x00 \x00 \x01 \x02\xFC\x0A\x00\x00\x0B\x0C\x00 \x00 \x01 \x02\xFC\x08\x01\x00\x0B\x05\x00\xFC\x09\x01\x0B\x07\x00 \x00(\x02\x00\x0B\x0B\x11\x02\x00A\xFE\xFF\x03\x0B\x04ABCD\x01\x03xyz",
        script: r#"{"version":1,"globals":[],"replies":[],"grows":[],"items":[{"call":["copy",[["i32",65533],["i32",65534],["i32",4]]]},{"call":["load",[["i32",65533]]]}]}"#,
        turns: 1000,
        printed: "started\nreturned 0 () []\nreturned 1 (i32 1145258561) []\ndone\n",
    },
    // (module
    //   (memory 2)
    //   (data (i32.const 65534) "ABCD")
    //   (data $p "xyz")
    //   (func (export "copy") (param i32 i32 i32) local.get 0 local.get 1 local.get 2 memory.copy)
    //   (func (export "init") (param i32 i32 i32) local.get 0 local.get 1 local.get 2 memory.init $p)
    //   (func (export "drop") data.drop $p)
    //   (func (export "load") (param i32) (result i32) local.get 0 i32.load))
    Row {
        shows: "a segment is written from until it is dropped",
        module: b"\x00asm\x01\x00\x00\x00\x01\x0F\x03`\x03\x7F\x7F\x7F\x00`\x00\x00`\x01\x7F\x01\x7F\x03\x05\x04\x00\x00\x01\x02\x05\x03\x01\x00\x02\x07\x1D\x04\x04copy\x00\x00\x04init\x00\x01\x04drop\x00\x02\x04load\x00\x03\x0C\x01\x02\x0A)\x04\x0C\x00 \x00 \x01 \x02\xFC\x0A\x00\x00\x0B\x0C\x00 \x00 \x01 \x02\xFC\x08\x01\x00\x0B\x05\x00\xFC\x09\x01\x0B\x07\x00 \x00(\x02\x00\x0B\x0B\x11\x02\x00A\xFE\xFF\x03\x0B\x04ABCD\x01\x03xyz",
        script: r#"{"version":1,"globals":[],"replies":[],"grows":[],"items":[{"call":["init",[["i32",131072],["i32",3],["i32",0]]]},{"call":["init",[["i32",131073],["i32",3],["i32",0]]]},{"call":["init",[["i32",0],["i32",4],["i32",0]]]},{"call":["init",[["i32",0],["i32",1],["i32",2]]]},{"call":["load",[["i32",0]]]},{"call":["init",[["i32",0],["i32",2],["i32",2]]]},{"call":["load",[["i32",0]]]},{"call":["drop",[]]},{"call":["init",[["i32",0],["i32",0],["i32",1]]]},{"call":["init",[["i32",0],["i32",0],["i32",0]]]},{"call":["drop",[]]},{"call":["load",[["i32",0]]]}]}"#,
        turns: 1000,
        printed: "started\nreturned 0 () []\ntrapped 1 []\ntrapped 2 []\nreturned 3 () []\nreturned 4 (i32 31353) []\ntrapped 5 []\nreturned 6 (i32 31353) []\nreturned 7 () []\ntrapped 8 []\nreturned 9 () []\nreturned 10 () []\nreturned 11 (i32 31353) []\ndone\n",
    },
    // (module
    //   (memory 1)
    //   (data $d (i32.const 2) "ab")
    //   (func (export "init") (param i32) i32.const 0 i32.const 0 local.get 0 memory.init $d)
    //   (func (export "load") (result i32) i32.const 0 i32.load))
    Row {
        shows: "an active segment is dropped when the module is instantiated",
        module: b"\x00asm\x01\x00\x00\x00\x01\x09\x02`\x01\x7F\x00`\x00\x01\x7F\x03\x03\x02\x00\x01\x05\x03\x01\x00\x01\x07\x0F\x02\x04init\x00\x00\x04load\x00\x01\x0C\x01\x01\x0A\x16\x02\x0C\x00A\x00A\x00 \x00\xFC\x08\x00\x00\x0B\x07\x00A\x00(\x02\x00\x0B\x0B\x08\x01\x00A\x02\x0B\x02ab",
        script: r#"{"version":1,"globals":[],"replies":[],"grows":[],"items":[{"call":["init",[["i32",0]]]},{"call":["init",[["i32",1]]]},{"call":["load",[]]}]}"#,
        turns: 1000,
        printed: "started\nreturned 0 () []\ntrapped 1 []\nreturned 2 (i32 1650524160) []\ndone\n",
    },
    // (module
    //   (memory (export "m") 1)
    //   (func (export "f") (param i32 i32 i32) local.get 0 local.get 1 local.get 2 memory.fill))
    Row {
        shows: "a fill past the end traps and writes nothing",
        module: b"\x00asm\x01\x00\x00\x00\x01\x07\x01`\x03\x7F\x7F\x7F\x00\x03\x02\x01\x00\x05\x03\x01\x00\x01\x07\x09\x02\x01m\x02\x00\x01f\x00\x00\x0A\x0D\x01\x0B\x00 \x00 \x01 \x02\xFC\x0B\x00\x0B",
        script: r#"{"version":1,"globals":[],"replies":[],"grows":[],"items":[{"call":["f",[["i32",65535],["i32",7],["i32",2]]]},{"peek":["m",65535,1]},{"call":["f",[["i32",65535],["i32",263],["i32",1]]]},{"peek":["m",65534,2]},{"call":["f",[["i32",65536],["i32",7],["i32",0]]]},{"call":["f",[["i32",65537],["i32",7],["i32",0]]]},{"call":["f",[["i32",1],["i32",8],["i32",4294967295]]]},{"peek":["m",0,2]}]}"#,
        turns: 1000,
        printed: "started\ntrapped 0 []\npeeked (00)\nreturned 2 () []\npeeked (0007)\nreturned 4 () []\ntrapped 5 []\ntrapped 6 []\npeeked (0000)\ndone\n",
    },
    // (module
    //   (memory i64 1)
    //   (func (export "load") (param i64) (result i32) local.get 0 i32.load)
    //   (func (export "next") (param i64) (result i32) local.get 0 i32.load offset=1)
    //   (func (export "grow") (param i64) (result i64) local.get 0 memory.grow)
    //   (func (export "size") (result i64) memory.size))
    Row {
        shows: "addresses of 64 bits do not wrap",
        module: b"\x00asm\x01\x00\x00\x00\x01\x0F\x03`\x01~\x01\x7F`\x01~\x01~`\x00\x01~\x03\x05\x04\x00\x00\x01\x02\x05\x03\x01\x04\x01\x07\x1D\x04\x04load\x00\x00\x04next\x00\x01\x04grow\x00\x02\x04size\x00\x03\x0A\x1D\x04\x07\x00 \x00(\x02\x00\x0B\x07\x00 \x00(\x02\x01\x0B\x06\x00 \x00@\x00\x0B\x04\x00?\x00\x0B",
        script: r#"{"version":1,"globals":[],"replies":[],"grows":[false],"items":[{"call":["load",[["i64",4294967296]]]},{"call":["next",[["i64",18446744073709551615]]]},{"call":["grow",[["i64",1099511627776]]]},{"call":["size",[]]},{"call":["load",[["i64",65532]]]},{"call":["load",[["i64",65533]]]},{"call":["load",[["i64",18446744073709551615]]]},{"call":["next",[["i64",65531]]]},{"call":["next",[["i64",65532]]]},{"call":["grow",[["i64",281474976710656]]]},{"call":["grow",[["i64",1]]]},{"call":["load",[["i64",131068]]]},{"call":["size",[]]}]}"#,
        turns: 1000,
        printed: "started\ntrapped 0 []\ntrapped 1 []\nreturned 2 (i64 18446744073709551615) []\nreturned 3 (i64 1) []\nreturned 4 (i32 0) []\ntrapped 5 []\ntrapped 6 []\nreturned 7 (i32 0) []\ntrapped 8 []\nreturned 9 (i64 18446744073709551615) []\nreturned 10 (i64 1) []\nreturned 11 (i32 0) []\nreturned 12 (i64 2) []\ndone\n",
    },
    // (module
    //   (memory 1)
    //   (memory 1)
    //   (func (export "grow0") (param i32) (result i32) local.get 0 memory.grow 0)
    //   (func (export "grow1") (param i32) (result i32) local.get 0 memory.grow 1)
    //   (func (export "store") i32.const 65532 i64.const 72623859790382856 i64.store 1)
    //   (func (export "load") (result i64) i32.const 65532 i64.load 1)
    //   (func (export "high") (result i32) i32.const 65536 i32.load 1)
    //   (func (export "other") (result i64) i32.const 65532 i64.load 0))
    Row {
        shows: "two memories grow and are written apart",
        module: b"\x00asm\x01\x00\x00\x00\x01\x11\x04`\x01\x7F\x01\x7F`\x00\x00`\x00\x01~`\x00\x01\x7F\x03\x07\x06\x00\x00\x01\x02\x03\x02\x05\x05\x02\x00\x01\x00\x01\x07/\x06\x05grow0\x00\x00\x05grow1\x00\x01\x05store\x00\x02\x04load\x00\x03\x04high\x00\x04\x05other\x00\x05\x0AD\x06\x06\x00 \x00@\x00\x0B\x06\x00 \x00@\x01\x0B\x14\x00A\xFC\xFF\x03B\x88\x8E\x98\xA8\xC0\xE0\x80\x81\x017C\x01\x00\x0B\x0A\x00A\xFC\xFF\x03)C\x01\x00\x0B\x0A\x00A\x80\x80\x04(B\x01\x00\x0B\x09\x00A\xFC\xFF\x03)\x03\x00\x0B",
        script: r#"{"version":1,"globals":[],"replies":[],"grows":[true,false,true],"items":[{"call":["grow0",[["i32",1]]]},{"call":["grow1",[["i32",1]]]},{"call":["grow1",[["i32",2]]]},{"call":["store",[]]},{"call":["load",[]]},{"call":["high",[]]},{"call":["other",[]]}]}"#,
        turns: 1000,
        printed: "started\nreturned 0 (i32 1) []\nreturned 1 (i32 4294967295) []\nreturned 2 (i32 1) []\nreturned 3 () []\nreturned 4 (i64 72623859790382856) []\nreturned 5 (i32 16909060) []\nreturned 6 (i64 0) []\ndone\n",
    },
    // (module
    //   (memory (export "a") 1)
    //   (memory (export "b") 2)
    //   (data (memory 0) (i32.const 10) "hello")
    //   (data $p "worlds")
    //   (func (export "copy") (param i32 i32 i32) local.get 0 local.get 1 local.get 2 memory.copy 1 0)
    //   (func (export "back") (param i32 i32 i32) local.get 0 local.get 1 local.get 2 memory.copy 0 1)
    //   (func (export "fill") (param i32 i32 i32) local.get 0 local.get 1 local.get 2 memory.fill 1)
    //   (func (export "init") (param i32 i32 i32) local.get 0 local.get 1 local.get 2 memory.init 1 $p))
    Row {
        shows: "ranges are copied from one memory to another",
        module: b"\x00asm\x01\x00\x00\x00\x01\x07\x01`\x03\x7F\x7F\x7F\x00\x03\x05\x04\x00\x00\x00\x00\x05\x05\x02\x00\x01\x00\x02\x07%\x06\x01a\x02\x00\x01b\x02\x01\x04copy\x00\x00\x04back\x00\x01\x04fill\x00\x02\x04init\x00\x03\x0C\x01\x02\x0A4\x04\x0C\x00 \x00 \x01 \x02\xFC\x0A\x01\x00\x0B\x0C\x00 \x00 \x01 \x02\xFC\x0A\x00\x01\x0B\x0B\x00 \x00 \x01 \x02\xFC\x0B\x01\x0B\x0C\x00 \x00 \x01 \x02\xFC\x08\x01\x01\x0B\x0B\x13\x02\x00A\x0A\x0B\x05hello\x01\x06worlds",
        script: r#"{"version":1,"globals":[],"replies":[],"grows":[],"items":[{"call":["copy",[["i32",131070],["i32",11],["i32",2]]]},{"peek":["b",131069,3]},{"peek":["a",10,5]},{"call":["copy",[["i32",131070],["i32",11],["i32",3]]]},{"call":["copy",[["i32",0],["i32",65535],["i32",2]]]},{"call":["back",[["i32",65535],["i32",131070],["i32",2]]]},{"call":["back",[["i32",65534],["i32",131070],["i32",2]]]},{"peek":["a",65533,3]},{"call":["fill",[["i32",70000],["i32",9],["i32",2]]]},{"peek":["b",70000,3]},{"call":["init",[["i32",5],["i32",1],["i32",3]]]},{"peek":["b",4,5]},{"poke":["b",131071,"8081"]},{"poke":["a",0,"8081"]},{"peek":["a",0,3]}]}"#,
        turns: 1000,
        printed: "started\nreturned 0 () []\npeeked (00656c)\npeeked (68656c6c6f)\ntrapped 3 []\ntrapped 4 []\ntrapped 5 []\nreturned 6 () []\npeeked (00656c)\nreturned 8 () []\npeeked (090900)\nreturned 10 () []\npeeked (006f726c00)\nout of range\npeeked (808100)\ndone\n",
    },
    // (module
    //   (memory (export "m") i64 1)
    //   (data (i64.const 8) "\80\81\82\83\84\85\86\87")
    //   (data $p "xyz")
    //   (func (export "l0") (param i64) (result i32) local.get 0 i32.load8_s offset=3)
    //   (func (export "l1") (param i64) (result i32) local.get 0 i32.load8_u offset=3)
    //   (func (export "l2") (param i64) (result i32) local.get 0 i32.load16_s offset=3)
    //   (func (export "l3") (param i64) (result i32) local.get 0 i32.load16_u offset=3)
    //   (func (export "l4") (param i64) (result i32) local.get 0 i32.load offset=3)
    //   (func (export "l5") (param i64) (result i64) local.get 0 i64.load8_s offset=3)
    //   (func (export "l6") (param i64) (result i64) local.get 0 i64.load8_u offset=3)
    //   (func (export "l7") (param i64) (result i64) local.get 0 i64.load16_s offset=3)
    //   (func (export "l8") (param i64) (result i64) local.get 0 i64.load16_u offset=3)
    //   (func (export "l9") (param i64) (result i64) local.get 0 i64.load32_s offset=3)
    //   (func (export "l10") (param i64) (result i64) local.get 0 i64.load32_u offset=3)
    //   (func (export "l11") (param i64) (result i64) local.get 0 i64.load offset=3)
    //   (func (export "s0") (param i64 i32) local.get 0 local.get 1 i32.store8 offset=3)
    //   (func (export "s1") (param i64 i32) local.get 0 local.get 1 i32.store16 offset=3)
    //   (func (export "s2") (param i64 i32) local.get 0 local.get 1 i32.store offset=3)
    //   (func (export "s3") (param i64 i64) local.get 0 local.get 1 i64.store8 offset=3)
    //   (func (export "s4") (param i64 i64) local.get 0 local.get 1 i64.store16 offset=3)
    //   (func (export "s5") (param i64 i64) local.get 0 local.get 1 i64.store32 offset=3)
    //   (func (export "s6") (param i64 i64) local.get 0 local.get 1 i64.store offset=3)
    //   (func (export "fill") (param i64 i32 i64) local.get 0 local.get 1 local.get 2 memory.fill)
    //   (func (export "copy") (param i64 i64 i64) local.get 0 local.get 1 local.get 2 memory.copy)
    //   (func (export "init") (param i64 i32 i32) local.get 0 local.get 1 local.get 2 memory.init $p))
    Row {
        shows: "a memory of 64-bit addresses is read and written at each width",
        module: b"\x00asm\x01\x00\x00\x00\x01'\x07`\x01~\x01\x7F`\x01~\x01~`\x02~\x7F\x00`\x02~~\x00`\x03~\x7F~\x00`\x03~~~\x00`\x03~\x7F\x7F\x00\x03\x17\x16\x00\x00\x00\x00\x00\x01\x01\x01\x01\x01\x01\x01\x02\x02\x02\x03\x03\x03\x03\x04\x05\x06\x05\x03\x01\x04\x01\x07{\x17\x01m\x02\x00\x02l0\x00\x00\x02l1\x00\x01\x02l2\x00\x02\x02l3\x00\x03\x02l4\x00\x04\x02l5\x00\x05\x02l6\x00\x06\x02l7\x00\x07\x02l8\x00\x08\x02l9\x00\x09\x03l10\x00\x0A\x03l11\x00\x0B\x02s0\x00\x0C\x02s1\x00\x0D\x02s2\x00\x0E\x02s3\x00\x0F\x02s4\x00\x10\x02s5\x00\x11\x02s6\x00\x12\x04fill\x00\x13\x04copy\x00\x14\x04init\x00\x15\x0C\x01\x02\x0A\xCD\x01\x16\x07\x00 \x00,\x00\x03\x0B\x07\x00 \x00-\x00\x03\x0B\x07\x00 \x00.\x01\x03\x0B\x07\x00 \x00/\x01\x03\x0B\x07\x00 \x00(\x02\x03\x0B\x07\x00 \x000\x00\x03\x0B\x07\x00 \x001\x00\x03\x0B\x07\x00 \x002\x01\x03\x0B\x07\x00 \x003\x01\x03\x0B\x07\x00 \x004\x02\x03\x0B\x07\x00 \x005\x02\x03\x0B\x07\x00 \x00)\x03\x03\x0B\x09\x00 \x00 \x01:\x00\x03\x0B\x09\x00 \x00 \x01;\x01\x03\x0B\x09\x00 \x00 \x016\x02\x03\x0B\x09\x00 \x00 \x01<\x00\x03\x0B\x09\x00 \x00 \x01=\x01\x03\x0B\x09\x00 \x00 \x01>\x02\x03\x0B\x09\x00 \x00 \x017\x03\x03\x0B\x0B\x00 \x00 \x01 \x02\xFC\x0B\x00\x0B\x0C\x00 \x00 \x01 \x02\xFC\x0A\x00\x00\x0B\x0C\x00 \x00 \x01 \x02\xFC\x08\x01\x00\x0B\x0B\x13\x02\x00B\x08\x0B\x08\x80\x81\x82\x83\x84\x85\x86\x87\x01\x03xyz",
        script: r#"{"version":1,"globals":[],"replies":[],"grows":[],"items":[{"call":["l0",[["i64",5]]]},{"call":["l1",[["i64",5]]]},{"call":["l2",[["i64",5]]]},{"call":["l3",[["i64",5]]]},{"call":["l4",[["i64",5]]]},{"call":["l5",[["i64",5]]]},{"call":["l6",[["i64",5]]]},{"call":["l7",[["i64",5]]]},{"call":["l8",[["i64",5]]]},{"call":["l9",[["i64",5]]]},{"call":["l10",[["i64",5]]]},{"call":["l11",[["i64",5]]]},{"call":["l0",[["i64",65533]]]},{"call":["l1",[["i64",65533]]]},{"call":["l2",[["i64",65532]]]},{"call":["l3",[["i64",65532]]]},{"call":["l4",[["i64",65530]]]},{"call":["l5",[["i64",65533]]]},{"call":["l6",[["i64",65533]]]},{"call":["l7",[["i64",65532]]]},{"call":["l8",[["i64",65532]]]},{"call":["l9",[["i64",65530]]]},{"call":["l10",[["i64",65530]]]},{"call":["l11",[["i64",65526]]]},{"call":["s0",[["i64",97],["i32",1432778632]]]},{"peek":["m",100,9]},{"call":["s0",[["i64",65533],["i32",1432778632]]]},{"call":["s1",[["i64",113],["i32",1432778632]]]},{"peek":["m",116,9]},{"call":["s1",[["i64",65532],["i32",1432778632]]]},{"call":["s2",[["i64",129],["i32",1432778632]]]},{"peek":["m",132,9]},{"call":["s2",[["i64",65530],["i32",1432778632]]]},{"call":["s3",[["i64",145],["i64",1234605616436508552]]]},{"peek":["m",148,9]},{"call":["s3",[["i64",65533],["i64",1234605616436508552]]]},{"call":["s4",[["i64",161],["i64",1234605616436508552]]]},{"peek":["m",164,9]},{"call":["s4",[["i64",65532],["i64",1234605616436508552]]]},{"call":["s5",[["i64",177],["i64",1234605616436508552]]]},{"peek":["m",180,9]},{"call":["s5",[["i64",65530],["i64",1234605616436508552]]]},{"call":["s6",[["i64",193],["i64",1234605616436508552]]]},{"peek":["m",196,9]},{"call":["s6",[["i64",65526],["i64",1234605616436508552]]]},{"peek":["m",65528,8]},{"call":["fill",[["i64",65534],["i32",6],["i64",2]]]},{"call":["fill",[["i64",65534],["i32",7],["i64",3]]]},{"call":["fill",[["i64",18446744073709551615],["i32",7],["i64",2]]]},{"peek":["m",65533,3]},{"call":["copy",[["i64",9],["i64",8],["i64",3]]]},{"peek":["m",8,5]},{"call":["copy",[["i64",8],["i64",65535],["i64",2]]]},{"call":["copy",[["i64",4294967304],["i64",8],["i64",1]]]},{"call":["init",[["i64",65534],["i32",1],["i32",2]]]},{"call":["init",[["i64",65535],["i32",1],["i32",2]]]},{"call":["init",[["i64",4294967296],["i32",0],["i32",1]]]},{"peek":["m",65533,3]}]}"#,
        turns: 1000,
        printed: "started\nreturned 0 (i32 4294967168) []\nreturned 1 (i32 128) []\nreturned 2 (i32 4294934912) []\nreturned 3 (i32 33152) []\nreturned 4 (i32 2206368128) []\nreturned 5 (i64 18446744073709551488) []\nreturned 6 (i64 128) []\nreturned 7 (i64 18446744073709519232) []\nreturned 8 (i64 33152) []\nreturned 9 (i64 18446744071620952448) []\nreturned 10 (i64 2206368128) []\nreturned 11 (i64 9765639646188044672) []\ntrapped 12 []\ntrapped 13 []\ntrapped 14 []\ntrapped 15 []\ntrapped 16 []\ntrapped 17 []\ntrapped 18 []\ntrapped 19 []\ntrapped 20 []\ntrapped 21 []\ntrapped 22 []\ntrapped 23 []\nreturned 24 () []\npeeked (880000000000000000)\ntrapped 26 []\nreturned 27 () []\npeeked (887700000000000000)\ntrapped 29 []\nreturned 30 () []\npeeked (887766550000000000)\ntrapped 32 []\nreturned 33 () []\npeeked (880000000000000000)\ntrapped 35 []\nreturned 36 () []\npeeked (887700000000000000)\ntrapped 38 []\nreturned 39 () []\npeeked (887766550000000000)\ntrapped 41 []\nreturned 42 () []\npeeked (887766554433221100)\ntrapped 44 []\npeeked (0000000000000000)\nreturned 46 () []\ntrapped 47 []\ntrapped 48 []\npeeked (000606)\nreturned 50 () []\npeeked (8080818284)\ntrapped 52 []\ntrapped 53 []\nreturned 54 () []\ntrapped 55 []\ntrapped 56 []\npeeked (00797a)\ndone\n",
    },
    // (module
    //   (memory 0 3)
    //   (table 0 3 funcref)
    //   (func (export "m") (param i32) (result i32) local.get 0 memory.grow)
    //   (func (export "t") (param i32) (result i32) ref.null func local.get 0 table.grow 0)
    //   (func (export "sizes") (result i32 i32) memory.size table.size 0))
    Row {
        shows: "growths of memories and tables take the answers in order",
        module: b"\x00asm\x01\x00\x00\x00\x01\x0B\x02`\x01\x7F\x01\x7F`\x00\x02\x7F\x7F\x03\x04\x03\x00\x00\x01\x04\x05\x01p\x01\x00\x03\x05\x04\x01\x01\x00\x03\x07\x11\x03\x01m\x00\x00\x01t\x00\x01\x05sizes\x00\x02\x0A\x1A\x03\x06\x00 \x00@\x00\x0B\x09\x00\xD0p \x00\xFC\x0F\x00\x0B\x07\x00?\x00\xFC\x10\x00\x0B",
        script: r#"{"version":1,"globals":[],"replies":[],"grows":[false,true,true,true,false,false],"items":[{"call":["t",[["i32",1]]]},{"call":["m",[["i32",1]]]},{"call":["m",[["i32",4]]]},{"call":["t",[["i32",1]]]},{"call":["m",[["i32",1]]]},{"call":["t",[["i32",0]]]},{"call":["sizes",[]]},{"call":["t",[["i32",2]]]},{"call":["t",[["i32",3]]]},{"call":["m",[["i32",2]]]},{"call":["m",[["i32",1]]]},{"call":["sizes",[]]}]}"#,
        turns: 1000,
        printed: "started\nreturned 0 (i32 4294967295) []\nreturned 1 (i32 0) []\nreturned 2 (i32 4294967295) []\nreturned 3 (i32 0) []\nreturned 4 (i32 4294967295) []\nreturned 5 (i32 4294967295) []\nreturned 6 (i32 1, i32 1) []\nreturned 7 (i32 1) []\nreturned 8 (i32 4294967295) []\nreturned 9 (i32 1) []\nreturned 10 (i32 4294967295) []\nreturned 11 (i32 3, i32 3) []\ndone\n",
    },
];
