// Exceptions: clauses, and what no clause takes.
use crate::row::Row;

pub static EXCEPTIONS: [Row; 6] = [
    // (module
    //   (tag (param i32))
    //   (func $t i32.const 7 throw 0)
    //   (func (export "f")
    //     block try_table (catch_all 0) return_call $t end end))
    Row {
        shows: "a tail call leaves the code whose clauses take exceptions",
        module: b"\x00asm\x01\x00\x00\x00\x01\x08\x02`\x01\x7F\x00`\x00\x00\x03\x03\x02\x01\x01\x0D\x03\x01\x00\x00\x07\x05\x01\x01f\x00\x01\x0A\x16\x02\x06\x00A\x07\x08\x00\x0B\x0D\x00\x02@\x1F@\x01\x02\x00\x12\x00\x0B\x0B\x0B",
        script: r#"{"version":1,"globals":[],"replies":[],"grows":[],"items":[{"call":["f",[]]}]}"#,
        turns: 1000,
        printed: "started\nuncaught 0 0 (i32 7) []\ndone\n",
    },
    // (module
    //   (type $two (func (result i32 v128)))
    //   (type $three (func (result i32 v128 exnref)))
    //   (tag (param i32 v128))
    //   (func (export "f") (type $two)
    //     block (type $two)
    //       try_table (catch 0 0) i32.const 5 v128.const i64x2 1 2 throw 0 end unreachable
    //     end)
    //   (func (export "g")
    //     block (type $three)
    //       try_table (catch_ref 0 0) i32.const 5 v128.const i64x2 1 2 throw 0 end unreachable
    //     end
    //     throw_ref)
    //   (func (export "h") ref.null exn throw_ref))
    Row {
        shows: "a clause hands on the values, and one by reference the exception too",
        module: b"\x00asm\x01\x00\x00\x00\x01\x14\x04`\x02\x7F{\x00`\x00\x02\x7F{`\x00\x03\x7F{i`\x00\x00\x03\x04\x03\x01\x03\x03\x0D\x03\x01\x00\x00\x07\x0D\x03\x01f\x00\x00\x01g\x00\x01\x01h\x00\x02\x0AP\x03#\x00\x02\x01\x1F@\x01\x00\x00\x00A\x05\xFD\x0C\x01\x00\x00\x00\x00\x00\x00\x00\x02\x00\x00\x00\x00\x00\x00\x00\x08\x00\x0B\x00\x0B\x0B$\x00\x02\x02\x1F@\x01\x01\x00\x00A\x05\xFD\x0C\x01\x00\x00\x00\x00\x00\x00\x00\x02\x00\x00\x00\x00\x00\x00\x00\x08\x00\x0B\x00\x0B\x0A\x0B\x05\x00\xD0i\x0A\x0B",
        script: r#"{"version":1,"globals":[],"replies":[],"grows":[],"items":[{"call":["f",[]]},{"call":["g",[]]},{"call":["h",[]]}]}"#,
        turns: 1000,
        printed: "started\nreturned 0 (i32 5, v128 1 2) []\nuncaught 1 0 (i32 5, v128 1 2) []\ntrapped 2 []\ndone\n",
    },
    // (module
    //   (tag)
    //   (global (export "n") (mut i32) (i32.const 4))
    //   (func (export "f") i32.const 6 global.set 0 throw 0)
    //   (func (export "g") (result i32) i32.const 3))
    Row {
        shows: "what was set before an exception stays, and the next call follows",
        module: b"\x00asm\x01\x00\x00\x00\x01\x08\x02`\x00\x00`\x00\x01\x7F\x03\x03\x02\x00\x01\x0D\x03\x01\x00\x00\x06\x06\x01\x7F\x01A\x04\x0B\x07\x0D\x03\x01n\x03\x00\x01f\x00\x00\x01g\x00\x01\x0A\x0F\x02\x08\x00A\x06$\x00\x08\x00\x0B\x04\x00A\x03\x0B",
        script: r#"{"version":1,"globals":[],"replies":[],"grows":[],"items":[{"call":["f",[]]},{"call":["g",[]]}]}"#,
        turns: 1000,
        printed: "started\nuncaught 0 0 () [i32 6]\nreturned 1 (i32 3) [i32 6]\ndone\n",
    },
    // (module
    //   (tag)
    //   (memory (export "m") 1)
    //   (func (export "c")
    //     block (result exnref) try_table (catch_all_ref 0) throw 0 end unreachable end drop))
    Row {
        shows: "exceptions are captured again and again",
        module: b"\x00asm\x01\x00\x00\x00\x01\x04\x01`\x00\x00\x03\x02\x01\x00\x05\x03\x01\x00\x01\x0D\x03\x01\x00\x00\x07\x09\x02\x01m\x02\x00\x01c\x00\x00\x0A\x11\x01\x0F\x00\x02i\x1F@\x01\x03\x00\x08\x00\x0B\x00\x0B\x1A\x0B",
        script: r#"{"version":1,"globals":[],"replies":[],"grows":[],"items":[{"call":["c",[]]},{"call":["c",[]]},{"call":["c",[]]}]}"#,
        turns: 1000,
        printed: "started\nreturned 0 () []\nreturned 1 () []\nreturned 2 () []\ndone\n",
    },
    // (module
    //   (type $t (func (result i32 exnref)))
    //   (tag $a (param i32))
    //   (tag $b)
    //   (func $throws (param i32)
    //     block block block block local.get 0 br_table 0 1 2 3
    //     end i32.const 5 throw $a end throw $b end unreachable end)
    //   (func $calls (param i32) local.get 0 call $throws)
    //   (func (export "f") (param i32) (result i32)
    //     block (result i32) block
    //       try_table (catch $a 1) (catch_all 0) local.get 0 call $calls end i32.const 100 return
    //     end i32.const 200 end)
    //   (func (export "g") (param i32) (result i32)
    //     block (result i32) block
    //       try_table (catch_all 0) (catch $a 1) local.get 0 call $calls end i32.const 100 return
    //     end i32.const 200 end)
    //   (func (export "h") (param i32) (result i32)
    //     block (result i32) block
    //       try_table (catch $a 1) local.get 0 call $calls end i32.const 100 return
    //     end i32.const 200 end)
    //   (func (export "r") (param i32) (result i32)
    //     block (type $t) try_table (catch_ref $a 0) local.get 0 call $calls end i32.const 100 return end drop)
    //   (func (export "w") (param i32) (local exnref)
    //     block (result exnref) try_table (catch_all_ref 0) local.get 0 call $calls end return end
    //     local.set 1 local.get 1 throw_ref)
    //   (func (export "n") (param i32) (result i32)
    //     block
    //       try_table (catch_all 0)
    //         block (result i32) try_table (catch $a 0) local.get 0 call $calls end i32.const 100 end return
    //       end unreachable
    //     end i32.const 300))
    Row {
        shows: "the first clause that fits takes the exception, and no clause takes a trap",
        module: b"\x00asm\x01\x00\x00\x00\x01\x12\x04`\x01\x7F\x00`\x00\x00`\x01\x7F\x01\x7F`\x00\x02\x7Fi\x03\x09\x08\x00\x00\x02\x02\x02\x02\x00\x02\x0D\x05\x02\x00\x00\x00\x01\x07\x19\x06\x01f\x00\x02\x01g\x00\x03\x01h\x00\x04\x01r\x00\x05\x01w\x00\x06\x01n\x00\x07\x0A\xCB\x01\x08\x1D\x00\x02@\x02@\x02@\x02@ \x00\x0E\x03\x00\x01\x02\x03\x0BA\x05\x08\x00\x0B\x08\x01\x0B\x00\x0B\x0B\x06\x00 \x00\x10\x00\x0B\x1C\x00\x02\x7F\x02@\x1F@\x02\x00\x00\x01\x02\x00 \x00\x10\x01\x0BA\xE4\x00\x0F\x0BA\xC8\x01\x0B\x0B\x1C\x00\x02\x7F\x02@\x1F@\x02\x02\x00\x00\x00\x01 \x00\x10\x01\x0BA\xE4\x00\x0F\x0BA\xC8\x01\x0B\x0B\x1A\x00\x02\x7F\x02@\x1F@\x01\x00\x00\x01 \x00\x10\x01\x0BA\xE4\x00\x0F\x0BA\xC8\x01\x0B\x0B\x15\x00\x02\x03\x1F@\x01\x01\x00\x00 \x00\x10\x01\x0BA\xE4\x00\x0F\x0B\x1A\x0B\x17\x01\x01i\x02i\x1F@\x01\x03\x00 \x00\x10\x01\x0B\x0F\x0B!\x01 \x01\x0A\x0B!\x00\x02@\x1F@\x01\x02\x00\x02\x7F\x1F@\x01\x00\x00\x00 \x00\x10\x01\x0BA\xE4\x00\x0B\x0F\x0B\x00\x0BA\xAC\x02\x0B",
        script: r#"{"version":1,"globals":[],"replies":[],"grows":[],"items":[{"call":["f",[["i32",0]]]},{"call":["f",[["i32",1]]]},{"call":["f",[["i32",2]]]},{"call":["f",[["i32",3]]]},{"call":["g",[["i32",0]]]},{"call":["g",[["i32",1]]]},{"call":["g",[["i32",2]]]},{"call":["g",[["i32",3]]]},{"call":["h",[["i32",0]]]},{"call":["h",[["i32",1]]]},{"call":["h",[["i32",2]]]},{"call":["h",[["i32",3]]]},{"call":["r",[["i32",0]]]},{"call":["r",[["i32",1]]]},{"call":["r",[["i32",2]]]},{"call":["r",[["i32",3]]]},{"call":["w",[["i32",0]]]},{"call":["w",[["i32",1]]]},{"call":["w",[["i32",2]]]},{"call":["w",[["i32",3]]]},{"call":["n",[["i32",0]]]},{"call":["n",[["i32",1]]]},{"call":["n",[["i32",2]]]},{"call":["n",[["i32",3]]]}]}"#,
        turns: 1000,
        printed: "started\nreturned 0 (i32 5) []\nreturned 1 (i32 200) []\ntrapped 2 []\nreturned 3 (i32 100) []\nreturned 4 (i32 200) []\nreturned 5 (i32 200) []\ntrapped 6 []\nreturned 7 (i32 100) []\nreturned 8 (i32 5) []\nuncaught 9 1 () []\ntrapped 10 []\nreturned 11 (i32 100) []\nreturned 12 (i32 5) []\nuncaught 13 1 () []\ntrapped 14 []\nreturned 15 (i32 100) []\nuncaught 16 0 (i32 5) []\nuncaught 17 1 () []\ntrapped 18 []\nreturned 19 () []\nreturned 20 (i32 5) []\nreturned 21 (i32 300) []\ntrapped 22 []\nreturned 23 (i32 100) []\ndone\n",
    },
    // (module
    //   (import "e" "h" (func))
    //   (tag)
    //   (func $s call 0 throw 0)
    //   (start $s))
    Row {
        shows: "a start function that ends in an exception fails",
        module: b"\x00asm\x01\x00\x00\x00\x01\x04\x01`\x00\x00\x02\x07\x01\x01e\x01h\x00\x00\x03\x02\x01\x00\x0D\x03\x01\x00\x00\x08\x01\x01\x0A\x08\x01\x06\x00\x10\x00\x08\x00\x0B",
        script: r#"{"version":1,"globals":[],"replies":[[{"acts":[],"values":[]}]],"grows":[],"items":[]}"#,
        turns: 1000,
        printed: "host 0 () []\nfailed\n",
    },
];
