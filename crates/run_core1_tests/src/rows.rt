// What runs print: modules of 1.0 as bytes, scripts, and the events that the standard's rules give, worked out by hand.

/// A module, a script, how many turns there are, and what is printed of the events.
pub struct Row {
    pub module: &'static [u8],
    pub script: &'static str,
    pub turns: u64,
    pub printed: &'static str,
}

pub static ROWS: [Row; 17] = [
    // a byte is extended by two shifts
    Row {
        module: b"\x00asm\x01\x00\x00\x00\x01\x06\x01`\x01\x7F\x01\x7F\x03\x02\x01\x00\x07\x05\x01\x01f\x00\x00\x0A\x0C\x01\x0A\x00 \x00A\x18tA\x18u\x0B",
        script: r#"{"version":1,"globals":[],"replies":[],"grows":[],"items":[{"call":["f",[["i32",127]]]},{"call":["f",[["i32",128]]]},{"call":["f",[["i32",255]]]},{"call":["f",[["i32",4294967295]]]}]}"#,
        turns: 1000,
        printed: "started\nreturned 0 (i32 127) []\nreturned 1 (i32 4294967168) []\nreturned 2 (i32 4294967295) []\nreturned 3 (i32 4294967295) []\ndone\n",
    },
    // nothing is asked for
    Row {
        module: b"\x00asm\x01\x00\x00\x00",
        script: r#"{"version":1,"globals":[],"replies":[],"grows":[],"items":[]}"#,
        turns: 0,
        printed: "started\ndone\n",
    },
    // a call takes a turn
    Row {
        module: b"\x00asm\x01\x00\x00\x00\x01\x06\x01`\x01\x7F\x01\x7F\x03\x02\x01\x00\x07\x05\x01\x01f\x00\x00\x0A\x0C\x01\x0A\x00 \x00A\x18tA\x18u\x0B",
        script: r#"{"version":1,"globals":[],"replies":[],"grows":[],"items":[{"call":["f",[["i32",1]]]},{"call":["f",[["i32",2]]]}]}"#,
        turns: 1,
        printed: "started\nreturned 0 (i32 1) []\n",
    },
    // a store across the end traps and writes nothing
    Row {
        module: b"\x00asm\x01\x00\x00\x00\x01\x0A\x02`\x01\x7F\x00`\x01\x7F\x01~\x03\x03\x02\x00\x01\x05\x03\x01\x00\x01\x07\x0D\x03\x01m\x02\x00\x01s\x00\x00\x01l\x00\x01\x0A\x13\x02\x09\x00 \x00B\x7F7\x03\x00\x0B\x07\x00 \x002\x01\x01\x0B",
        script: r#"{"version":1,"globals":[],"replies":[],"grows":[],"items":[{"call":["s",[["i32",65529]]]},{"peek":["m",65528,8]},{"call":["s",[["i32",65528]]]},{"peek":["m",65527,9]},{"peek":["m",65536,1]},{"poke":["m",65535,"80"]},{"call":["l",[["i32",65533]]]},{"call":["l",[["i32",65534]]]},{"call":["l",[["i32",4294967295]]]}]}"#,
        turns: 1000,
        printed: "started\ntrapped 0 []\npeeked (0000000000000000)\nreturned 2 () []\npeeked (00ffffffffffffffff)\nout of range\nreturned 6 (i64 18446744073709519103) []\ntrapped 7 []\ntrapped 8 []\ndone\n",
    },
    // a host function acts on the memory
    Row {
        module: b"\x00asm\x01\x00\x00\x00\x01\x0C\x02`\x02\x7F\x7F\x00`\x02\x7F\x7F\x01\x7F\x02\x09\x01\x03env\x01h\x00\x00\x03\x02\x01\x01\x04\x04\x01p\x00\x02\x05\x03\x01\x00\x02\x06\x08\x01\x7F\x01A\x80\x88\x04\x0B\x07\x10\x02\x06memory\x02\x00\x03run\x00\x01\x09\x07\x01\x00A\x01\x0B\x01\x01\x0A2\x010\x01\x01\x7F\x02@\x03@ \x02 \x01O\x0D\x01 \x00 \x02jA\x80\x01:\x00\x00 \x02A\x01j!\x02\x0C\x00\x0B\x0B \x00 \x01\x10\x00 \x00,\x00\x00\x0B",
        script: r#"{"version":1,"globals":[],"replies":[[{"acts":[{"peek":["memory",1024,4]},{"poke":["memory",1024,"05"]}],"values":[]}]],"grows":[],"items":[{"call":["run",[["i32",1024],["i32",4]]]},{"peek":["memory",1024,4]}]}"#,
        turns: 1000,
        printed: "started\nhost 0 (i32 1024, i32 4) []\npeeked (80808080)\nreturned 0 (i32 5) []\npeeked (05808080)\ndone\n",
    },
    // a host without a reply ends the run
    Row {
        module: b"\x00asm\x01\x00\x00\x00\x01\x0C\x02`\x02\x7F\x7F\x00`\x02\x7F\x7F\x01\x7F\x02\x09\x01\x03env\x01h\x00\x00\x03\x02\x01\x01\x04\x04\x01p\x00\x02\x05\x03\x01\x00\x02\x06\x08\x01\x7F\x01A\x80\x88\x04\x0B\x07\x10\x02\x06memory\x02\x00\x03run\x00\x01\x09\x07\x01\x00A\x01\x0B\x01\x01\x0A2\x010\x01\x01\x7F\x02@\x03@ \x02 \x01O\x0D\x01 \x00 \x02jA\x80\x01:\x00\x00 \x02A\x01j!\x02\x0C\x00\x0B\x0B \x00 \x01\x10\x00 \x00,\x00\x00\x0B",
        script: r#"{"version":1,"globals":[],"replies":[[]],"grows":[],"items":[{"call":["run",[["i32",1024],["i32",4]]]},{"peek":["memory",1024,4]}]}"#,
        turns: 1000,
        printed: "started\nhost 0 (i32 1024, i32 4) []\nno reply 0\n",
    },
    // a loop spends a turn for each pass
    Row {
        module: b"\x00asm\x01\x00\x00\x00\x01\x0C\x02`\x02\x7F\x7F\x00`\x02\x7F\x7F\x01\x7F\x02\x09\x01\x03env\x01h\x00\x00\x03\x02\x01\x01\x04\x04\x01p\x00\x02\x05\x03\x01\x00\x02\x06\x08\x01\x7F\x01A\x80\x88\x04\x0B\x07\x10\x02\x06memory\x02\x00\x03run\x00\x01\x09\x07\x01\x00A\x01\x0B\x01\x01\x0A2\x010\x01\x01\x7F\x02@\x03@ \x02 \x01O\x0D\x01 \x00 \x02jA\x80\x01:\x00\x00 \x02A\x01j!\x02\x0C\x00\x0B\x0B \x00 \x01\x10\x00 \x00,\x00\x00\x0B",
        script: r#"{"version":1,"globals":[],"replies":[[{"acts":[{"peek":["memory",1024,4]},{"poke":["memory",1024,"05"]}],"values":[]}]],"grows":[],"items":[{"call":["run",[["i32",0],["i32",3]]]}]}"#,
        turns: 5,
        printed: "started\nhost 0 (i32 0, i32 3) []\npeeked (00000000)\nreturned 0 (i32 4294967168) []\ndone\n",
    },
    // a turn too few in a loop
    Row {
        module: b"\x00asm\x01\x00\x00\x00\x01\x0C\x02`\x02\x7F\x7F\x00`\x02\x7F\x7F\x01\x7F\x02\x09\x01\x03env\x01h\x00\x00\x03\x02\x01\x01\x04\x04\x01p\x00\x02\x05\x03\x01\x00\x02\x06\x08\x01\x7F\x01A\x80\x88\x04\x0B\x07\x10\x02\x06memory\x02\x00\x03run\x00\x01\x09\x07\x01\x00A\x01\x0B\x01\x01\x0A2\x010\x01\x01\x7F\x02@\x03@ \x02 \x01O\x0D\x01 \x00 \x02jA\x80\x01:\x00\x00 \x02A\x01j!\x02\x0C\x00\x0B\x0B \x00 \x01\x10\x00 \x00,\x00\x00\x0B",
        script: r#"{"version":1,"globals":[],"replies":[[{"acts":[{"peek":["memory",1024,4]},{"poke":["memory",1024,"05"]}],"values":[]}]],"grows":[],"items":[{"call":["run",[["i32",0],["i32",3]]]}]}"#,
        turns: 4,
        printed: "started\n",
    },
    // quotients and remainders that trap, and some that do not
    Row {
        module: b"\x00asm\x01\x00\x00\x00\x01\x15\x04`\x02\x7F\x7F\x01\x7F`\x02~~\x01~`\x00\x00`\x01~\x01~\x03\x05\x04\x00\x01\x02\x03\x07\x11\x04\x01d\x00\x00\x01r\x00\x01\x01u\x00\x02\x01x\x00\x03\x0A\x1E\x04\x07\x00 \x00 \x01m\x0B\x07\x00 \x00 \x01\x81\x0B\x03\x00\x00\x0B\x08\x00 \x00B\xC1\x00\x89\x0B",
        script: r#"{"version":1,"globals":[],"replies":[],"grows":[],"items":[{"call":["d",[["i32",7],["i32",0]]]},{"call":["d",[["i32",2147483648],["i32",4294967295]]]},{"call":["d",[["i32",4294967289],["i32",2]]]},{"call":["r",[["i64",9223372036854775808],["i64",18446744073709551615]]]},{"call":["r",[["i64",1],["i64",0]]]},{"call":["u",[]]},{"call":["x",[["i64",9223372036854775809]]]}]}"#,
        turns: 1000,
        printed: "started\ntrapped 0 []\ntrapped 1 []\nreturned 2 (i32 4294967293) []\nreturned 3 (i64 0) []\ntrapped 4 []\ntrapped 5 []\nreturned 6 (i64 3) []\ndone\n",
    },
    // calls by a table: its function, one of another type, none, and behind the end
    Row {
        module: b"\x00asm\x01\x00\x00\x00\x01\x0E\x03`\x00\x01\x7F`\x01\x7F\x00`\x01\x7F\x01\x7F\x03\x04\x03\x00\x01\x02\x04\x04\x01p\x00\x03\x07\x05\x01\x01c\x00\x02\x09\x08\x01\x00A\x00\x0B\x02\x00\x01\x0A\x11\x03\x04\x00A\x0A\x0B\x02\x00\x0B\x07\x00 \x00\x11\x00\x00\x0B",
        script: r#"{"version":1,"globals":[],"replies":[],"grows":[],"items":[{"call":["c",[["i32",0]]]},{"call":["c",[["i32",1]]]},{"call":["c",[["i32",2]]]},{"call":["c",[["i32",3]]]},{"call":["c",[["i32",4294967295]]]}]}"#,
        turns: 1000,
        printed: "started\nreturned 0 (i32 10) []\ntrapped 1 []\ntrapped 2 []\ntrapped 3 []\ntrapped 4 []\ndone\n",
    },
    // growths that are granted, refused, and past the greatest size
    Row {
        module: b"\x00asm\x01\x00\x00\x00\x01\x0A\x02`\x01\x7F\x01\x7F`\x00\x01\x7F\x03\x04\x03\x00\x01\x01\x05\x04\x01\x01\x01\x03\x07\x0D\x03\x01g\x00\x00\x01n\x00\x01\x01l\x00\x02\x0A\x17\x03\x06\x00 \x00@\x00\x0B\x04\x00?\x00\x0B\x09\x00A\xFC\xFF\x07(\x02\x00\x0B",
        script: r#"{"version":1,"globals":[],"replies":[],"grows":[true,false],"items":[{"call":["l",[]]},{"call":["g",[["i32",1]]]},{"call":["l",[]]},{"call":["g",[["i32",1]]]},{"call":["n",[]]},{"call":["g",[["i32",1]]]},{"call":["g",[["i32",1]]]},{"call":["g",[["i32",0]]]},{"call":["n",[]]}]}"#,
        turns: 1000,
        printed: "started\ntrapped 0 []\nreturned 1 (i32 1) []\nreturned 2 (i32 0) []\nreturned 3 (i32 4294967295) []\nreturned 4 (i32 2) []\nreturned 5 (i32 2) []\nreturned 6 (i32 4294967295) []\nreturned 7 (i32 3) []\nreturned 8 (i32 3) []\ndone\n",
    },
    // a start function that traps
    Row {
        module: b"\x00asm\x01\x00\x00\x00\x01\x04\x01`\x00\x00\x03\x02\x01\x00\x08\x01\x00\x0A\x05\x01\x03\x00\x00\x0B",
        script: r#"{"version":1,"globals":[],"replies":[],"grows":[],"items":[]}"#,
        turns: 1000,
        printed: "failed\n",
    },
    // a start function that calls the host and traps
    Row {
        module: b"\x00asm\x01\x00\x00\x00\x01\x04\x01`\x00\x00\x02\x07\x01\x01e\x01h\x00\x00\x03\x02\x01\x00\x08\x01\x01\x0A\x07\x01\x05\x00\x10\x00\x00\x0B",
        script: r#"{"version":1,"globals":[],"replies":[[{"acts":[],"values":[]}]],"grows":[],"items":[]}"#,
        turns: 1000,
        printed: "host 0 () []\nfailed\n",
    },
    // a segment that does not fit
    Row {
        module: b"\x00asm\x01\x00\x00\x00\x05\x03\x01\x00\x01\x07\x05\x01\x01m\x02\x00\x0B\x0F\x02\x00A\x00\x0B\x01a\x00A\x80\x80\x04\x0B\x01b",
        script: r#"{"version":1,"globals":[],"replies":[],"grows":[],"items":[{"peek":["m",0,1]}]}"#,
        turns: 1000,
        printed: "failed\n",
    },
    // exported globals are shown, and are set by the host
    Row {
        module: b"\x00asm\x01\x00\x00\x00\x01\x06\x01`\x01\x7F\x01\x7F\x02\x08\x01\x01e\x01g\x03~\x00\x03\x02\x01\x00\x06\x0B\x02\x7F\x01A\x05\x0B~\x00#\x00\x0B\x07\x0D\x03\x01a\x03\x01\x01b\x03\x02\x01s\x00\x00\x0A\x0A\x01\x08\x00#\x01 \x00$\x01\x0B",
        script: r#"{"version":1,"globals":[["i64",8]],"replies":[],"grows":[],"items":[{"call":["s",[["i32",6]]]},{"set":["a",["i32",9]]},{"call":["s",[["i32",7]]]}]}"#,
        turns: 1000,
        printed: "started\nreturned 0 (i32 5) [i32 6, i64 8]\nreturned 2 (i32 9) [i32 7, i64 8]\ndone\n",
    },
    // branches, arms, values kept by a branch, calls in one another, and select
    Row {
        module: b"\x00asm\x01\x00\x00\x00\x01\x06\x01`\x01\x7F\x01\x7F\x03\x06\x05\x00\x00\x00\x00\x00\x07\x19\x05\x01t\x00\x00\x01i\x00\x01\x01v\x00\x02\x03fib\x00\x03\x03sel\x00\x04\x0Ab\x05\x1A\x00\x02@\x02@\x02@ \x00\x0E\x02\x00\x01\x02\x0BA\x14\x0F\x0BA\x15\x0F\x0BA\x16\x0B\x0C\x00 \x00\x04\x7FA\x01\x05A\x02\x0B\x0B\x11\x00A\x08\x02\x7FA\x03A\x04 \x00\x0D\x00\x1A\x0Bj\x0B\x1C\x00 \x00A\x02I\x04\x7F \x00\x05 \x00A\x01k\x10\x03 \x00A\x02k\x10\x03j\x0B\x0B\x09\x00A\x1EA\x1F \x00\x1B\x0B",
        script: r#"{"version":1,"globals":[],"replies":[],"grows":[],"items":[{"call":["t",[["i32",0]]]},{"call":["t",[["i32",1]]]},{"call":["t",[["i32",2]]]},{"call":["t",[["i32",99]]]},{"call":["i",[["i32",7]]]},{"call":["i",[["i32",0]]]},{"call":["v",[["i32",0]]]},{"call":["v",[["i32",1]]]},{"call":["fib",[["i32",10]]]},{"call":["sel",[["i32",1]]]},{"call":["sel",[["i32",0]]]}]}"#,
        turns: 10000,
        printed: "started\nreturned 0 (i32 20) []\nreturned 1 (i32 21) []\nreturned 2 (i32 22) []\nreturned 3 (i32 22) []\nreturned 4 (i32 1) []\nreturned 5 (i32 2) []\nreturned 6 (i32 11) []\nreturned 7 (i32 12) []\nreturned 8 (i32 55) []\nreturned 9 (i32 30) []\nreturned 10 (i32 31) []\ndone\n",
    },
    // a loop without an end
    Row {
        module: b"\x00asm\x01\x00\x00\x00\x01\x04\x01`\x00\x00\x03\x02\x01\x00\x07\x05\x01\x01f\x00\x00\x0A\x09\x01\x07\x00\x03@\x0C\x00\x0B\x0B",
        script: r#"{"version":1,"globals":[],"replies":[],"grows":[],"items":[{"call":["f",[]]}]}"#,
        turns: 5,
        printed: "started\n",
    },
];
