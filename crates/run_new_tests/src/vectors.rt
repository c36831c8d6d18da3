// Vectors.
use crate::row::Row;

pub static VECTORS: [Row; 4] = [
    // (module
    //   (func (export "p") (result v128)
    //     v128.const i64x2 4294967296 3 v128.const i64x2 4294967296 5 i64x2.mul)
    //   (func (export "q") (result v128)
    //     v128.const i64x2 506097522914230528 1084818905618843912
    //     v128.const i64x2 1157442765409226768 -1 i8x16.swizzle))
    Row {
        shows: "lanes are multiplied and picked",
        module: b"\x00asm\x01\x00\x00\x00\x01\x05\x01`\x00\x01{\x03\x03\x02\x00\x00\x07\x09\x02\x01p\x00\x00\x01q\x00\x01\x0AT\x02)\x00\xFD\x0C\x00\x00\x00\x00\x01\x00\x00\x00\x03\x00\x00\x00\x00\x00\x00\x00\xFD\x0C\x00\x00\x00\x00\x01\x00\x00\x00\x05\x00\x00\x00\x00\x00\x00\x00\xFD\xD5\x01\x0B(\x00\xFD\x0C\x00\x01\x02\x03\x04\x05\x06\x07\x08\x09\x0A\x0B\x0C\x0D\x0E\x0F\xFD\x0C\x10\x10\x10\x10\x10\x10\x10\x10\xFF\xFF\xFF\xFF\xFF\xFF\xFF\xFF\xFD\x0E\x0B",
        script: r#"{"version":1,"globals":[],"replies":[],"grows":[],"items":[{"call":["p",[]]},{"call":["q",[]]}]}"#,
        turns: 1000,
        printed: "started\nreturned 0 (v128 0 15) []\nreturned 1 (v128 0 0) []\ndone\n",
    },
    // (module
    //   (memory (export "m") 1)
    //   (func (export "q") (result v128) (local v128)
    //     i32.const 32768 i16x8.splat local.tee 0 local.get 0 i16x8.q15mulr_sat_s)
    //   (func (export "d") (result v128) (local v128)
    //     i32.const 32768 i16x8.splat local.tee 0 local.get 0 i32x4.dot_i16x8_s)
    //   (func (export "s") (param i32) local.get 0 v128.const i64x2 -1 -1 v128.store64_lane 0))
    Row {
        shows: "products are rounded and saturate, and a lane is stored whole or not at all",
        module: b"\x00asm\x01\x00\x00\x00\x01\x09\x02`\x00\x01{`\x01\x7F\x00\x03\x04\x03\x00\x00\x01\x05\x03\x01\x00\x01\x07\x11\x04\x01m\x02\x00\x01q\x00\x00\x01d\x00\x01\x01s\x00\x02\x0AA\x03\x11\x01\x01{A\x80\x80\x02\xFD\x10\"\x00 \x00\xFD\x82\x01\x0B\x11\x01\x01{A\x80\x80\x02\xFD\x10\"\x00 \x00\xFD\xBA\x01\x0B\x1B\x00 \x00\xFD\x0C\xFF\xFF\xFF\xFF\xFF\xFF\xFF\xFF\xFF\xFF\xFF\xFF\xFF\xFF\xFF\xFF\xFD[\x03\x00\x00\x0B",
        script: r#"{"version":1,"globals":[],"replies":[],"grows":[],"items":[{"call":["q",[]]},{"call":["d",[]]},{"call":["s",[["i32",65529]]]},{"peek":["m",65528,8]},{"call":["s",[["i32",65528]]]},{"peek":["m",65527,9]}]}"#,
        turns: 1000,
        printed: "started\nreturned 0 (v128 9223231297218904063 9223231297218904063) []\nreturned 1 (v128 9223372039002259456 9223372039002259456) []\ntrapped 2 []\npeeked (0000000000000000)\nreturned 4 () []\npeeked (00ffffffffffffffff)\ndone\n",
    },
    // (module
    //   (func (export "a") (param i32 i32) (result v128)
    //     local.get 0 i8x16.splat local.get 1 i8x16.splat i8x16.add_sat_s)
    //   (func (export "b") (param i32 i32) (result v128)
    //     local.get 0 i8x16.splat local.get 1 i8x16.splat i8x16.sub_sat_u)
    //   (func (export "c") (param i32 i32) (result v128)
    //     local.get 0 i8x16.splat local.get 1 i8x16.splat i8x16.avgr_u)
    //   (func (export "d") (param i32) (result v128) local.get 0 i8x16.splat i8x16.abs)
    //   (func (export "e") (param i32) (result v128) local.get 0 i8x16.splat i8x16.popcnt)
    //   (func (export "f") (param i32) (result v128) (local v128)
    //     local.get 0 i16x8.splat local.tee 1 local.get 1 i8x16.narrow_i16x8_u)
    //   (func (export "g") (param i32) (result v128) (local v128)
    //     local.get 0 i16x8.splat local.tee 1 local.get 1 i8x16.narrow_i16x8_s))
    Row {
        shows: "lanes saturate and are narrowed",
        module: b"\x00asm\x01\x00\x00\x00\x01\x0C\x02`\x02\x7F\x7F\x01{`\x01\x7F\x01{\x03\x08\x07\x00\x00\x00\x01\x01\x01\x01\x07\x1D\x07\x01a\x00\x00\x01b\x00\x01\x01c\x00\x02\x01d\x00\x03\x01e\x00\x04\x01f\x00\x05\x01g\x00\x06\x0AX\x07\x0C\x00 \x00\xFD\x0F \x01\xFD\x0F\xFDo\x0B\x0C\x00 \x00\xFD\x0F \x01\xFD\x0F\xFDs\x0B\x0C\x00 \x00\xFD\x0F \x01\xFD\x0F\xFD{\x0B\x08\x00 \x00\xFD\x0F\xFD`\x0B\x08\x00 \x00\xFD\x0F\xFDb\x0B\x0E\x01\x01{ \x00\xFD\x10\"\x01 \x01\xFDf\x0B\x0E\x01\x01{ \x00\xFD\x10\"\x01 \x01\xFDe\x0B",
        script: r#"{"version":1,"globals":[],"replies":[],"grows":[],"items":[{"call":["a",[["i32",127],["i32",1]]]},{"call":["b",[["i32",0],["i32",1]]]},{"call":["c",[["i32",255],["i32",254]]]},{"call":["d",[["i32",128]]]},{"call":["e",[["i32",255]]]},{"call":["f",[["i32",65535]]]},{"call":["g",[["i32",300]]]}]}"#,
        turns: 1000,
        printed: "started\nreturned 0 (v128 9187201950435737471 9187201950435737471) []\nreturned 1 (v128 0 0) []\nreturned 2 (v128 18446744073709551615 18446744073709551615) []\nreturned 3 (v128 9259542123273814144 9259542123273814144) []\nreturned 4 (v128 578721382704613384 578721382704613384) []\nreturned 5 (v128 0 0) []\nreturned 6 (v128 9187201950435737471 9187201950435737471) []\ndone\n",
    },
    // (module
    //   (memory 1)
    //   (data (i32.const 16) "\80\01\02\03\04\05\06\ff")
    //   (global (export "v") (mut v128) (v128.const i64x2 5 6))
    //   (func (export "wide") (result v128) i32.const 16 v128.load8x8_s)
    //   (func (export "splat") (result v128) i32.const 16 v128.load16_splat)
    //   (func (export "zero") (result v128) i32.const 16 v128.load32_zero)
    //   (func (export "lane") (result v128) i32.const 23 v128.const i64x2 0 0 v128.load8_lane 9)
    //   (func (export "load") (param i32) (result v128) local.get 0 v128.load)
    //   (func (export "shuffle") (param v128 v128) (result v128)
    //     local.get 0 local.get 1 i8x16.shuffle 0 16 1 17 2 18 3 19 31 30 29 28 15 14 13 12)
    //   (func (export "get") (param v128) (result i32 i32 i64)
    //     local.get 0 i8x16.extract_lane_s 7 local.get 0 i8x16.extract_lane_u 7
    //     local.get 0 i64x2.extract_lane 1)
    //   (func (export "put") (param i32) (result v128)
    //     v128.const i64x2 0 0 local.get 0 i32x4.replace_lane 2)
    //   (func (export "bits") (param v128 v128 v128) (result v128)
    //     local.get 0 local.get 1 local.get 2 v128.bitselect)
    //   (func (export "test") (param v128) (result i32 i32 i32)
    //     local.get 0 v128.any_true local.get 0 i64x2.all_true local.get 0 i8x16.bitmask)
    //   (func (export "shift") (param v128 i32) (result v128) local.get 0 local.get 1 i16x8.shr_s)
    //   (func (export "set") (param v128) local.get 0 global.set 0))
    Row {
        shows: "vectors are loaded, shuffled, taken apart and tested",
        module: b"\x00asm\x01\x00\x00\x00\x01/\x08`\x00\x01{`\x01\x7F\x01{`\x02{{\x01{`\x01{\x03\x7F\x7F~`\x03{{{\x01{`\x01{\x03\x7F\x7F\x7F`\x02{\x7F\x01{`\x01{\x00\x03\x0D\x0C\x00\x00\x00\x00\x01\x02\x03\x01\x04\x05\x06\x07\x05\x03\x01\x00\x01\x06\x16\x01{\x01\xFD\x0C\x05\x00\x00\x00\x00\x00\x00\x00\x06\x00\x00\x00\x00\x00\x00\x00\x0B\x07[\x0D\x01v\x03\x00\x04wide\x00\x00\x05splat\x00\x01\x04zero\x00\x02\x04lane\x00\x03\x04load\x00\x04\x07shuffle\x00\x05\x03get\x00\x06\x03put\x00\x07\x04bits\x00\x08\x04test\x00\x09\x05shift\x00\x0A\x03set\x00\x0B\x0A\xB2\x01\x0C\x08\x00A\x10\xFD\x01\x03\x00\x0B\x08\x00A\x10\xFD\x08\x01\x00\x0B\x08\x00A\x10\xFD\\\x02\x00\x0B\x1B\x00A\x17\xFD\x0C\x00\x00\x00\x00\x00\x00\x00\x00\x00\x00\x00\x00\x00\x00\x00\x00\xFDT\x00\x00\x09\x0B\x08\x00 \x00\xFD\x00\x04\x00\x0B\x18\x00 \x00 \x01\xFD\x0D\x00\x10\x01\x11\x02\x12\x03\x13\x1F\x1E\x1D\x1C\x0F\x0E\x0D\x0C\x0B\x11\x00 \x00\xFD\x15\x07 \x00\xFD\x16\x07 \x00\xFD\x1D\x01\x0B\x19\x00\xFD\x0C\x00\x00\x00\x00\x00\x00\x00\x00\x00\x00\x00\x00\x00\x00\x00\x00 \x00\xFD\x1C\x02\x0B\x0A\x00 \x00 \x01 \x02\xFDR\x0B\x0F\x00 \x00\xFDS \x00\xFD\xC3\x01 \x00\xFDd\x0B\x09\x00 \x00 \x01\xFD\x8C\x01\x0B\x06\x00 \x00$\x00\x0B\x0B\x0E\x01\x00A\x10\x0B\x08\x80\x01\x02\x03\x04\x05\x06\xFF",
        script: r#"{"version":1,"globals":[],"replies":[],"grows":[],"items":[{"call":["wide",[]]},{"call":["splat",[]]},{"call":["zero",[]]},{"call":["lane",[]]},{"call":["load",[["i32",65520]]]},{"call":["load",[["i32",65521]]]},{"call":["shuffle",[["v128",506097522914230528,1084818905618843912],["v128",1663540288323457296,2242261671028070680]]]},{"call":["get",[["v128",9223372036854775808,7]]]},{"call":["put",[["i32",4294967295]]]},{"call":["bits",[["v128",65280,1],["v128",4660,2],["v128",61680,3]]]},{"call":["test",[["v128",0,0]]]},{"call":["test",[["v128",1,32768]]]},{"call":["shift",[["v128",2147516416,32767],["i32",17]]]},{"call":["set",[["v128",8,9]]]},{"set":["v",["v128",1,2]]},{"call":["put",[["i32",1]]]}]}"#,
        turns: 1000,
        printed: "started\nreturned 0 (v128 844433520197504 18446462624502972420) [v128 5 6]\nreturned 1 (v128 108088040349499776 108088040349499776) [v128 5 6]\nreturned 2 (v128 50463104 0) [v128 5 6]\nreturned 3 (v128 0 65280) [v128 5 6]\nreturned 4 (v128 0 0) [v128 5 6]\ntrapped 5 [v128 5 6]\nreturned 6 (v128 1369958511735279616 868365761211342367) [v128 5 6]\nreturned 7 (i32 4294967168, i32 128, i64 7) [v128 5 6]\nreturned 8 (v128 0 4294967295) [v128 5 6]\nreturned 9 (v128 61956 1) [v128 5 6]\nreturned 10 (i32 0, i32 0, i32 0) [v128 5 6]\nreturned 11 (i32 1, i32 1, i32 512) [v128 5 6]\nreturned 12 (v128 3221274624 16383) [v128 5 6]\nreturned 13 () [v128 8 9]\nreturned 15 (v128 0 1) [v128 1 2]\ndone\n",
    },
];
