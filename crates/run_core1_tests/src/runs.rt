use crate::instructions::INSTRUCTIONS;
use crate::rows::{ROWS, Row};
use core1_bytes::read1;
use host_kit::{fits1, print, read_script};
use num_core::lists::Text;
use run_core1::run_core1;
use std::alloc::Global;
use std::test::Fail;
use valid_core1::validate1;

/// What is printed of the events of a row's run.
fn printed(alloc: Global, row: &Row) -> Result<Text, Fail> {
    let module = read1(alloc, row.module)?;
    let typed = validate1(alloc, &module)?;
    let script = read_script(alloc, row.script.as_bytes())?;
    if !fits1(typed.module(), &script) {
        return Err("does not fit".into());
    }
    let seen = run_core1(alloc, &typed, &script, row.turns)?;
    Ok(print(alloc, seen.as_slice())?)
}

/// How many of the rows print something else than what they say.
fn wrong(alloc: Global, rows: &[Row]) -> Result<usize, Fail> {
    let mut wrong = 0usize;
    for row in rows {
        if printed(alloc, row)?.as_str() != row.printed {
            wrong = wrong.saturating_add(1);
        }
    }
    Ok(wrong)
}

#[test]
fn runs(rt: HostRuntime) -> Result<(), Fail> {
    assert_eq!(rt; wrong(rt.alloc(), &ROWS)?, 0);
    Ok(())
}

#[test]
fn instructions(rt: HostRuntime) -> Result<(), Fail> {
    assert_eq!(rt; wrong(rt.alloc(), &INSTRUCTIONS)?, 0);
    Ok(())
}
