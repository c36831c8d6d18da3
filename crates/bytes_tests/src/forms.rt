// `grammar_kit`: vectors of entries, and too few bytes.

ghost use Rattle.grammar_kit.specs.Form.{byte, always, ◌>>=◌};

use grammar_kit::{Entry, FormError, read_byte, read_many, read_raw};
use std::alloc::Global;
use std::test::Fail;

#[derive(Clone, Copy)]
struct Pair {
    low: u8,
    high: u8,
}

impl Entry for Pair {
    type Value = Pair;

    ghost form = { byte >>= λ a. byte >>= λ b. always (record { low = a; high = b }) };

    fn entry(_alloc: Global, bytes: &[u8]) -> Result<(Pair, &[u8]), FormError> {
        let (low, rest) = read_byte(bytes).ok_or(FormError::Malformed)?;
        let (high, rest) = read_byte(rest).ok_or(FormError::Malformed)?;
        Ok((Pair { low, high }, rest))
    }
}

/// The high byte of the second pair, and how many bytes are left behind the pairs.
fn second_of(alloc: Global, count: u32, bytes: &[u8]) -> Result<(u8, usize), Fail> {
    let (pairs, rest) = read_many::<Pair>(alloc, count, bytes)?;
    let second = pairs.get(1).ok_or("no second pair")?;
    Ok((second.high, rest.len()))
}

#[test]
fn entries_in_order_and_too_few(rt: HostRuntime) -> Result<(), Fail> {
    assert!(rt; second_of(rt.alloc(), 2, &[1, 2, 3, 4, 5])? == (4, 1));
    assert!(rt; read_many::<Pair>(rt.alloc(), u32::MAX, &[1, 2, 3]).is_err());
    assert!(rt; read_raw(2, &[1]).is_none() && read_raw(1, &[1]).is_some());
    Ok(())
}
