use crate::rows::comparisons::COMPARISONS;
use crate::rows::memory::{LANE_LOADS, LANE_STORES, LOADS, STORES};
use crate::rows::moved::{BITSELECTS, EXTRACTS, REPLACES, SHUFFLES, SPLATS};
use crate::rows::one_operand::{ONES, SHIFTS, TESTS};
use crate::rows::operands::{BYTES, PAIRS};
use crate::rows::two_operands::TWOS;
use lane_core::operations::{
    bitselect, extract, lane_bytes, lanes1, lanes2, load_bytes, loaded, loaded_lane, replace,
    shift, shuffle, splat, stored_lane, test, vector_bytes,
};
use lane_core::vector::V;

/// The first operand of a number.
fn left(number: usize) -> V {
    V(PAIRS.get(number).map_or(0, |pair| pair.0))
}

/// The second operand of a number.
fn right(number: usize) -> V {
    V(PAIRS.get(number).map_or(0, |pair| pair.1))
}

fn operators_are_right() -> bool {
    ONES.iter().all(|row| lanes1(row.0, left(row.1)).0 == row.2)
        && COMPARISONS
            .iter()
            .chain(TWOS.iter())
            .all(|row| lanes2(row.0, left(row.1), right(row.1)).0 == row.2)
        && SHIFTS
            .iter()
            .all(|row| shift(row.0, left(row.1), row.2).0 == row.3)
        && TESTS.iter().all(|row| test(row.0, V(row.1)) == row.2)
}

fn moves_are_right() -> bool {
    EXTRACTS
        .iter()
        .all(|row| extract(row.0, left(row.1), row.2) == row.3)
        && REPLACES
            .iter()
            .all(|row| replace(row.0, left(row.1), row.2, row.3).0 == row.4)
        && SPLATS.iter().all(|row| splat(row.0, row.1).0 == row.2)
        && BITSELECTS
            .iter()
            .all(|row| bitselect(V(row.0), V(row.1), V(row.2)).0 == row.3)
        && SHUFFLES.iter().enumerate().all(|(number, row)| shuffle(
            left(number),
            right(number),
            row.0,
        ).0 == row.1)
}

fn accesses_are_right() -> bool {
    LOADS.iter().all(|row| {
        let bytes = &BYTES[row.1 % 3];
        loaded(row.0, &bytes[..load_bytes(row.0)]).0 == row.2
    }) && LANE_LOADS.iter().all(|row| {
        let bytes = &BYTES[row.3 % 3];
        loaded_lane(row.0, left(row.1), row.2, &bytes[..lane_bytes(row.0)]).0 == row.4
    }) && LANE_STORES.iter().all(|row| {
        let bytes = stored_lane(row.0, left(row.1), row.2);
        &bytes[..lane_bytes(row.0)] == row.3
    }) && STORES.iter().all(|row| vector_bytes(V(row.0)) == row.1)
}

#[test]
fn each_instruction_gives_what_the_standard_says(rt: HostRuntime) {
    assert!(rt; operators_are_right());
    assert!(rt; moves_are_right());
    assert!(rt; accesses_are_right());
}
