//! Values at the edges of their ranges.
use crate::samples::told;
use faults::{Fault, Refusal};
use states::state::State;
use std::array;

static GREATEST: [u16; 8] = [200, 200, 1439, 6, 65535, 1, 100, 1];

/// The state in which only variable `v` is known.
fn only(v: usize, value: u16) -> State {
    State {
        values: array::from_fn(|k| (k == v).then_some(value)),
    }
}

fn refused(v: usize) -> Result<(), Fault> {
    Err(Refusal::ValueOutOfRange.at(v))
}

#[test]
fn each_variable_at_its_least_and_greatest_value(rt: HostRuntime) {
    for (v, greatest) in GREATEST.iter().enumerate() {
        assert_eq!(rt; only(v, *greatest).check_ranges(), Ok(()));
        assert_eq!(rt; only(v, 1).check_ranges(), Ok(()));
        let zero = if v < 2 { refused(v) } else { Ok(()) };
        assert_eq!(rt; only(v, 0).check_ranges(), zero);
    }
}

#[test]
fn each_variable_past_its_greatest_value(rt: HostRuntime) {
    for (v, greatest) in GREATEST.iter().enumerate() {
        let past = greatest.saturating_add(1);
        let answer = if v == 4 { Ok(()) } else { refused(v) };
        assert_eq!(rt; only(v, past).check_ranges(), answer);
    }
}

#[test]
fn the_first_of_several_is_named(rt: HostRuntime) {
    let bad = told((None, Some(7), None, Some(2)));
    assert_eq!(rt; bad.state(1, Some(2)).check_ranges(), refused(3));
    assert_eq!(rt; bad.state(201, None).check_ranges(), refused(0));
    assert_eq!(rt; bad.state(200, Some(0)).check_ranges(), refused(1));
}

#[test]
fn a_kept_part_knows_the_caller_the_receiver_and_the_set(rt: HostRuntime) {
    let kept = told((Some(600), Some(2), None, Some(1)))
        .state(7, Some(9))
        .kept(0b0010_0100);
    let known = [Some(7), Some(9), Some(600), None, None, Some(1), None, None];
    for (v, value) in (0..8u8).zip(known) {
        assert_eq!(rt; kept.known(v), value);
    }
    assert_eq!(rt; kept.known(8), None);
}
