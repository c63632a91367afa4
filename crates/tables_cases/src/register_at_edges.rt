//! A register that is empty, full, or loses its first, a middle or its last grant.
use grants::Grant;
use numbered::NotAdded;
use register::table::Register;
use std::process::Abort;

fn grant(number: u32) -> Grant {
    let mut grant = Grant::blank();
    grant.number = number;
    grant
}

/// A register with the grants 1 to `last`.
fn filled(last: u32) -> Register {
    let mut register = Register::new();
    for number in 0..last {
        let _ = register.insert(grant(number + 1));
    }
    register
}

fn holds(rt: &impl Abort, register: &Register, numbers: &[u32]) {
    assert_eq!(rt; register.rows().len(), numbers.len());
    for (grant, number) in register.rows().iter().zip(numbers) {
        assert_eq!(rt; grant.number, *number);
    }
}

fn removed(register: &mut Register, number: u32) -> Option<u32> {
    Some(register.remove(number)?.number)
}

#[test]
fn an_empty_register_has_nothing_to_find_or_remove(rt: HostRuntime) {
    let mut register = Register::new();
    holds(&rt, &register, &[]);
    assert_eq!(rt; register.find(0), None);
    assert_eq!(rt; removed(&mut register, 0), None);
    register.retain(u128::MAX);
    holds(&rt, &register, &[]);
}

#[test]
fn ninety_six_fit_and_no_more(rt: HostRuntime) {
    let mut register = filled(95);
    assert_eq!(rt; register.insert(grant(96)), Ok(()));
    assert_eq!(rt; register.rows().len(), 96);
    assert_eq!(rt; register.insert(grant(97)), Err(NotAdded::Full));
    assert_eq!(rt; register.insert(grant(50)), Err(NotAdded::Taken));
    assert_eq!(rt; register.find(1), Some(0));
    assert_eq!(rt; register.find(50), Some(49));
    assert_eq!(rt; register.find(96), Some(95));
    assert_eq!(rt; register.find(97), None);
    assert_eq!(rt; removed(&mut register, 96), Some(96));
    assert_eq!(rt; register.insert(grant(97)), Ok(()));
    assert_eq!(rt; register.find(97), Some(95));
}

#[test]
fn a_grant_goes_where_its_number_belongs(rt: HostRuntime) {
    let mut register = Register::new();
    assert_eq!(rt; register.insert(grant(20)), Ok(()));
    assert_eq!(rt; register.insert(grant(10)), Ok(()));
    assert_eq!(rt; register.insert(grant(30)), Ok(()));
    assert_eq!(rt; register.insert(grant(25)), Ok(()));
    holds(&rt, &register, &[10, 20, 25, 30]);
}

#[test]
fn the_first_a_middle_and_the_last_go(rt: HostRuntime) {
    let mut register = filled(5);
    assert_eq!(rt; removed(&mut register, 1), Some(1));
    holds(&rt, &register, &[2, 3, 4, 5]);
    assert_eq!(rt; removed(&mut register, 3), Some(3));
    holds(&rt, &register, &[2, 4, 5]);
    assert_eq!(rt; removed(&mut register, 5), Some(5));
    holds(&rt, &register, &[2, 4]);
    assert_eq!(rt; removed(&mut register, 3), None);
    holds(&rt, &register, &[2, 4]);
}

#[test]
fn places_in_the_set_stay(rt: HostRuntime) {
    let mut register = filled(6);
    register.retain(0b101_001);
    holds(&rt, &register, &[1, 4, 6]);
    register.retain(0);
    holds(&rt, &register, &[]);
}

#[test]
fn the_last_place_of_a_full_register_stays(rt: HostRuntime) {
    let mut register = filled(96);
    register.retain((1u128 << 95) | 1);
    holds(&rt, &register, &[1, 96]);
}
