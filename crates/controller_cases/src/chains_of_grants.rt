//! Which chain a draw names, and what becomes of grants whose chain is broken.
use crate::samples::{
    check_chain, check_chainless, check_given, check_refused, fitted, sheet, terms, untold,
};
use crate::visits::{End, visit};
use faults::Refusal;
use grants::Mode;
use std::test::Fail;

#[test]
fn eight_in_a_row_and_the_ninth_person_grants_no_more(rt: HostRuntime) -> Result<(), Fail> {
    let mut cabinet = fitted(sheet(), 0);
    for person in 1..9u8 {
        check_given(
            &rt,
            &mut cabinet,
            person,
            person + 1,
            Mode::Expiring,
            person as u32,
        );
    }
    check_chain(&rt, &mut cabinet, 9, 0, 8, &[1, 2, 3, 4, 5, 6, 7, 8])?;
    check_refused(
        &rt,
        cabinet.issue(9, 0, 10, &terms(0, 0, Mode::Resting)),
        Refusal::NoChain,
        0,
    )?;
    check_given(&rt, &mut cabinet, 8, 10, Mode::Expiring, 9);
    check_chain(&rt, &mut cabinet, 10, 0, 8, &[1, 2, 3, 4, 5, 6, 7, 9])?;
    // the whole row falls with its first grant
    assert_eq!(rt; cabinet.withdraw(1, 1), Ok(8));
    Ok(())
}

#[test]
fn the_chain_with_the_fewest_grants_is_named(rt: HostRuntime) -> Result<(), Fail> {
    let mut cabinet = fitted(sheet(), 0);
    check_given(&rt, &mut cabinet, 1, 2, Mode::Expiring, 1);
    check_given(&rt, &mut cabinet, 2, 3, Mode::Expiring, 2);
    check_given(&rt, &mut cabinet, 3, 4, Mode::Expiring, 3);
    check_chain(&rt, &mut cabinet, 4, 0, 3, &[1, 2, 3, 0, 0, 0, 0, 0])?;
    check_given(&rt, &mut cabinet, 2, 4, Mode::Expiring, 4);
    check_chain(&rt, &mut cabinet, 4, 0, 2, &[1, 4, 0, 0, 0, 0, 0, 0])?;
    check_given(&rt, &mut cabinet, 1, 4, Mode::Expiring, 5);
    check_chain(&rt, &mut cabinet, 4, 0, 1, &[5, 0, 0, 0, 0, 0, 0, 0])?;
    check_chain(&rt, &mut cabinet, 1, 0, 0, &[0; 8])
}

#[test]
fn of_one_length_the_lower_number_from_the_owners_end(rt: HostRuntime) -> Result<(), Fail> {
    let mut cabinet = fitted(sheet(), 0);
    check_given(&rt, &mut cabinet, 1, 2, Mode::Expiring, 1);
    check_given(&rt, &mut cabinet, 1, 3, Mode::Expiring, 2);
    check_given(&rt, &mut cabinet, 3, 4, Mode::Expiring, 3);
    check_given(&rt, &mut cabinet, 2, 4, Mode::Expiring, 4);
    check_given(&rt, &mut cabinet, 2, 4, Mode::Expiring, 5);
    check_chain(&rt, &mut cabinet, 4, 0, 2, &[1, 4, 0, 0, 0, 0, 0, 0])?;
    assert_eq!(rt; cabinet.withdraw(2, 4), Ok(0));
    check_chain(&rt, &mut cabinet, 4, 0, 2, &[1, 5, 0, 0, 0, 0, 0, 0])?;
    assert_eq!(rt; cabinet.withdraw(2, 5), Ok(0));
    check_chain(&rt, &mut cabinet, 4, 0, 2, &[2, 3, 0, 0, 0, 0, 0, 0])
}

#[test]
fn an_amendment_has_a_new_number_and_the_old_hook_and_grantee(rt: HostRuntime) -> Result<(), Fail> {
    let mut cabinet = fitted(sheet(), 0);
    let free = terms(0, 0, Mode::Expiring);
    assert_eq!(rt; cabinet.issue(1, 5, 2, &free), Ok(1));
    assert_eq!(rt; cabinet.issue(1, 5, 3, &free), Ok(2));
    assert_eq!(rt; cabinet.amend(1, 1, &free), Ok(3));
    check_refused(&rt, cabinet.stands(1), Refusal::NoSuchGrant, 1)?;
    assert_eq!(rt; cabinet.stands(3), Ok(true));
    check_chain(&rt, &mut cabinet, 2, 5, 1, &[3, 0, 0, 0, 0, 0, 0, 0])?;
    check_chain(&rt, &mut cabinet, 3, 5, 1, &[2, 0, 0, 0, 0, 0, 0, 0])?;
    check_chainless(&rt, &mut cabinet, 2)?;
    check_refused(&rt, cabinet.amend(1, 1, &free), Refusal::NoSuchGrant, 1)?;
    assert_eq!(rt; cabinet.amend(1, 3, &terms(1, 0, Mode::Expiring)), Ok(4));
    let mut list = [0; 8];
    check_refused(
        &rt,
        visit(End::Left, &mut cabinet, 2, 5, &untold(), &mut list),
        Refusal::NoChain,
        0,
    )?;
    // it stands all the same: its execute condition is asked of draws
    assert_eq!(rt; cabinet.stands(4), Ok(true));
    Ok(())
}

#[test]
fn an_amendment_ends_what_it_no_longer_justifies(rt: HostRuntime) -> Result<(), Fail> {
    let mut cabinet = fitted(sheet(), 0);
    check_given(&rt, &mut cabinet, 1, 2, Mode::Expiring, 1);
    check_given(&rt, &mut cabinet, 2, 3, Mode::Expiring, 2);
    check_given(&rt, &mut cabinet, 2, 4, Mode::Resting, 3);
    assert_eq!(rt; cabinet.amend(1, 1, &terms(0, 1, Mode::Expiring)), Ok(4));
    check_refused(&rt, cabinet.stands(2), Refusal::NoSuchGrant, 2)?;
    assert_eq!(rt; cabinet.stands(3), Ok(false));
    check_chainless(&rt, &mut cabinet, 3)?;
    check_chainless(&rt, &mut cabinet, 4)?;
    check_chain(&rt, &mut cabinet, 2, 0, 1, &[4, 0, 0, 0, 0, 0, 0, 0])?;
    assert_eq!(rt; cabinet.amend(1, 4, &terms(0, 0, Mode::Expiring)), Ok(5));
    assert_eq!(rt; cabinet.stands(3), Ok(true));
    check_chain(&rt, &mut cabinet, 4, 0, 2, &[5, 3, 0, 0, 0, 0, 0, 0])?;
    check_chainless(&rt, &mut cabinet, 3)
}

#[test]
fn a_withdrawal_counts_everything_behind_the_grant(rt: HostRuntime) -> Result<(), Fail> {
    let mut cabinet = fitted(sheet(), 0);
    check_given(&rt, &mut cabinet, 1, 2, Mode::Expiring, 1);
    check_given(&rt, &mut cabinet, 2, 3, Mode::Expiring, 2);
    check_given(&rt, &mut cabinet, 3, 4, Mode::Resting, 3);
    check_given(&rt, &mut cabinet, 2, 5, Mode::Expiring, 4);
    check_given(&rt, &mut cabinet, 1, 6, Mode::Expiring, 5);
    assert_eq!(rt; cabinet.withdraw(1, 5), Ok(0));
    assert_eq!(rt; cabinet.withdraw(1, 1), Ok(3));
    check_refused(&rt, cabinet.stands(2), Refusal::NoSuchGrant, 2)?;
    assert_eq!(rt; cabinet.stands(3), Ok(false));
    // a grant that rests is withdrawn like any other
    assert_eq!(rt; cabinet.withdraw(3, 3), Ok(0));
    check_refused(&rt, cabinet.stands(3), Refusal::NoSuchGrant, 3)
}

#[test]
fn nothing_falls_that_has_a_second_chain(rt: HostRuntime) -> Result<(), Fail> {
    let mut cabinet = fitted(sheet(), 0);
    check_given(&rt, &mut cabinet, 1, 2, Mode::Expiring, 1);
    check_given(&rt, &mut cabinet, 1, 2, Mode::Expiring, 2);
    check_given(&rt, &mut cabinet, 2, 3, Mode::Expiring, 3);
    check_chain(&rt, &mut cabinet, 3, 0, 2, &[1, 3, 0, 0, 0, 0, 0, 0])?;
    assert_eq!(rt; cabinet.withdraw(1, 1), Ok(0));
    check_chain(&rt, &mut cabinet, 3, 0, 2, &[2, 3, 0, 0, 0, 0, 0, 0])?;
    assert_eq!(rt; cabinet.withdraw(1, 2), Ok(1));
    check_chainless(&rt, &mut cabinet, 3)
}

#[test]
fn expiring_grants_leave_and_resting_ones_return(rt: HostRuntime) -> Result<(), Fail> {
    let mut cabinet = fitted(sheet(), 0);
    check_given(&rt, &mut cabinet, 1, 2, Mode::Expiring, 1);
    check_given(&rt, &mut cabinet, 2, 3, Mode::Resting, 2);
    check_given(&rt, &mut cabinet, 2, 4, Mode::Expiring, 3);
    assert_eq!(rt; cabinet.stands(2), Ok(true));
    assert_eq!(rt; cabinet.withdraw(1, 1), Ok(2));
    assert_eq!(rt; cabinet.stands(2), Ok(false));
    check_refused(&rt, cabinet.stands(3), Refusal::NoSuchGrant, 3)?;
    check_given(&rt, &mut cabinet, 1, 2, Mode::Expiring, 4);
    assert_eq!(rt; cabinet.stands(2), Ok(true));
    check_chain(&rt, &mut cabinet, 3, 0, 2, &[4, 2, 0, 0, 0, 0, 0, 0])?;
    check_chainless(&rt, &mut cabinet, 4)?;
    assert_eq!(rt; cabinet.withdraw(1, 4), Ok(1));
    Ok(())
}

#[test]
fn a_loop_falls_with_the_owners_grant(rt: HostRuntime) -> Result<(), Fail> {
    let mut cabinet = fitted(sheet(), 0);
    check_given(&rt, &mut cabinet, 1, 2, Mode::Expiring, 1);
    check_given(&rt, &mut cabinet, 2, 3, Mode::Resting, 2);
    check_given(&rt, &mut cabinet, 3, 2, Mode::Resting, 3);
    assert_eq!(rt; cabinet.stands(3), Ok(true));
    assert_eq!(rt; cabinet.withdraw(1, 1), Ok(2));
    assert_eq!(rt; cabinet.stands(2), Ok(false));
    assert_eq!(rt; cabinet.stands(3), Ok(false));
    check_chainless(&rt, &mut cabinet, 2)
}
