//! Slips, spent and refused, and the list that a draw writes.
use crate::samples::{check_given, check_refused, fitted, sheet, told, untold};
use crate::visits::{End, visit, visit_away};
use faults::Refusal;
use grants::Mode;
use std::test::Fail;

#[test]
fn an_accepted_draw_writes_its_chain_and_zeros_behind(rt: HostRuntime) -> Result<(), Fail> {
    let mut cabinet = fitted(sheet(), 0);
    check_given(&rt, &mut cabinet, 1, 2, Mode::Expiring, 1);
    check_given(&rt, &mut cabinet, 2, 3, Mode::Expiring, 2);
    let mut list = [7; 8];
    assert_eq!(rt;
        visit(End::Left, &mut cabinet, 3, 0, &untold(), &mut list),
        Ok((0, 3, 2))
    );
    assert_eq!(rt; list, [1, 2, 0, 0, 0, 0, 0, 0]);
    assert_eq!(rt;
        visit(End::Left, &mut cabinet, 200, 31, &untold(), &mut list),
        Ok((31, 200, 0))
    );
    assert_eq!(rt; list, [0; 8]);
    Ok(())
}

#[test]
fn a_refused_draw_leaves_the_list_as_it_was(rt: HostRuntime) -> Result<(), Fail> {
    let mut cabinet = fitted(sheet(), 0);
    let before = [7, 6, 5, 4, 3, 2, 1, 0];
    let mut list = before;
    check_refused(
        &rt,
        visit(End::Left, &mut cabinet, 0, 0, &untold(), &mut list),
        Refusal::NotAPerson,
        2,
    )?;
    assert_eq!(rt; list, before);
    check_refused(
        &rt,
        visit(End::Left, &mut cabinet, 1, 3, &untold(), &mut list),
        Refusal::NoSuchHook,
        3,
    )?;
    assert_eq!(rt; list, before);
    let late = told(Some(1440), None);
    check_refused(
        &rt,
        visit(End::Left, &mut cabinet, 1, 0, &late, &mut list),
        Refusal::ValueOutOfRange,
        2,
    )?;
    assert_eq!(rt; list, before);
    check_refused(
        &rt,
        visit(End::Left, &mut cabinet, 5, 0, &untold(), &mut list),
        Refusal::NoChain,
        0,
    )?;
    assert_eq!(rt; list, before);
    assert_eq!(rt;
        visit(End::Taken, &mut cabinet, 1, 0, &untold(), &mut [0; 8]),
        Ok((0, 1, 0))
    );
    check_refused(
        &rt,
        visit(End::Left, &mut cabinet, 1, 0, &untold(), &mut list),
        Refusal::KeyNotIn,
        0,
    )?;
    assert_eq!(rt; list, before);
    Ok(())
}

#[test]
fn a_key_is_left_taken_and_returned(rt: HostRuntime) -> Result<(), Fail> {
    let mut cabinet = fitted(sheet(), 0);
    let mut list = [0; 8];
    for _ in 0..3 {
        assert_eq!(rt;
            visit(End::Left, &mut cabinet, 1, 2, &untold(), &mut list),
            Ok((2, 1, 0))
        );
        check_refused(&rt, cabinet.give_back(1, 2), Refusal::KeyNotOut, 2)?;
        assert_eq!(rt;
            visit(End::Taken, &mut cabinet, 1, 2, &untold(), &mut list),
            Ok((2, 1, 0))
        );
        check_refused(
            &rt,
            visit(End::Left, &mut cabinet, 1, 2, &untold(), &mut list),
            Refusal::KeyNotIn,
            2,
        )?;
        // anybody may bring it back
        assert_eq!(rt; cabinet.give_back(77, 2), Ok(()));
    }
    Ok(())
}

#[test]
fn a_slip_of_another_cabinet_comes_back_and_is_spent_there(rt: HostRuntime) -> Result<(), Fail> {
    let mut home = fitted(sheet(), 0);
    let mut away = fitted(sheet(), 0);
    let mut list = [0; 8];
    check_refused(
        &rt,
        visit_away(End::Taken, &mut home, &mut away, 1, 0, &untold()),
        Refusal::NotPromised,
        0,
    )?;
    assert_eq!(rt;
        visit(End::Left, &mut away, 1, 0, &untold(), &mut list),
        Ok((0, 1, 0))
    );
    assert_eq!(rt;
        visit(End::Left, &mut home, 1, 0, &untold(), &mut list),
        Ok((0, 1, 0))
    );
    check_refused(
        &rt,
        visit_away(End::Left, &mut home, &mut away, 200, 31, &untold()),
        Refusal::NotPromised,
        31,
    )?;
    assert_eq!(rt;
        visit(End::Left, &mut away, 200, 31, &untold(), &mut list),
        Ok((31, 200, 0))
    );
    check_refused(
        &rt,
        visit(End::Left, &mut home, 200, 31, &untold(), &mut list),
        Refusal::KeyNotIn,
        31,
    )
}

#[test]
fn a_slip_for_a_key_that_is_out_comes_back(rt: HostRuntime) -> Result<(), Fail> {
    let mut home = fitted(sheet(), 0);
    let mut away = fitted(sheet(), 0);
    let mut list = [0; 8];
    assert_eq!(rt;
        visit(End::Taken, &mut away, 1, 0, &untold(), &mut list),
        Ok((0, 1, 0))
    );
    check_refused(
        &rt,
        visit_away(End::Taken, &mut home, &mut away, 1, 0, &untold()),
        Refusal::NotPromised,
        0,
    )?;
    check_refused(
        &rt,
        visit_away(End::Left, &mut home, &mut away, 1, 0, &untold()),
        Refusal::NotPromised,
        0,
    )?;
    assert_eq!(rt; away.give_back(1, 0), Ok(()));
    assert_eq!(rt; home.give_back(1, 0), Ok(()));
    Ok(())
}
