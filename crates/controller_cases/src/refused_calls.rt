//! What each call refuses, by number and place, and which of several faults it tells.
use crate::samples::{check_given, check_refused, fitted, owners, sheet, terms, told, untold};
use crate::visits::{End, visit};
use controller::cabinet::Cabinet;
use faults::{Fault, Refusal};
use grants::Mode;
use grants::terms::Terms;
use states::report::Report;
use std::process::Abort;
use std::test::Fail;

// Each case: caller, hook, grantee, execute and grant condition, DAY, PATH; and the reason and the place.
static ISSUES: [(
    u8,
    u8,
    u8,
    u16,
    u16,
    Option<u16>,
    Option<u16>,
    Refusal,
    usize,
); 17] = [
    (0, 40, 0, 9, 9, Some(7), Some(2), Refusal::NotAPerson, 2),
    (201, 40, 0, 9, 9, Some(7), Some(2), Refusal::NotAPerson, 2),
    (200, 40, 0, 9, 9, Some(7), Some(2), Refusal::NotAPerson, 4),
    (1, 40, 201, 9, 9, Some(7), Some(2), Refusal::NotAPerson, 4),
    (1, 32, 1, 9, 9, Some(7), Some(2), Refusal::NoSuchHook, 32),
    (1, 255, 1, 9, 9, Some(7), Some(2), Refusal::NoSuchHook, 255),
    (1, 3, 1, 9, 9, Some(7), Some(2), Refusal::NoSuchHook, 3),
    (1, 0, 1, 9, 9, Some(7), Some(2), Refusal::ValueOutOfRange, 3),
    (1, 0, 1, 9, 9, Some(6), Some(2), Refusal::ValueOutOfRange, 5),
    (1, 0, 1, 5, 5, Some(6), Some(1), Refusal::NoSuchCondition, 5),
    (1, 0, 1, 4, 5, Some(6), Some(1), Refusal::NoSuchCondition, 6),
    (
        1,
        0,
        1,
        4,
        4,
        None,
        None,
        Refusal::GranteeIsCallerOrOwner,
        4,
    ),
    (
        5,
        0,
        1,
        4,
        4,
        None,
        None,
        Refusal::GranteeIsCallerOrOwner,
        4,
    ),
    (
        5,
        0,
        5,
        4,
        4,
        None,
        None,
        Refusal::GranteeIsCallerOrOwner,
        4,
    ),
    (5, 0, 6, 4, 4, None, None, Refusal::NoChain, 0),
    (5, 0, 200, 0, 0, Some(6), Some(1), Refusal::NoChain, 0),
    (1, 31, 6, 0, 0, None, None, Refusal::NoChain, 0),
];

// Each case: caller, grant, execute and grant condition, DAY, PATH; and the reason and the place.
static AMENDMENTS: [(u8, u32, u16, u16, Option<u16>, Option<u16>, Refusal, usize); 12] = [
    (0, 9, 9, 9, Some(7), Some(2), Refusal::NotAPerson, 2),
    (201, 9, 9, 9, Some(7), Some(2), Refusal::NotAPerson, 2),
    (1, 9, 9, 9, Some(7), Some(2), Refusal::ValueOutOfRange, 3),
    (1, 9, 9, 9, Some(0), Some(2), Refusal::ValueOutOfRange, 5),
    (1, 9, 5, 5, Some(0), Some(1), Refusal::NoSuchCondition, 5),
    (1, 9, 4, 5, Some(0), Some(1), Refusal::NoSuchCondition, 6),
    (1, 9, 4, 4, None, None, Refusal::NoSuchGrant, 9),
    (1, 0, 4, 4, None, None, Refusal::NoSuchGrant, 0),
    (1, 1, 4, 4, None, None, Refusal::NoSuchGrant, 1),
    (1, 2, 0, 0, None, None, Refusal::NotTheGrantor, 2),
    (2, 3, 0, 0, None, None, Refusal::NotTheGrantor, 3),
    (2, 2, 0, 0, None, None, Refusal::NoChain, 0),
];

// Each case: caller, grant; and the reason and the place.
static WITHDRAWALS: [(u8, u32, Refusal, usize); 7] = [
    (0, 9, Refusal::NotAPerson, 2),
    (201, 3, Refusal::NotAPerson, 2),
    (1, 9, Refusal::NoSuchGrant, 9),
    (1, 0, Refusal::NoSuchGrant, 0),
    (1, 1, Refusal::NoSuchGrant, 1),
    (1, 2, Refusal::NotTheGrantor, 2),
    (2, 3, Refusal::NotTheGrantor, 3),
];

// Each case: caller, hook, DAY, PATH; and the reason and the place.
static DRAWS: [(u8, u8, Option<u16>, Option<u16>, Refusal, usize); 9] = [
    (0, 40, Some(7), Some(2), Refusal::NotAPerson, 2),
    (201, 0, Some(7), Some(2), Refusal::NotAPerson, 2),
    (1, 32, Some(7), Some(2), Refusal::NoSuchHook, 32),
    (1, 3, Some(7), Some(2), Refusal::NoSuchHook, 3),
    (5, 0, Some(7), Some(2), Refusal::ValueOutOfRange, 3),
    (5, 0, Some(0), Some(2), Refusal::ValueOutOfRange, 5),
    (5, 0, Some(0), Some(1), Refusal::NoChain, 0),
    (200, 0, None, None, Refusal::NoChain, 0),
    (1, 0, None, None, Refusal::KeyNotIn, 0),
];

// Each case: caller, hook; and the reason and the place.
static RETURNS: [(u8, u8, Refusal, usize); 6] = [
    (0, 40, Refusal::NotAPerson, 2),
    (201, 0, Refusal::NotAPerson, 2),
    (1, 32, Refusal::NoSuchHook, 32),
    (1, 3, Refusal::NoSuchHook, 3),
    (1, 1, Refusal::KeyNotOut, 1),
    (200, 31, Refusal::KeyNotOut, 31),
];

/// A report of DAY and PATH.
fn report(day: Option<u16>, path: Option<u16>) -> Report {
    Report {
        day,
        path,
        ..Report::default()
    }
}

/// Terms of numbers from a table.
fn laid_down(execute: u16, onward: u16, day: Option<u16>, path: Option<u16>) -> Terms {
    Terms {
        execute,
        onward,
        mode: Mode::Resting,
        report: report(day, path),
    }
}

/// Only variable `v` is told, past its greatest value; and STATUS too, so that there are two.
fn past(v: usize) -> Report {
    Report {
        time: if v == 2 { Some(1440) } else { None },
        day: if v == 3 { Some(7) } else { None },
        groups: Some(65535),
        path: if v == 5 { Some(2) } else { None },
        level: if v == 6 { Some(101) } else { None },
        status: Some(2),
    }
}

/// The reasons by the numbers that are printed.
#[test]
fn reasons_have_their_numbers(rt: HostRuntime) {
    let reasons = [
        (Refusal::CommandIllFormed, 1),
        (Refusal::NotAPerson, 2),
        (Refusal::NoSuchHook, 3),
        (Refusal::ValueOutOfRange, 4),
        (Refusal::NoSuchCondition, 5),
        (Refusal::GranteeIsCallerOrOwner, 6),
        (Refusal::NoSuchGrant, 7),
        (Refusal::NotTheGrantor, 8),
        (Refusal::NumbersSpent, 9),
        (Refusal::RecordFull, 10),
        (Refusal::NoChain, 11),
        (Refusal::KeyNotIn, 12),
        (Refusal::KeyNotOut, 13),
        (Refusal::NotPromised, 14),
        (Refusal::AlreadyFitted, 15),
        (Refusal::FittingIllFormed, 16),
        (Refusal::ConditionsIllFormed, 17),
    ];
    for (reason, number) in reasons {
        assert_eq!(rt; reason.number(), number);
    }
}

#[test]
fn issues(rt: HostRuntime) -> Result<(), Fail> {
    let mut cabinet = fitted(sheet(), 0);
    for (caller, hook, grantee, execute, onward, day, path, refusal, place) in ISSUES {
        let terms = laid_down(execute, onward, day, path);
        check_refused(
            &rt,
            cabinet.issue(caller, hook, grantee, &terms),
            refusal,
            place,
        )?;
    }
    // no refused one has spent a number
    assert_eq!(rt;
        cabinet.issue(200, 31, 1, &laid_down(4, 4, Some(6), Some(1))),
        Ok(1)
    );
    Ok(())
}

#[test]
fn amendments_and_withdrawals(rt: HostRuntime) -> Result<(), Fail> {
    let mut cabinet = fitted(sheet(), 0);
    check_given(&rt, &mut cabinet, 1, 2, Mode::Expiring, 1);
    check_given(&rt, &mut cabinet, 2, 3, Mode::Resting, 2);
    check_given(&rt, &mut cabinet, 1, 4, Mode::Expiring, 3);
    // grant 2 rests from now on
    assert_eq!(rt; cabinet.withdraw(1, 1), Ok(1));
    for (caller, number, execute, onward, day, path, refusal, place) in AMENDMENTS {
        let terms = laid_down(execute, onward, day, path);
        check_refused(&rt, cabinet.amend(caller, number, &terms), refusal, place)?;
    }
    for (caller, number, refusal, place) in WITHDRAWALS {
        check_refused(&rt, cabinet.withdraw(caller, number), refusal, place)?;
    }
    assert_eq!(rt;
        cabinet.amend(1, 3, &laid_down(4, 4, Some(6), Some(1))),
        Ok(4)
    );
    Ok(())
}

#[test]
fn draws_and_returns(rt: HostRuntime) -> Result<(), Fail> {
    let mut cabinet = fitted(sheet(), 0);
    let mut list = [0; 8];
    assert_eq!(rt;
        visit(End::Taken, &mut cabinet, 1, 0, &untold(), &mut list),
        Ok((0, 1, 0))
    );
    for (caller, hook, day, path, refusal, place) in DRAWS {
        let answer = visit(
            End::Left,
            &mut cabinet,
            caller,
            hook,
            &report(day, path),
            &mut list,
        );
        check_refused(&rt, answer, refusal, place)?;
    }
    for (caller, hook, refusal, place) in RETURNS {
        check_refused(&rt, cabinet.give_back(caller, hook), refusal, place)?;
    }
    assert_eq!(rt; cabinet.give_back(200, 0), Ok(()));
    Ok(())
}

#[test]
fn the_first_variable_out_of_range_is_told(rt: HostRuntime) -> Result<(), Fail> {
    let mut cabinet = fitted(sheet(), 0);
    for v in 2..8usize {
        // every value of GROUPS is in range
        let place = if v == 4 { 7 } else { v };
        check_refused(
            &rt,
            visit(End::Left, &mut cabinet, 1, 0, &past(v), &mut [0; 8]),
            Refusal::ValueOutOfRange,
            place,
        )?;
    }
    Ok(())
}

#[test]
fn before_the_fitting_there_is_no_hook_and_no_grant(rt: HostRuntime) -> Result<(), Fail> {
    let mut cabinet = Cabinet::new(sheet());
    let free = terms(0, 0, Mode::Expiring);
    for hook in 0..32u8 {
        check_refused(
            &rt,
            cabinet.issue(1, hook, 2, &free),
            Refusal::NoSuchHook,
            hook as usize,
        )?;
        check_refused(
            &rt,
            visit(End::Left, &mut cabinet, 1, hook, &untold(), &mut [0; 8]),
            Refusal::NoSuchHook,
            hook as usize,
        )?;
        check_refused(
            &rt,
            cabinet.give_back(1, hook),
            Refusal::NoSuchHook,
            hook as usize,
        )?;
    }
    check_refused(&rt, cabinet.amend(1, 1, &free), Refusal::NoSuchGrant, 1)?;
    check_refused(&rt, cabinet.withdraw(1, 1), Refusal::NoSuchGrant, 1)?;
    check_refused(&rt, cabinet.stands(1), Refusal::NoSuchGrant, 1)
}

#[test]
fn ill_formed_fittings(rt: HostRuntime) -> Result<(), Fail> {
    let mut cabinet = Cabinet::new(sheet());
    check_refused(&rt, cabinet.fit(&[], 0), Refusal::FittingIllFormed, 32)?;
    check_refused(&rt, cabinet.fit(&[1; 31], 0), Refusal::FittingIllFormed, 32)?;
    check_refused(
        &rt,
        cabinet.fit(&[201; 33], 3),
        Refusal::FittingIllFormed,
        32,
    )?;
    let mut list = owners();
    for kept in 1..4u8 {
        check_refused(&rt, cabinet.fit(&list, kept), Refusal::FittingIllFormed, 33)?;
    }
    check_refused(&rt, cabinet.fit(&list, 255), Refusal::FittingIllFormed, 33)?;
    list[31] = 201;
    check_refused(&rt, cabinet.fit(&list, 3), Refusal::FittingIllFormed, 31)?;
    list[5] = 255;
    check_refused(&rt, cabinet.fit(&list, 0), Refusal::FittingIllFormed, 5)
}

#[test]
fn a_cabinet_is_fitted_once(rt: HostRuntime) -> Result<(), Fail> {
    let mut cabinet = Cabinet::new(sheet());
    check_refused(&rt, cabinet.fit(&[1; 31], 0), Refusal::FittingIllFormed, 32)?;
    assert_eq!(rt; cabinet.fit(&owners(), 0b1111_1100), Ok(()));
    check_refused(&rt, cabinet.fit(&owners(), 0), Refusal::AlreadyFitted, 0)?;
    check_refused(&rt, cabinet.fit(&[201; 31], 3), Refusal::AlreadyFitted, 0)
}
