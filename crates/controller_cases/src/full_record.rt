//! A record of 96 grants.
use crate::samples::{check_chain, check_given, check_refused, fitted, sheet, terms};
use faults::Refusal;
use grants::Mode;
use std::test::Fail;

#[test]
fn ninety_six_grants_fit_and_an_amendment_of_one(rt: HostRuntime) -> Result<(), Fail> {
    let mut cabinet = fitted(sheet(), 0);
    let free = terms(0, 0, Mode::Expiring);
    for number in 1..97u8 {
        check_given(
            &rt,
            &mut cabinet,
            1,
            number + 1,
            Mode::Expiring,
            number as u32,
        );
    }
    check_refused(&rt, cabinet.issue(1, 0, 98, &free), Refusal::RecordFull, 0)?;
    // a receiver who may not be comes before a full record, and that before a chain that is missing
    check_refused(
        &rt,
        cabinet.issue(1, 0, 1, &free),
        Refusal::GranteeIsCallerOrOwner,
        4,
    )?;
    check_refused(
        &rt,
        cabinet.issue(150, 0, 98, &free),
        Refusal::RecordFull,
        0,
    )?;
    assert_eq!(rt; cabinet.amend(1, 50, &free), Ok(97));
    check_chain(&rt, &mut cabinet, 51, 0, 1, &[97, 0, 0, 0, 0, 0, 0, 0])?;
    check_chain(&rt, &mut cabinet, 97, 0, 1, &[96, 0, 0, 0, 0, 0, 0, 0])?;
    check_refused(&rt, cabinet.issue(1, 0, 98, &free), Refusal::RecordFull, 0)?;
    assert_eq!(rt; cabinet.withdraw(1, 1), Ok(0));
    assert_eq!(rt; cabinet.issue(1, 0, 98, &free), Ok(98));
    check_refused(&rt, cabinet.issue(1, 0, 99, &free), Refusal::RecordFull, 0)
}
