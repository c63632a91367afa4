//! Grants are judged by kept states, draws by whole ones.
use crate::samples::{check_refused, fitted, sheet, terms, told, untold};
use crate::visits::{End, visit};
use conditions::language::Language;
use controller::cabinet::Cabinet;
use faults::{Fault, Refusal};
use grants::Mode;
use grants::terms::Terms;
use states::report::Report;
use std::test::Fail;

/// The set of TIME alone.
const TIME_KEPT: u8 = 0b100;

const HOURS: u16 = 2;

const WEEKDAY: u16 = 3;

const NOT_TO_NINE: u16 = 4;

/// Person 2 gives hook 0 to the grantee, without conditions, and reports this.
fn passed_on<L: Language>(
    cabinet: &mut Cabinet<L>,
    grantee: u8,
    report: Report,
) -> Result<u32, Fault> {
    cabinet.issue(
        2,
        0,
        grantee,
        &Terms {
            report,
            ..terms(0, 0, Mode::Expiring)
        },
    )
}

#[test]
fn a_grant_condition_knows_what_is_kept(rt: HostRuntime) -> Result<(), Fail> {
    let mut cabinet = fitted(sheet(), TIME_KEPT);
    assert_eq!(rt;
        cabinet.issue(1, 0, 2, &terms(0, HOURS, Mode::Expiring)),
        Ok(1)
    );
    check_refused(
        &rt,
        passed_on(&mut cabinet, 3, untold()),
        Refusal::NoChain,
        0,
    )?;
    check_refused(
        &rt,
        passed_on(&mut cabinet, 3, told(Some(479), None)),
        Refusal::NoChain,
        0,
    )?;
    assert_eq!(rt; passed_on(&mut cabinet, 3, told(Some(480), None)), Ok(2));
    assert_eq!(rt;
        passed_on(&mut cabinet, 3, told(Some(1080), Some(6))),
        Ok(3)
    );
    check_refused(
        &rt,
        passed_on(&mut cabinet, 3, told(Some(1081), None)),
        Refusal::NoChain,
        0,
    )
}

#[test]
fn what_is_not_kept_is_unknown_to_a_grant_condition(rt: HostRuntime) -> Result<(), Fail> {
    let mut cabinet = fitted(sheet(), TIME_KEPT);
    assert_eq!(rt;
        cabinet.issue(1, 0, 2, &terms(0, WEEKDAY, Mode::Expiring)),
        Ok(1)
    );
    check_refused(
        &rt,
        passed_on(&mut cabinet, 3, told(Some(600), Some(0))),
        Refusal::NoChain,
        0,
    )?;
    let mut forgetful = fitted(sheet(), 0);
    assert_eq!(rt;
        forgetful.issue(1, 0, 2, &terms(0, HOURS, Mode::Expiring)),
        Ok(1)
    );
    check_refused(
        &rt,
        passed_on(&mut forgetful, 3, told(Some(600), Some(0))),
        Refusal::NoChain,
        0,
    )
}

#[test]
fn an_execute_condition_knows_what_is_reported(rt: HostRuntime) -> Result<(), Fail> {
    let mut cabinet = fitted(sheet(), TIME_KEPT);
    let mut list = [0; 8];
    assert_eq!(rt;
        cabinet.issue(1, 0, 2, &terms(WEEKDAY, 0, Mode::Expiring)),
        Ok(1)
    );
    // the day of the draw counts, and not that of the grant
    assert_eq!(rt; passed_on(&mut cabinet, 3, told(None, Some(6))), Ok(2));
    let monday = told(None, Some(0));
    let sunday = told(None, Some(6));
    assert_eq!(rt;
        visit(End::Left, &mut cabinet, 2, 0, &monday, &mut list),
        Ok((0, 2, 1))
    );
    assert_eq!(rt;
        visit(End::Left, &mut cabinet, 3, 0, &monday, &mut list),
        Ok((0, 3, 2))
    );
    check_refused(
        &rt,
        visit(End::Left, &mut cabinet, 3, 0, &sunday, &mut list),
        Refusal::NoChain,
        0,
    )?;
    check_refused(
        &rt,
        visit(End::Left, &mut cabinet, 3, 0, &untold(), &mut list),
        Refusal::NoChain,
        0,
    )
}

#[test]
fn the_receiver_is_known_to_grants_and_not_to_draws(rt: HostRuntime) -> Result<(), Fail> {
    let mut cabinet = fitted(sheet(), 0);
    assert_eq!(rt;
        cabinet.issue(1, 0, 2, &terms(0, NOT_TO_NINE, Mode::Expiring)),
        Ok(1)
    );
    check_refused(
        &rt,
        passed_on(&mut cabinet, 9, untold()),
        Refusal::NoChain,
        0,
    )?;
    assert_eq!(rt; passed_on(&mut cabinet, 8, untold()), Ok(2));
    assert_eq!(rt;
        cabinet.issue(1, 1, 2, &terms(NOT_TO_NINE, 0, Mode::Expiring)),
        Ok(3)
    );
    check_refused(
        &rt,
        visit(End::Left, &mut cabinet, 2, 1, &untold(), &mut [0; 8]),
        Refusal::NoChain,
        0,
    )
}

#[test]
fn a_condition_of_a_grant_is_asked_of_all_that_follow(rt: HostRuntime) -> Result<(), Fail> {
    let mut cabinet = fitted(sheet(), TIME_KEPT);
    let free = terms(0, 0, Mode::Expiring);
    assert_eq!(rt;
        cabinet.issue(1, 0, 2, &terms(0, HOURS, Mode::Expiring)),
        Ok(1)
    );
    assert_eq!(rt; passed_on(&mut cabinet, 3, told(Some(600), None)), Ok(2));
    check_refused(&rt, cabinet.issue(3, 0, 4, &free), Refusal::NoChain, 0)?;
    let noon = Terms {
        report: told(Some(720), None),
        ..free
    };
    assert_eq!(rt; cabinet.issue(3, 0, 4, &noon), Ok(3));
    assert_eq!(rt;
        visit(End::Left, &mut cabinet, 4, 0, &untold(), &mut [0; 8]),
        Ok((0, 4, 3))
    );
    Ok(())
}
