//! Lists of calls on a new cabinet, over a book, a sheet and a pile of layers.
use crate::samples::{check_refused, fitted, owners, sheet, terms, told, untold};
use crate::visits::{End, visit, visit_away};
use books::book::Book;
use books::open::office_hours;
use conditions::distrust::Distrust;
use conditions::joined::Joined;
use conditions::language::Language;
use controller::run::{Answer, Call, replay};
use faults::{Fault, Layer, Refusal};
use grants::Mode;
use grants::terms::Terms;
use states::report::Report;
use std::process::Abort;
use std::test::Fail;

fn fit(owners: &[u8], kept: u8) -> Call<'_> {
    Call::Fit { owners, kept }
}

fn issue<'a>(caller: u8, hook: u8, grantee: u8, terms: Terms) -> Call<'a> {
    Call::Issue {
        caller,
        hook,
        grantee,
        terms,
    }
}

fn amend<'a>(caller: u8, number: u32, terms: Terms) -> Call<'a> {
    Call::Amend {
        caller,
        number,
        terms,
    }
}

fn withdraw<'a>(caller: u8, number: u32) -> Call<'a> {
    Call::Withdraw { caller, number }
}

fn draw<'a>(caller: u8, hook: u8, report: Report) -> Call<'a> {
    Call::Draw {
        caller,
        hook,
        report,
    }
}

fn take<'a>(hook: u8, person: u8) -> Call<'a> {
    Call::Take { hook, person }
}

fn leave<'a>(hook: u8, person: u8) -> Call<'a> {
    Call::Leave { hook, person }
}

fn give_back<'a>(caller: u8, hook: u8) -> Call<'a> {
    Call::Return { caller, hook }
}

/// A call's answer, or its refusal.
type Told = Result<Answer, Fault>;

const DONE: Told = Ok(Answer::Done);

fn number(number: u32) -> Told {
    Ok(Answer::Number(number))
}

fn orphaned(count: u32) -> Told {
    Ok(Answer::Orphaned(count))
}

fn refused(refusal: Refusal, place: usize) -> Told {
    Err(Fault {
        refusal,
        place,
        layer: Layer::Cabinet,
    })
}

fn slip(hook: u8, person: u8, length: u8, numbers: [u32; 8]) -> Told {
    Ok(Answer::Slip {
        hook,
        person,
        length,
        numbers,
    })
}

#[test]
fn slips_of_any_origin(rt: HostRuntime) -> Result<(), Fail> {
    let owners = owners();
    let calls = [
        fit(&owners, 0),
        draw(1, 0, untold()),
        draw(1, 0, untold()),
        give_back(1, 0),
        take(0, 2),
        leave(0, 2),
        take(1, 1),
        take(0, 1),
        leave(0, 1),
        give_back(7, 0),
        draw(1, 0, untold()),
        leave(0, 1),
        take(0, 1),
        leave(40, 1),
    ];
    let mut answers = [DONE; 14];
    let _ = replay(sheet(), &calls, &mut answers);
    assert_eq!(rt;
        answers,
        [
            DONE,
            slip(0, 1, 0, [0; 8]),
            refused(Refusal::KeyNotIn, 0),
            refused(Refusal::KeyNotOut, 0),
            refused(Refusal::NotPromised, 0),
            refused(Refusal::NotPromised, 0),
            refused(Refusal::NotPromised, 1),
            DONE,
            refused(Refusal::NotPromised, 0),
            DONE,
            slip(0, 1, 0, [0; 8]),
            DONE,
            refused(Refusal::NotPromised, 0),
            refused(Refusal::NotPromised, 40),
        ]
    );
    Ok(())
}

#[test]
fn calls_past_the_last_place_are_not_performed(rt: HostRuntime) -> Result<(), Fail> {
    let owners = owners();
    let calls = [
        fit(&owners, 0),
        issue(1, 0, 2, terms(0, 0, Mode::Expiring)),
        withdraw(1, 1),
        issue(1, 0, 3, terms(0, 0, Mode::Expiring)),
    ];
    let mut answers = [DONE; 2];
    let cabinet = replay(sheet(), &calls, &mut answers);
    assert_eq!(rt; answers, [DONE, number(1)]);
    assert_eq!(rt; cabinet.stands(1), Ok(true));
    check_refused(&rt, cabinet.stands(2), Refusal::NoSuchGrant, 2)?;
    // without a place it stays new
    let mut unfitted = replay(sheet(), &calls, &mut []);
    check_refused(
        &rt,
        visit(End::Left, &mut unfitted, 1, 0, &untold(), &mut [0; 8]),
        Refusal::NoSuchHook,
        0,
    )
}

#[test]
fn places_past_the_last_call_are_untouched(rt: HostRuntime) -> Result<(), Fail> {
    let owners = owners();
    let calls = [
        fit(&owners, 0),
        issue(1, 0, 2, terms(0, 0, Mode::Expiring)),
        issue(2, 0, 3, terms(0, 0, Mode::Expiring)),
        amend(1, 1, terms(0, 1, Mode::Expiring)),
        withdraw(1, 3),
    ];
    let mut answers = [number(77); 7];
    let cabinet = replay(sheet(), &calls, &mut answers);
    assert_eq!(rt;
        answers,
        [
            DONE,
            number(1),
            number(2),
            number(3),
            orphaned(0),
            number(77),
            number(77),
        ]
    );
    check_refused(&rt, cabinet.stands(2), Refusal::NoSuchGrant, 2)
}

/// A slip of another person, and one of the same, at a cabinet whose key is promised to person 1.
#[test]
fn a_slip_of_another_person_comes_back(rt: HostRuntime) -> Result<(), Fail> {
    let owners = owners();
    let calls = [fit(&owners, 0), draw(1, 0, untold())];
    let mut away = replay(sheet(), &calls, &mut [DONE; 2]);
    let mut home = fitted(sheet(), 0);
    let free = terms(0, 0, Mode::Expiring);
    assert_eq!(rt; home.issue(1, 0, 2, &free), Ok(1));
    check_refused(
        &rt,
        visit_away(End::Taken, &mut home, &mut away, 2, 0, &untold()),
        Refusal::NotPromised,
        0,
    )?;
    assert_eq!(rt;
        visit(End::Left, &mut home, 2, 0, &untold(), &mut [0; 8]),
        Ok((0, 2, 1))
    );
    assert_eq!(rt;
        visit_away(End::Taken, &mut home, &mut away, 1, 0, &untold()),
        Ok(())
    );
    assert_eq!(rt; away.give_back(1, 0), Ok(()));
    Ok(())
}

/// A day under the condition `hours`, which asks for office hours.
fn check_day<L: Language + Drop>(rt: &impl Abort, language: L, hours: u16) -> Result<(), Fail> {
    let owners = owners();
    let early = told(Some(300), None);
    let noon = told(Some(720), None);
    let by_day = terms(hours, hours, Mode::Expiring);
    let calls = [
        fit(&owners, 0b100),
        issue(1, 0, 2, by_day),
        issue(2, 0, 3, by_day),
        issue(
            2,
            0,
            3,
            Terms {
                report: early,
                ..by_day
            },
        ),
        issue(
            2,
            0,
            3,
            Terms {
                report: noon,
                ..by_day
            },
        ),
        draw(3, 0, early),
        draw(3, 0, noon),
        take(0, 3),
        give_back(3, 0),
        withdraw(1, 1),
        draw(3, 0, noon),
    ];
    let mut answers = [DONE; 11];
    let _ = replay(language, &calls, &mut answers);
    assert_eq!(rt;
        answers,
        [
            DONE,
            number(1),
            refused(Refusal::NoChain, 0),
            refused(Refusal::NoChain, 0),
            number(2),
            refused(Refusal::NoChain, 0),
            slip(0, 3, 2, [1, 2, 0, 0, 0, 0, 0, 0]),
            DONE,
            DONE,
            orphaned(1),
            refused(Refusal::NoChain, 0),
        ]
    );
    Ok(())
}

#[test]
fn a_day_over_a_book(rt: HostRuntime) -> Result<(), Fail> {
    check_day(&rt, Book::open(&office_hours()), 2)
}

#[test]
fn a_day_over_a_sheet(rt: HostRuntime) -> Result<(), Fail> {
    check_day(&rt, sheet(), 2)
}

#[test]
fn a_day_over_a_pile_of_layers(rt: HostRuntime) -> Result<(), Fail> {
    let hours = office_hours();
    // the book has the numbers 0 to 2, the sheet those from 3 to 7; DAY is hidden
    check_day(
        &rt,
        Distrust {
            below: Joined {
                first: Book::open(&hours),
                second: sheet(),
            },
            hidden: 0b1000,
        },
        2,
    )?;
    check_day(
        &rt,
        Distrust {
            below: Joined {
                first: Book::open(&hours),
                second: sheet(),
            },
            hidden: 0b1000,
        },
        5,
    )
}

#[test]
fn a_hidden_variable_is_unknown_to_a_draw(rt: HostRuntime) -> Result<(), Fail> {
    let owners = owners();
    let hours = office_hours();
    let monday = told(Some(720), Some(0));
    let calls = [
        fit(&owners, 0),
        issue(1, 0, 2, terms(8, 0, Mode::Expiring)),
        issue(1, 0, 2, terms(6, 0, Mode::Expiring)),
        draw(2, 0, monday),
    ];
    let mut answers = [DONE; 4];
    let joined = Joined {
        first: Book::open(&hours),
        second: sheet(),
    };
    let _ = replay(&joined, &calls, &mut answers);
    assert_eq!(rt;
        answers,
        [
            DONE,
            refused(Refusal::NoSuchCondition, 5),
            number(1),
            slip(0, 2, 1, [1, 0, 0, 0, 0, 0, 0, 0]),
        ]
    );
    let doubted = Distrust {
        below: &joined,
        hidden: 0b1000,
    };
    let _ = replay(doubted, &calls, &mut answers);
    assert_eq!(rt; answers[3], refused(Refusal::NoChain, 0));
    Ok(())
}
