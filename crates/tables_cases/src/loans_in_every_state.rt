//! Every event at a key that is in, promised and out; slips of another hook and of another person.
//! A slip cannot be let go, so each test spends those that it draws.
ghost use Rattle.std.specs.Prelude.{◌≡◌, IfErr, Ok};
ghost use Rattle.loans.specs.Hooks.{Promises};

use faults::{Fault, Refusal};
use loans::slip::{RefusedSlip, Slip};
use loans::state::HookState;
use loans::table::Loans;
use std::test::Fail;

const HOOK: u8 = 31;

const PERSON: u8 = 7;

/// What becomes of a key that was drawn.
#[derive(Clone, Copy)]
enum End {
    Taken,
    Left,
}

/// Spends a slip, which may be of other loans.
fn spend(loans: &mut Loans, slip: Slip, end: End) -> Result<(), RefusedSlip>
    ensures home { Promises loans.old slip → result ≡ Ok tt }
    ensures back { IfErr result (λ refused. (refused.slip ≡ slip) × (loans.new ≡ loans.old)) }
{
    match end {
        End::Taken => loans.take(slip),
        End::Left => loans.leave(slip),
    }
}

/// A draw whose slip is spent at once.
fn visit(end: End, loans: &mut Loans, hook: u8, person: u8) -> Result<(), Fault> {
    let slip = loans.draw(hook, person, 0)?;
    match spend(loans, slip, end) {
        Ok(()) => Ok(()),
        Err(_) => unreachable(),
    }
}

/// Spends a slip of another cabinet, where it is left if it comes back.
fn visit_away(end: End, loans: &mut Loans, hook: u8, person: u8) -> Result<(), Fault> {
    let mut home = Loans::new();
    let slip = home.draw(hook, person, 0)?;
    match spend(loans, slip, end) {
        Ok(()) => Ok(()),
        Err(RefusedSlip { fault, slip }) => match home.leave(slip) {
            Ok(()) => Err(fault),
            Err(_) => unreachable(),
        },
    }
}

fn refused(refusal: Refusal) -> Result<(), Fault> {
    Err(refusal.at(HOOK as usize))
}

#[test]
fn a_key_that_is_in_can_only_be_drawn(rt: HostRuntime) {
    let mut loans = Loans::new();
    assert_eq!(rt;
        visit_away(End::Taken, &mut loans, HOOK, PERSON),
        refused(Refusal::NotPromised)
    );
    assert_eq!(rt;
        visit_away(End::Left, &mut loans, HOOK, PERSON),
        refused(Refusal::NotPromised)
    );
    assert_eq!(rt; loans.give_back(HOOK), refused(Refusal::KeyNotOut));
    assert_eq!(rt; loans.state(HOOK), HookState::In);
    assert_eq!(rt; visit(End::Left, &mut loans, HOOK, PERSON), Ok(()));
    assert_eq!(rt; loans.state(HOOK), HookState::In);
    assert_eq!(rt; visit(End::Taken, &mut loans, HOOK, PERSON), Ok(()));
    assert_eq!(rt; loans.state(HOOK), HookState::Out);
}

#[test]
fn a_key_that_is_out_can_only_be_returned(rt: HostRuntime) {
    let mut loans = Loans::new();
    assert_eq!(rt; visit(End::Taken, &mut loans, HOOK, PERSON), Ok(()));
    assert_eq!(rt;
        visit(End::Taken, &mut loans, HOOK, PERSON),
        refused(Refusal::KeyNotIn)
    );
    assert_eq!(rt;
        visit_away(End::Taken, &mut loans, HOOK, PERSON),
        refused(Refusal::NotPromised)
    );
    assert_eq!(rt;
        visit_away(End::Left, &mut loans, HOOK, PERSON),
        refused(Refusal::NotPromised)
    );
    assert_eq!(rt; loans.state(HOOK), HookState::Out);
    assert_eq!(rt; loans.give_back(HOOK), Ok(()));
    assert_eq!(rt; loans.state(HOOK), HookState::In);
}

#[test]
fn past_the_last_hook_there_is_no_key(rt: HostRuntime) {
    let mut loans = Loans::new();
    assert_eq!(rt; loans.state(32), HookState::In);
    assert_eq!(rt;
        visit(End::Taken, &mut loans, 32, PERSON),
        Err(Refusal::NoSuchHook.at(32))
    );
    assert_eq!(rt; loans.give_back(32), Err(Refusal::KeyNotOut.at(32)));
    assert_eq!(rt;
        visit(End::Taken, &mut loans, 255, PERSON),
        Err(Refusal::NoSuchHook.at(255))
    );
}

#[test]
fn every_key_can_be_out_at_once(rt: HostRuntime) {
    let mut loans = Loans::new();
    for hook in 0..32u8 {
        assert_eq!(rt; visit(End::Taken, &mut loans, 31 - hook, PERSON), Ok(()));
    }
    assert_eq!(rt; loans.give_back(0), Ok(()));
    assert_eq!(rt; loans.give_back(31), Ok(()));
    assert_eq!(rt; loans.give_back(16), Ok(()));
    for hook in 0..32u8 {
        let is_in = hook == 0 || hook == 16 || hook == 31;
        assert_eq!(rt;
            loans.state(hook),
            if is_in { HookState::In } else { HookState::Out }
        );
    }
}

/// What was seen while a slip was out.
#[derive(Drop)]
struct Seen {
    before: HookState,
    answer: Result<(), Fault>,
    after: HookState,
}

/// What a second draw of a promised key answers.
fn drawn_while_promised(loans: &mut Loans) -> Result<Seen, Fault> {
    let slip = loans.draw(HOOK, PERSON, 0)?;
    let before = loans.state(HOOK);
    let answer = match loans.draw(HOOK, 8, 0) {
        Ok(_) => unreachable(),
        Err(fault) => Err(fault),
    };
    let after = loans.state(HOOK);
    match loans.leave(slip) {
        Ok(()) => Ok(Seen {
            before,
            answer,
            after,
        }),
        Err(_) => unreachable(),
    }
}

/// What the return of a promised key answers.
fn returned_while_promised(loans: &mut Loans) -> Result<Seen, Fault> {
    let slip = loans.draw(HOOK, PERSON, 0)?;
    let before = loans.state(HOOK);
    let answer = loans.give_back(HOOK);
    let after = loans.state(HOOK);
    match loans.leave(slip) {
        Ok(()) => Ok(Seen {
            before,
            answer,
            after,
        }),
        Err(_) => unreachable(),
    }
}

#[test]
fn a_promised_key_cannot_be_drawn_or_returned(rt: HostRuntime) -> Result<(), Fail> {
    let mut loans = Loans::new();
    let seen = drawn_while_promised(&mut loans)?;
    assert_eq!(rt; seen.before, HookState::Promised(PERSON));
    assert_eq!(rt; seen.answer, refused(Refusal::KeyNotIn));
    assert_eq!(rt; seen.after, HookState::Promised(PERSON));
    let seen = returned_while_promised(&mut loans)?;
    assert_eq!(rt; seen.answer, refused(Refusal::KeyNotOut));
    assert_eq!(rt; seen.after, HookState::Promised(PERSON));
    Ok(())
}

/// What taking on another person's slip answers, while the key is promised.
fn taken_by_another() -> Result<Seen, Fault> {
    let mut loans = Loans::new();
    let mut home = Loans::new();
    let slip = loans.draw(HOOK, PERSON, 0)?;
    let before = loans.state(HOOK);
    let foreign = match home.draw(HOOK, 8, 0) {
        Ok(foreign) => foreign,
        Err(_) => unreachable(),
    };
    let answer = match loans.take(foreign) {
        Ok(()) => unreachable(),
        Err(
            RefusedSlip {
                fault,
                slip: foreign,
            },
        ) => match home.take(foreign) {
            Ok(()) => Err(fault),
            Err(_) => unreachable(),
        },
    };
    let after = loans.state(HOOK);
    match loans.take(slip) {
        Ok(()) => Ok(Seen {
            before,
            answer,
            after,
        }),
        Err(_) => unreachable(),
    }
}

#[test]
fn a_foreign_slip_is_refused_and_comes_back(rt: HostRuntime) -> Result<(), Fail> {
    let seen = taken_by_another()?;
    assert_eq!(rt; seen.before, HookState::Promised(PERSON));
    assert_eq!(rt; seen.answer, refused(Refusal::NotPromised));
    assert_eq!(rt; seen.after, HookState::Promised(PERSON));
    Ok(())
}

#[test]
fn a_slip_tells_hook_person_and_length(rt: HostRuntime) -> Result<(), Fail> {
    let mut loans = Loans::new();
    let slip: Slip = loans.draw(5, 200, 8)?;
    let told = (slip.hook(), slip.person(), slip.length());
    match loans.leave(slip) {
        Ok(()) => {}
        Err(_) => unreachable(),
    }
    assert_eq!(rt; told.0, 5);
    assert_eq!(rt; told.1, 200);
    assert_eq!(rt; told.2, 8);
    Ok(())
}
