//! Every event, without slips, at a key that is in, promised and out, at the last hook and past it.
use faults::{Fault, Refusal};
use loans::state::{Event, HookState};
use loans::table::Loans;
use std::process::Abort;

const HOOK: u8 = 31;

const PERSON: u8 = 7;

const OTHER: u8 = 8;

/// The key of the last hook is in this state, and the keys before and after it in two others.
fn lent(state: HookState) -> Loans {
    let mut loans = Loans::new();
    let _ = loans.happen(30, Event::Draw(OTHER));
    let _ = loans.happen(0, Event::Draw(PERSON));
    let _ = loans.happen(0, Event::Take(PERSON));
    match state {
        HookState::In => {}
        HookState::Promised(person) => {
            let _ = loans.happen(HOOK, Event::Draw(person));
        }
        HookState::Out => {
            let _ = loans.happen(HOOK, Event::Draw(PERSON));
            let _ = loans.happen(HOOK, Event::Take(PERSON));
        }
    }
    loans
}

/// An event in a state is answered so, and leaves the key so and the keys of other hooks as they were.
fn check_event(
    rt: &impl Abort,
    before: HookState,
    event: Event,
    answer: Result<(), Fault>,
    after: HookState,
) {
    let mut loans = lent(before);
    assert_eq!(rt; loans.state(HOOK), before);
    assert_eq!(rt; loans.happen(HOOK, event), answer);
    assert_eq!(rt; loans.state(HOOK), after);
    assert_eq!(rt; loans.state(0), HookState::Out);
    assert_eq!(rt; loans.state(30), HookState::Promised(OTHER));
    for hook in 1..30u8 {
        assert_eq!(rt; loans.state(hook), HookState::In);
    }
}

/// An event in a state is refused, and alters nothing.
fn check_refused(rt: &impl Abort, state: HookState, event: Event, refusal: Refusal) {
    check_event(rt, state, event, Err(refusal.at(HOOK as usize)), state);
}

#[test]
fn a_key_that_is_in_can_only_be_drawn(rt: HostRuntime) {
    let state = HookState::In;
    check_refused(&rt, state, Event::Take(PERSON), Refusal::NotPromised);
    check_refused(&rt, state, Event::Leave(PERSON), Refusal::NotPromised);
    check_refused(&rt, state, Event::Return, Refusal::KeyNotOut);
    check_event(
        &rt,
        state,
        Event::Draw(PERSON),
        Ok(()),
        HookState::Promised(PERSON),
    );
}

#[test]
fn a_promised_key_is_for_the_promised_person(rt: HostRuntime) {
    let state = HookState::Promised(PERSON);
    check_refused(&rt, state, Event::Draw(PERSON), Refusal::KeyNotIn);
    check_refused(&rt, state, Event::Draw(OTHER), Refusal::KeyNotIn);
    check_refused(&rt, state, Event::Take(OTHER), Refusal::NotPromised);
    check_refused(&rt, state, Event::Leave(OTHER), Refusal::NotPromised);
    check_refused(&rt, state, Event::Return, Refusal::KeyNotOut);
    check_event(&rt, state, Event::Take(PERSON), Ok(()), HookState::Out);
    check_event(&rt, state, Event::Leave(PERSON), Ok(()), HookState::In);
}

#[test]
fn a_key_that_is_out_can_only_be_returned(rt: HostRuntime) {
    let state = HookState::Out;
    check_refused(&rt, state, Event::Draw(PERSON), Refusal::KeyNotIn);
    check_refused(&rt, state, Event::Draw(OTHER), Refusal::KeyNotIn);
    check_refused(&rt, state, Event::Take(PERSON), Refusal::NotPromised);
    check_refused(&rt, state, Event::Take(OTHER), Refusal::NotPromised);
    check_refused(&rt, state, Event::Leave(PERSON), Refusal::NotPromised);
    check_refused(&rt, state, Event::Leave(OTHER), Refusal::NotPromised);
    check_event(&rt, state, Event::Return, Ok(()), HookState::In);
}

#[test]
fn past_the_last_hook_there_is_no_key(rt: HostRuntime) {
    let mut loans = lent(HookState::Out);
    for hook in 32..=255u8 {
        let place = hook as usize;
        assert_eq!(rt;
            loans.happen(hook, Event::Draw(PERSON)),
            Err(Refusal::NoSuchHook.at(place))
        );
        assert_eq!(rt;
            loans.happen(hook, Event::Take(PERSON)),
            Err(Refusal::NotPromised.at(place))
        );
        assert_eq!(rt;
            loans.happen(hook, Event::Leave(PERSON)),
            Err(Refusal::NotPromised.at(place))
        );
        assert_eq!(rt;
            loans.happen(hook, Event::Return),
            Err(Refusal::KeyNotOut.at(place))
        );
        assert_eq!(rt; loans.state(hook), HookState::In);
    }
    assert_eq!(rt; loans.state(HOOK), HookState::Out);
    assert_eq!(rt; loans.state(30), HookState::Promised(OTHER));
}

#[test]
fn every_key_can_be_out_at_once(rt: HostRuntime) {
    let mut loans = Loans::new();
    for hook in 0..32u8 {
        assert_eq!(rt; loans.happen(31 - hook, Event::Draw(PERSON)), Ok(()));
        assert_eq!(rt; loans.happen(31 - hook, Event::Take(PERSON)), Ok(()));
    }
    assert_eq!(rt; loans.happen(0, Event::Return), Ok(()));
    assert_eq!(rt; loans.happen(31, Event::Return), Ok(()));
    assert_eq!(rt; loans.happen(16, Event::Return), Ok(()));
    for hook in 0..32u8 {
        let is_in = hook == 0 || hook == 16 || hook == 31;
        assert_eq!(rt;
            loans.state(hook),
            if is_in { HookState::In } else { HookState::Out }
        );
    }
}
