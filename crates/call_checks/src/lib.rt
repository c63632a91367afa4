//! The checks of the calls that come before their effects, a few at a time, in the order of their numbers.
#![tactic(auto)]

ghost use Rattle.std.specs.Prelude.{◌≡◌, [], ◌∷◌, is_some, None};
ghost use Rattle.states.specs.Ranges.{range_check};
ghost use Rattle.states.specs.Reports.{state_of};
ghost use Rattle.plain.specs.Record.{passed, found, person, real_hook, condition, receiver, numbers_left, place_free, chainless, draw_before, withdraw_checks};
ghost use Rattle.std.specs.Option.{unwrap_or};
ghost use Rattle.grants.specs.Blank.{blank};

use faults::{Fault, Refusal};
use grants::Grant;
use plain::{
    check_conditions, check_grantor, check_hook, check_numbers, check_person, check_places,
    check_receiver,
};
use states::report::Report;

/// Refuses where no chain justifies the call.
pub fn check_chain(justified: bool) -> Result<(), Fault>
    ensures { result ≡ passed (chainless justified ∷ []) }
{
    if justified {
        Ok(())
    } else {
        Err(Refusal::NoChain.at(0))
    }
}

/// Refuses a report with a value out of range.
fn check_report(caller: u8, report: &Report) -> Result<(), Fault>
    ensures { result ≡ passed (found (range_check (state_of caller None report.now)) ∷ []) }
{
    report.state(caller, None).check_ranges()
}

/// Refuses a giver or receiver who is no person, and a hook that does not exist.
pub fn check_parties(caller: u8, grantee: u8, hook: u8, owner: u8) -> Result<(), Fault>
    ensures { result ≡ passed (person caller 2 ∷ person grantee 4 ∷ real_hook hook owner ∷ []) }
{
    check_person(caller, 2)?;
    check_person(grantee, 4)?;
    check_hook(hook, owner)
}

/// Refuses a report out of range, and conditions that the language does not have.
pub fn check_terms(
    count: u16,
    caller: u8,
    execute: u16,
    onward: u16,
    report: &Report,
) -> Result<(), Fault>
    ensures { result ≡ passed (found (range_check (state_of caller None report.now)) ∷ condition count execute 5 ∷ condition count onward 6 ∷ []) }
{
    check_report(caller, report)?;
    check_conditions(count, execute, onward)
}

/// Refuses a receiver who is the giver or the owner, a number after the last one, and a grant more
/// than the record holds.
pub fn check_room(grantee: u8, caller: u8, owner: u8, last: u32, places: usize) -> Result<(), Fault>
    ensures { result ≡ passed (receiver grantee caller owner ∷ numbers_left last ∷ place_free places ∷ []) }
{
    check_receiver(grantee, caller, owner)?;
    check_numbers(last)?;
    check_places(places)
}

/// Refuses a visitor who is no person, a hook that does not exist, and a report out of range.
pub fn check_visit(caller: u8, hook: u8, owner: u8, report: &Report) -> Result<(), Fault>
    ensures { result ≡ passed (draw_before caller hook owner (state_of caller None report.now)) }
{
    check_person(caller, 2)?;
    check_hook(hook, owner)?;
    check_report(caller, report)
}

/// The checks of a withdrawal of `old`, numbered `number`.
pub fn check_withdraw(caller: u8, old: Option<Grant>, number: u32) -> Result<(), Fault>
    ensures { result ≡ passed (withdraw_checks caller number (is_some old) (unwrap_or old blank).grantor) }
{
    check_person(caller, 2)?;
    check_grantor(old, caller, number)
}
