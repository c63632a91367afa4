//! The plain record of a list of calls, and the checks of the calls.
#![tactic(auto)]

ghost use Rattle.std.specs.Prelude.{◌≡◌, ◌%◌, not, List, [], ◌∷◌, is_some, ◌==◌, nat_lt};
ghost use Rattle.std.specs.Option.{unwrap_or};
ghost use Rattle.grants.specs.Blank.{blank};
ghost use Rattle.chains.specs.Search.{is_person};
ghost use Rattle.plain.specs.Record.{check, passed, person, real_hook, condition, receiver, own_grant, numbers_left, place_free, fit_checks, owners_from};
ghost use Rattle.plain.specs.Laws.{RecordLaws};

use chains::chain::is_person;
use faults::{Fault, Refusal};
use grants::Grant;

/// Refuses where the test says that something is wrong.
fn refuse_if(wrong: bool, refusal: Refusal, place: usize) -> Result<(), Fault>
    ensures { result ≡ passed (check wrong refusal place ∷ []) }
{
    if wrong {
        Err(refusal.at(place))
    } else {
        Ok(())
    }
}

/// Whether the number is nobody's.
fn is_nobody(number: u8) -> bool
    ensures { result ≡ not (is_person number) }
{
    !is_person(number)
}

/// Refuses a number that is not a person's; the place is the tag of its field. Its contract also states
/// the laws of the plain record.
pub fn check_person(number: u8, tag: usize) -> Result<(), Fault>
    ensures is { result ≡ passed (person number tag ∷ []) }
    ensures laws { RecordLaws }
{
    refuse_if(is_nobody(number), Refusal::NotAPerson, tag)
}

/// Refuses a hook that does not exist or has no owner.
pub fn check_hook(hook: u8, owner: u8) -> Result<(), Fault>
    ensures { result ≡ passed (real_hook hook owner ∷ []) }
{
    refuse_if(hook > 31 || owner == 0, Refusal::NoSuchHook, hook as usize)
}

/// Refuses the first of two conditions that the language does not have.
pub fn check_conditions(count: u16, execute: u16, onward: u16) -> Result<(), Fault>
    ensures { result ≡ passed (condition count execute 5 ∷ condition count onward 6 ∷ []) }
{
    refuse_if(execute >= count, Refusal::NoSuchCondition, 5)?;
    refuse_if(onward >= count, Refusal::NoSuchCondition, 6)
}

/// Refuses a receiver who is the caller or the owner of the hook.
pub fn check_receiver(grantee: u8, caller: u8, owner: u8) -> Result<(), Fault>
    ensures { result ≡ passed (receiver grantee caller owner ∷ []) }
{
    refuse_if(
        grantee == caller || grantee == owner,
        Refusal::GranteeIsCallerOrOwner,
        4,
    )
}

/// Refuses to change a grant that is not on record, or is not the caller's own; the number is the one
/// under which it was looked up.
pub fn check_grantor(grant: Option<Grant>, caller: u8, number: u32) -> Result<(), Fault>
    ensures { result ≡ passed (own_grant (is_some grant) (unwrap_or grant blank).grantor caller number) }
{
    match grant {
        None => Err(Refusal::NoSuchGrant.at(number as usize)),
        Some(grant) => refuse_if(
            grant.grantor != caller,
            Refusal::NotTheGrantor,
            number as usize,
        ),
    }
}

// stays: two checks with limits, reasons and laws of their own, one line each over what they share
/// Refuses a new number after the last one.
pub fn check_numbers(last: u32) -> Result<(), Fault>
    ensures { result ≡ passed (numbers_left last ∷ []) }
{
    refuse_if(last >= 1_000_000, Refusal::NumbersSpent, 0)
}

/// Refuses one more grant on a full record.
pub fn check_places(places: usize) -> Result<(), Fault>
    ensures { result ≡ passed (place_free places ∷ []) }
{
    refuse_if(places >= 96, Refusal::RecordFull, 0)
}

/// Whether the number stands for no owner: neither a person nor 0, which is no hook.
fn is_no_owner(number: u8) -> bool
    ensures { result ≡ nat_lt 200 number }
{
    number > 200
}

/// Refuses the first owner above 200, with its index.
fn check_owners(owners: &[u8]) -> Result<(), Fault>
    ensures { result ≡ passed (owners_from 0 owners.now) }
{
    for (i, owner) in owners.iter().enumerate() {
        if is_no_owner(*owner) {
            return Err(Refusal::FittingIllFormed.at(i));
        }
    }
    Ok(())
}

/// Whether the set names one of the first two variables, which are kept anyway.
fn names_filled_in(kept: u8) -> bool
    ensures { result ≡ not (kept % 4 == 0) }
{
    kept % 4 != 0
}

/// Refuses a second fitting, and one that is ill formed: 32 owners, each at most 200, and a kept set
/// without the first two variables.
pub fn check_fitting(fitted: bool, owners: &[u8], kept: u8) -> Result<(), Fault>
    ensures { result ≡ passed (fit_checks fitted owners.now kept) }
{
    refuse_if(fitted, Refusal::AlreadyFitted, 0)?;
    refuse_if(owners.len() != 32, Refusal::FittingIllFormed, 32)?;
    check_owners(owners)?;
    refuse_if(names_filled_in(kept), Refusal::FittingIllFormed, 33)
}
