//! What a refusal says: which of the seventeen it is, where, and which layer refused.
#![tactic(auto)]

ghost use Rattle.std.specs.Prelude.{◌≡◌, Some};
ghost use Rattle.faults.specs.Faults.{number_of, layer_of, fault, printed};

use std::error::Error;
use std::fmt;

/// The seventeen reasons to refuse, in the order of their checks.
#[derive(Clone, Copy, Debug, PartialEq, Eq)]
pub enum Refusal {
    CommandIllFormed,
    NotAPerson,
    NoSuchHook,
    ValueOutOfRange,
    NoSuchCondition,
    GranteeIsCallerOrOwner,
    NoSuchGrant,
    NotTheGrantor,
    NumbersSpent,
    RecordFull,
    NoChain,
    KeyNotIn,
    KeyNotOut,
    NotPromised,
    AlreadyFitted,
    FittingIllFormed,
    ConditionsIllFormed,
}

/// The layer that refused.
#[derive(Clone, Copy, Debug, PartialEq, Eq)]
pub enum Layer {
    Command,
    Conditions,
    Cabinet,
}

/// One refusal with its place. What a place counts (bytes, tags, variables, hooks, grants)
/// depends on the reason. Upper layers pass a fault on whole, by `?`.
#[derive(Clone, Copy, Debug, PartialEq, Eq)]
pub struct Fault {
    pub refusal: Refusal,
    pub place: usize,
    pub layer: Layer,
}

impl Refusal {
    /// The number by which a refusal is printed.
    pub fn number(self) -> u8
        ensures { result ≡ number_of self }
    {
        match self {
            Refusal::CommandIllFormed => 1,
            Refusal::NotAPerson => 2,
            Refusal::NoSuchHook => 3,
            Refusal::ValueOutOfRange => 4,
            Refusal::NoSuchCondition => 5,
            Refusal::GranteeIsCallerOrOwner => 6,
            Refusal::NoSuchGrant => 7,
            Refusal::NotTheGrantor => 8,
            Refusal::NumbersSpent => 9,
            Refusal::RecordFull => 10,
            Refusal::NoChain => 11,
            Refusal::KeyNotIn => 12,
            Refusal::KeyNotOut => 13,
            Refusal::NotPromised => 14,
            Refusal::AlreadyFitted => 15,
            Refusal::FittingIllFormed => 16,
            Refusal::ConditionsIllFormed => 17,
        }
    }

    /// The layer that refuses for this reason.
    fn layer(self) -> Layer
        ensures { result ≡ layer_of self }
    {
        match self {
            Refusal::CommandIllFormed => Layer::Command,
            Refusal::ConditionsIllFormed => Layer::Conditions,
            _ => Layer::Cabinet,
        }
    }

    /// The fault of this reason at `place`.
    pub fn at(self, place: usize) -> Fault
        ensures { result ≡ fault self place }
    {
        Fault {
            refusal: self,
            place,
            layer: self.layer(),
        }
    }
}

/// A refusal as it is printed: "no", its number and its place.
impl fmt::Display for Fault {
    ghost output = { λ f. Some (printed f) };

    fn fmt<W: fmt::Write>(&self, f: &mut fmt::Formatter<W>) -> fmt::Result {
        let number = self.refusal.number();
        let place = self.place;
        write!(f, "no {number} {place}")
    }
}

impl Error for Fault {}
