//! A slip: the promise of one key to one person.
ghost use Rattle.std.specs.Prelude.{◌≡◌};
ghost use Rattle.controller.specs.Slips.{spent_by};

use faults::Fault;

/// The promise of a hook's key to a person, who reached it by a chain of `length` grants. Only a
/// draw hands one out. It cannot be copied or let go: it is spent by taking or leaving the key.
// stays: a slip of its own, with what refuses and spends it, beside that of the loans, since a type that two crates share
// needs a maker and a spender that anybody may call, and a cabinet's slip has neither
pub struct Slip {
    pub(crate) hook: u8,
    pub(crate) person: u8,
    pub(crate) length: u8,
}

/// A slip that was refused comes back whole, with the fault.
pub struct RefusedSlip {
    pub fault: Fault,
    pub slip: Slip,
}

impl Slip {
    pub fn hook(&self) -> u8
        ensures { result ≡ self.now.hook }
    {
        self.hook
    }

    pub fn person(&self) -> u8
        ensures { result ≡ self.now.person }
    {
        self.person
    }

    pub fn length(&self) -> u8
        ensures { result ≡ self.now.length }
    {
        self.length
    }

    /// The slip is spent where the event was accepted, and comes back whole where it was refused.
    pub(crate) fn spend(self, happened: Result<(), Fault>) -> Result<(), RefusedSlip>
        ensures { result ≡ spent_by self happened }
    {
        match happened {
            Ok(()) => {
                let Slip {
                    hook: _,
                    person: _,
                    length: _,
                } = self;
                Ok(())
            }
            Err(fault) => Err(RefusedSlip { fault, slip: self }),
        }
    }
}
