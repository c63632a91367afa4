//! Whether the known values of a state lie in their ranges.
ghost use Rattle.std.specs.Prelude.{◌≡◌, ◌<◌};
ghost use Rattle.states.specs.States.{least, greatest};
ghost use Rattle.states.specs.Ranges.{out_at, range_check, Ranged};

use crate::state::State;
use faults::{Fault, Refusal};

fn least_of(v: u8) -> u16
    ensures { result ≡ least v }
{
    if v < 2 { 1 } else { 0 }
}

fn greatest_of(v: u8) -> u16
    requires { v < 8 }
    ensures { result ≡ greatest v }
{
    [200, 200, 1439, 6, 65535, 1, 100, 1][v as usize]
}

fn is_out(s: &State, v: u8) -> bool
    requires { v < 8 }
    ensures { result ≡ out_at s.now v }
{
    s.known(v)
        .is_some_and(|n| n < least_of(v) || greatest_of(v) < n)
}

impl State {
    /// Accepts a state whose known values all lie in their ranges, and refuses any other with the
    /// first variable that does not.
    pub fn check_ranges(&self) -> Result<(), Fault>
        ensures is { result ≡ range_check self.now }
        ensures law { Ranged self.now result }
    {
        match (0..8u8).find(|v| is_out(self, *v)) {
            Some(v) => Err(Refusal::ValueOutOfRange.at(v as usize)),
            None => Ok(()),
        }
    }
}
