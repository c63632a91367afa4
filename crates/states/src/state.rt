//! A state, and the parts of it that a set of variables picks out.
ghost use Rattle.std.specs.Prelude.{◌≡◌, ℕ, ◌<◌, Bool};
ghost use Rattle.states.specs.States.{known, names, kept, hidden, only};

use std::array;

/// The variables by number: the caller, the receiver, the minute of the day, the day of the
/// week (Monday 0), the caller's groups (a set of 16), the panel (1: trusted), the certainty
/// of the card in per cent, and the emergency mark.
// stays: a book's bytes, a set of variables and the place of a refusal count variables by these
// numbers, so an enum would be turned back into its number at each of them
pub const USER: u8 = 0;

pub const GRANTEE: u8 = 1;

pub const TIME: u8 = 2;

pub const DAY: u8 = 3;

pub const GROUPS: u8 = 4;

pub const PATH: u8 = 5;

pub const LEVEL: u8 = 6;

pub const STATUS: u8 = 7;

/// What is known of the eight variables.
#[derive(Clone, Copy, Debug)]
pub struct State {
    pub values: [Option<u16>; 8],
}

/// Whether the set of variables `set`, one bit for each, names variable `v`.
fn is_named(set: u8, v: u8) -> bool
    ensures { result ≡ names set v }
{
    v < 8 && (set >> v) % 2 == 1
}

impl State {
    /// The value of variable `v`, if it is known.
    pub fn known(&self, v: u8) -> Option<u16>
        ensures { result ≡ known self.now v }
    {
        self.values.get(v as usize).copied().flatten()
    }

    /// The state that knows only the variables which pass the test.
    fn only<F: Fn(u8) -> bool>(&self, test: F) -> State
        requires { F.IsAlwaysCallable test }
        ensures { (t : ℕ → Bool) → ((v : ℕ) (b : Bool) → v < 8 → F.post test v b → b ≡ t v) → result ≡ only t self.now }
    {
        State {
            values: array::from_fn(|v| if test(v as u8) { self.values[v] } else { None }),
        }
    }

    /// The kept part: variables that `set` does not name are unknown; 0 and 1 are always kept.
    pub fn kept(&self, set: u8) -> State
        ensures { result ≡ kept set self.now }
    {
        self.only(|v| v < 2 || is_named(set, v))
    }

    /// The rest: variables that `set` names are unknown; 0 and 1 cannot be hidden.
    pub fn hidden(&self, set: u8) -> State
        ensures { result ≡ hidden set self.now }
    {
        self.only(|v| v < 2 || !is_named(set, v))
    }
}
