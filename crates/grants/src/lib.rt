//! A grant: what one person gave another on a hook, with its limits.
#![tactic(auto)]

ghost use Rattle.std.specs.Prelude.{◌≡◌};
ghost use Rattle.grants.specs.Blank.{blank};

use states::state::State;

pub mod number;
pub mod terms;

/// What becomes of a grant that no chain justifies any more.
#[derive(Clone, Copy, Debug, PartialEq, Eq)]
pub enum Mode {
    /// Letter E: it leaves the record.
    Expiring,
    /// Letter R: it rests on the record, and stands again when a chain justifies it.
    Resting,
}

/// One grant on record. `execute` is the condition for drawing the key, `onward` the condition
/// for granting it on; both are numbers of conditions. `state` is the kept state of the call
/// that made it.
#[derive(Clone, Copy, Debug)]
pub struct Grant {
    pub number: u32,
    pub hook: u8,
    pub grantor: u8,
    pub grantee: u8,
    pub execute: u16,
    pub onward: u16,
    pub mode: Mode,
    pub state: State,
}

impl Grant {
    /// The grant that fills the unused places of a table; no record holds it.
    pub fn blank() -> Grant
        ensures { result ≡ blank }
    {
        Grant {
            number: 0,
            hook: 0,
            grantor: 0,
            grantee: 0,
            execute: 0,
            onward: 0,
            mode: Mode::Expiring,
            state: State { values: [None; 8] },
        }
    }
}
