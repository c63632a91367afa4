//! What a caller tells: the six variables that the cabinet does not fill in itself.
ghost use Rattle.std.specs.Prelude.{◌≡◌};
ghost use Rattle.states.specs.Reports.{state_of};

use crate::state::State;

/// The variables 2 to 7, each known or unknown.
#[derive(Clone, Copy, Debug, Default, PartialEq, Eq)]
pub struct Report {
    pub time: Option<u16>,
    pub day: Option<u16>,
    pub groups: Option<u16>,
    pub path: Option<u16>,
    pub level: Option<u16>,
    pub status: Option<u16>,
}

impl Report {
    /// The whole state of a call: the report, with the caller and the receiver (if there is one)
    /// filled in.
    pub fn state(&self, caller: u8, receiver: Option<u8>) -> State
        ensures { result ≡ state_of caller receiver self.now }
    {
        State {
            values: [
                Some(u16::from(caller)),
                receiver.map(u16::from),
                self.time,
                self.day,
                self.groups,
                self.path,
                self.level,
                self.status,
            ],
        }
    }
}
