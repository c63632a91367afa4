//! One row of a sheet: the "and" of five tests.
ghost use Rattle.std.specs.Prelude.{◌≡◌, cond};
ghost use Rattle.sheets.specs.Rows.{hours_of, days_of, groups_of, path_of, barred_of, row_says, first_bad};

use conditions::truth::Truth;
use states::state::{DAY, GRANTEE, GROUPS, PATH, State, TIME};

/// The six parts of a row, numbered from 1 in this order: the first and the last minute, a set of
/// seven days, a set of 16 groups, the panel mark (1: only the trusted panel), and the person who
/// may not receive (0: nobody is barred).
#[derive(Clone, Copy, Debug, Default)]
pub struct Row {
    pub from: u16,
    pub to: u16,
    pub days: u8,
    pub groups: u16,
    pub path: u8,
    pub barred: u8,
}

/// A test of a row, which is true where it asks nothing.
fn unless(asks_nothing: bool, said: Truth) -> Truth
    ensures { result ≡ cond asks_nothing Truth.True said }
{
    if asks_nothing { Truth::True } else { said }
}

impl Row {
    fn hours(&self, state: &State) -> Truth
        ensures { result ≡ hours_of self.now state.now }
    {
        let within = Truth::within(state.known(TIME), self.from, self.to);
        unless(self.from == 0 && self.to == 1439, within)
    }

    fn on_days(&self, state: &State) -> Truth
        ensures { result ≡ days_of self.now state.now }
    {
        let in_days = state
            .known(DAY)
            .map(|day| day < 8 && (self.days >> day) % 2 == 1);
        unless(self.days == 127, Truth::from(in_days))
    }

    fn in_groups(&self, state: &State) -> Truth
        ensures { result ≡ groups_of self.now state.now }
    {
        let holds_all = state
            .known(GROUPS)
            .map(|groups| self.groups & groups == self.groups);
        unless(self.groups == 0, Truth::from(holds_all))
    }

    fn on_path(&self, state: &State) -> Truth
        ensures { result ≡ path_of self.now state.now }
    {
        unless(self.path == 0, Truth::within(state.known(PATH), 1, 1))
    }

    fn not_barred(&self, state: &State) -> Truth
        ensures { result ≡ barred_of self.now state.now }
    {
        let is_other = state
            .known(GRANTEE)
            .map(|person| person != u16::from(self.barred));
        unless(self.barred == 0, Truth::from(is_other))
    }

    /// The "and" of the five tests; one that asks nothing is true.
    pub(crate) fn truth(&self, state: &State) -> Truth
        ensures { result ≡ row_says self.now state.now }
    {
        self.hours(state)
            .and(self.on_days(state))
            .and(self.in_groups(state))
            .and(self.on_path(state))
            .and(self.not_barred(state))
    }

    /// The number of the first part out of range.
    pub(crate) fn first_bad(&self) -> Option<usize>
        ensures { result ≡ first_bad self.now }
    {
        if self.from > 1439 {
            Some(1)
        } else if self.to > 1439 {
            Some(2)
        } else if self.days > 127 {
            Some(3)
        } else if self.path > 1 {
            Some(5)
        } else if self.barred > 200 {
            Some(6)
        } else {
            None
        }
    }
}
