//! Three-valued truth, as in SQL.
ghost use Rattle.std.specs.Prelude.{◌≡◌, Some};
ghost use Rattle.conditions.specs.Truths.{conj, disj, neg, is_true, tested, within, word_of};

use std::fmt;

/// What a condition says of a state.
// stays: no Option<bool>, whose "and" and "or" mean another thing than those of three truths
#[derive(Clone, Copy, Debug, Default, PartialEq, Eq)]
pub enum Truth {
    #[default]
    Unknown,
    False,
    True,
}

impl Truth {
    /// The "and": false if either is, true if both are.
    pub fn and(self, other: Truth) -> Truth
        ensures { result ≡ conj self other }
    {
        match (self, other) {
            (Truth::False, _) | (_, Truth::False) => Truth::False,
            (Truth::True, Truth::True) => Truth::True,
            _ => Truth::Unknown,
        }
    }

    /// The "or": true if either is, false if both are.
    pub fn or(self, other: Truth) -> Truth
        ensures { result ≡ disj self other }
    {
        match (self, other) {
            (Truth::True, _) | (_, Truth::True) => Truth::True,
            (Truth::False, Truth::False) => Truth::False,
            _ => Truth::Unknown,
        }
    }

    /// The "not": unknown stays unknown.
    pub fn not(self) -> Truth
        ensures { result ≡ neg self }
    {
        match self {
            Truth::True => Truth::False,
            Truth::False => Truth::True,
            Truth::Unknown => Truth::Unknown,
        }
    }

    /// Unknown is not true.
    pub fn is_true(self) -> bool
        ensures { result ≡ is_true self }
    {
        matches!(self, Truth::True)
    }

    /// Whether a value lies from `low` to `high`, both included; unknown of an unknown value.
    pub fn within(value: Option<u16>, low: u16, high: u16) -> Truth
        ensures { result ≡ within value low high }
    {
        Truth::from(value.map(|x| low <= x && x <= high))
    }
}

/// What a test says of a value is true or false, and of an unknown value unknown.
impl From<Option<bool>> for Truth {
    ghost from_gives = { λ o t. t ≡ tested o };

    fn from(said: Option<bool>) -> Truth {
        match said {
            None => Truth::Unknown,
            Some(true) => Truth::True,
            Some(false) => Truth::False,
        }
    }
}

/// A truth as it is printed, in a word.
impl fmt::Display for Truth {
    ghost output = { λ t. Some (word_of t) };

    fn fmt<W: fmt::Write>(&self, f: &mut fmt::Formatter<W>) -> fmt::Result {
        match self {
            Truth::True => write!(f, "true"),
            Truth::False => write!(f, "false"),
            Truth::Unknown => write!(f, "unknown"),
        }
    }
}
