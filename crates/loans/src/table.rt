//! The table of the loans.
ghost use Rattle.std.specs.Prelude.{◌≡◌, ◌≤◌, length, take};
ghost use Rattle.numbered.specs.Rows.{Rises, AllBelow};

use numbered::Numbered;

/// Why a key is not simply in.
// stays: an `Option` of the person would not say that a key without one is out
#[derive(Clone, Copy)]
pub(crate) enum Lent {
    /// It is promised to this person.
    Promised(u8),
    /// It is out.
    Out,
}

/// One key that is promised, or out.
#[derive(Clone, Copy)]
pub(crate) struct Loan {
    pub(crate) hook: u8,
    pub(crate) lent: Lent,
}

impl Numbered for Loan {
    ghost label = { λ l. l.hook };

    fn number(&self) -> u32 {
        self.hook as u32
    }
}

/// The loans, at most one for each of the 32 hooks: the first `count` rows, in the order of the
/// hooks. A hook without a loan is in.
// stays: an array with a count, as in the register of grants
#[derive(Drop)]
pub struct Loans {
    pub(crate) rows: [Loan; 32],
    pub(crate) count: usize,
    ghost sized: { length rows ≡ 32 },
    ghost within: { count ≤ 32 },
    ghost rises: { Rises (λ l. l.hook) (take count rows) },
    ghost below: { AllBelow (λ l. l.hook) 32 (take count rows) },
}
