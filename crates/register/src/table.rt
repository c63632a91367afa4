//! The table of a register.
ghost use Rattle.std.specs.Prelude.{◌≡◌, ◌≤◌, length, take};
ghost use Rattle.numbered.specs.Rows.{Rises};

use grants::Grant;

/// The grants on record, at most 96: the first `count` rows. Their numbers rise strictly.
// stays: the functions of `numbered` promise for any slice with any count, also one past its end, which a vector of
// the kit has not
#[derive(Drop)]
pub struct Register {
    pub(crate) rows: [Grant; 96],
    pub(crate) count: usize,
    ghost sized: { length rows ≡ 96 },
    ghost within: { count ≤ 96 },
    ghost rises: { Rises (λ g. g.number) (take count rows) },
}
