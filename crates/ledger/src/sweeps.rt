//! What an ended grant takes with it: the places of the grants that stay, and the count of orphans.
ghost use Rattle.std.specs.Prelude.{◌≡◌, ℕ, ◌<◌, ◌≤◌, length};
ghost use Rattle.places.specs.Sets.{member};
ghost use Rattle.plain.specs.Record.{is_resting};
ghost use Rattle.search.specs.Records.{at};
ghost use Rattle.ledger.specs.Sweeps.{stays_at, place_before, is_orphan, orphans_from};

use grants::{Grant, Mode};
use places::{has, join, select};

/// Whether a grant of this mode rests where it does not stand.
fn is_resting(mode: Mode) -> bool
    ensures { result ≡ is_resting mode }
{
    matches!(mode, Mode::Resting)
}

/// The places of the grants that stay where just those of `standing` stand.
pub(crate) fn staying(grants: &[Grant], standing: u128) -> u128
    requires { length grants.now ≤ 96 }
    ensures { (i : ℕ) → i < length grants.now → member result i ≡ stays_at standing i (at grants.now i) }
{
    join(select(grants, |grant| is_resting(grant.mode)), standing)
}

/// The place that place `i` had before the row at `gone` was taken out.
fn place_before(gone: usize, i: usize) -> usize
    requires { i < 96 }
    ensures { result ≡ place_before gone i }
{
    if i < gone { i } else { i + 1 }
}

/// Whether place `i` is in the first set, as it was, and not in the second.
fn is_orphan(before: u128, gone: usize, after: u128, i: usize) -> bool
    requires { i < 96 }
    ensures { result ≡ is_orphan before gone after i }
{
    has(before, place_before(gone, i)) && !has(after, i)
}

/// How many of `count` places are in the first set, as they were before the row at `gone` was taken
/// out, and not in the second.
pub(crate) fn orphans(before: u128, gone: usize, after: u128, count: usize) -> u32
    requires { count ≤ 96 }
    ensures { result ≡ orphans_from (is_orphan before gone after) 0 count }
{
    (0..count)
        .filter(|i| is_orphan(before, gone, after, *i))
        .count() as u32
}
