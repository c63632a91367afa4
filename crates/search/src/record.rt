//! Records that can exist.
ghost use Rattle.std.specs.Prelude.{◌≡◌, ◌≤◌, true, false, length, MatchOption};
ghost use Rattle.numbered.specs.Rows.{rises_from};
ghost use Rattle.search.specs.Records.{number_of, is_record};

use grants::Grant;

/// Whether the numbers rise strictly.
fn rises(grants: &[Grant]) -> bool
    ensures { result ≡ rises_from number_of 0 grants.now }
{
    grants.is_sorted_by(|earlier, later| earlier.number < later.number)
}

/// Whether there are at most 96 grants, and their numbers rise.
fn is_record(grants: &[Grant]) -> bool
    ensures { result ≡ is_record grants.now }
{
    grants.len() <= 96 && rises(grants)
}

/// At most 96 grants, whose numbers rise.
#[derive(Clone, Copy)]
pub(crate) struct Record<'a> {
    pub grants: &'a [Grant],
    ghost few: { length grants.now ≤ 96 },
    ghost is: { is_record grants.now ≡ true },
}

impl<'a> Record<'a> {
    /// The grants as a record, if they are one.
    pub(crate) fn of(grants: &'a [Grant]) -> Option<Record<'a>>
        ensures { MatchOption result (is_record grants.now ≡ false) (λ r. r.grants.now ≡ grants.now) }
    {
        if is_record(grants) {
            Some(Record { grants })
        } else {
            None
        }
    }
}
