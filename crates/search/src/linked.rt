//! The grants as links.
ghost use Rattle.std.specs.Prelude.{◌≡◌, ℕ, ◌<◌, ◌≤◌, length, slice_index};
ghost use Rattle.places.specs.Sets.{member};
ghost use Rattle.search.specs.Asked.{Linked};

use crate::record::Record;
use paths::links::{Link, Links};
use places::{has, select};

/// The places whose column has place `i`.
fn row_of(columns: &[u128; 96], i: usize) -> u128
    ensures { (j : ℕ) → j < 96 → member result j ≡ member (slice_index columns.now j) i }
{
    select(columns, |column| has(*column, i))
}

impl Record<'_> {
    /// The links of the grants: who gave, who was given, and the columns as rows.
    pub(crate) fn links(&self, columns: &[u128; 96]) -> Links
        ensures { Linked self.now.grants.now columns.now result }
    {
        let mut links = [Link {
            giver: 0,
            taker: 0,
            row: 0,
        }; 96];
        for (i, grant) in self.grants.iter().enumerate() {
            links[i] = Link {
                giver: grant.grantor,
                taker: grant.grantee,
                row: row_of(columns, i),
            };
        }
        Links {
            links,
            count: self.grants.len(),
        }
    }
}
