//! The grants on record: found, added and removed by number, with their order kept.
#![tactic(auto)]

ghost use Rattle.std.specs.Prelude.{◌≡◌, ◌<◌, ◌≤◌, [], length, take, IfSome, OnErr};
ghost use Rattle.numbered.specs.Rows.{place_of, row_of, without};
ghost use Rattle.numbered.specs.Answers.{insertion, after_insertion, KeptIfNone};
ghost use Rattle.register.specs.Held.{held, numbers, chosen, Appends};

use grants::Grant;
use numbered::NotAdded;
use places::has;

pub mod table;

use table::Register;

impl Register {
    /// A register that holds no grant.
    pub fn new() -> Register
        ensures { held result ≡ [] }
    {
        Register {
            rows: [Grant::blank(); 96],
            count: 0,
        }
    }

    /// The grants on record.
    pub fn rows(&self) -> &[Grant]
        ensures { result.now ≡ held self.now }
    {
        &self.rows[0..self.count]
    }

    /// The place of the grant numbered `n`.
    pub fn find(&self, n: u32) -> Option<usize>
        ensures is { result ≡ place_of numbers n (held self.now) }
        ensures within { IfSome result (λ i. i < length (held self.now)) }
    {
        numbered::find(self.rows(), n)
    }

    /// The grant numbered `n`.
    pub fn get(&self, n: u32) -> Option<Grant>
        ensures { result ≡ row_of numbers n (held self.now) }
    {
        let i = self.find(n)?;
        Some(self.rows[i])
    }

    /// Adds a grant in the order of the numbers; one whose number is above all others comes last.
    pub fn insert(&mut self, grant: Grant) -> Result<(), NotAdded>
        ensures is { result ≡ insertion numbers grant 96 (held self.old) }
        ensures after { held self.new ≡ after_insertion numbers grant (held self.old) result }
        ensures refused { OnErr result (self.new ≡ self.old) }
        ensures law { Appends grant (held self.old) result (held self.new) }
    {
        numbered::insert(&mut self.rows, &mut self.count, grant)
    }

    /// Takes out the grant numbered `n`, and answers it; the later ones move up.
    pub fn remove(&mut self, n: u32) -> Option<Grant>
        ensures is { result ≡ row_of numbers n (held self.old) }
        ensures after { held self.new ≡ without numbers n (held self.old) }
        ensures refused { KeptIfNone result (self.new ≡ self.old) }
    {
        numbered::remove(&mut self.rows, &mut self.count, n)
    }

    /// Keeps the grants whose place is in the set `places`, one bit for each, and takes out the others.
    pub fn retain(&mut self, places: u128)
        ensures { held self.new ≡ chosen places (held self.old) }
    {
        let kept = choose(&mut self.rows, self.count, places);
        self.count = kept;
    }
}

/// Brings those of the first `count` rows whose place is in the set to the front, in their order,
/// and answers how many they are.
fn choose(rows: &mut [Grant], count: usize, places: u128) -> usize
    requires within { count ≤ length rows.old }
    requires few { count ≤ 96 }
    ensures is { take result rows.new ≡ chosen places (take count rows.old) }
    ensures within { result ≤ count }
{
    let mut next = 0;
    // stays: rows move within the slice that is gone over, which an iterator would hold
    for i in 0..count {
        if has(places, i) {
            rows[next] = rows[i];
            next += 1;
        }
    }
    next
}
