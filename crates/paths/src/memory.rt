//! A memory of searches that failed.
ghost use Rattle.std.specs.Prelude.{◌≡◌, ℕ, true, ◌==◌, bit_and};
ghost use Rattle.paths.specs.Steps.{Never};
ghost use Rattle.paths.specs.declared.plan.Plan.{Plan};
ghost use Rattle.paths.specs.Memories.{Failed};

/// A search: from whom, and over which set of places. The person is as wide as the set, so that no byte between them lies
/// idle: a blank memory is then filled with zeros at once, and not written field by field.
#[derive(Clone, Copy)]
pub(crate) struct Search {
    pub person: u128,
    pub allowed: u128,
}

/// The last 32 searches that failed with one number of steps left.
// stays: an array with the place of the oldest, since a full memory forgets it for a newer one.
#[derive(Clone, Copy)]
pub(crate) struct Failures {
    pub noted: [Search; 32],
    pub next: usize,
}

pub(crate) const FRESH: Failures = Failures {
    noted: [Search {
        person: 0,
        allowed: 0,
    }; 32],
    next: 0,
};

/// Whether every place of `set` is one of `whole`.
fn is_within(set: u128, whole: u128) -> bool
    ensures { result ≡ ((bit_and set whole) == set) }
{
    set & whole == set
}

/// Whether a search that failed was from the same person, over these places and perhaps more.
pub(crate) fn is_known(failures: &Failures, search: &Search) -> bool
    ensures { result ≡ true → (n : Plan) (t k : ℕ) → Failed n t k failures.now → Never n t search.now.allowed search.now.person k }
{
    failures.noted.iter().any(|failure| {
        failure.person == search.person && is_within(search.allowed, failure.allowed)
    })
}

/// Notes a search that failed, in the place of the oldest.
pub(crate) fn note(failures: &mut Failures, search: Search)
    ensures { (n : Plan) (t k : ℕ) → Failed n t k failures.old → Never n t search.allowed search.person k → Failed n t k failures.new }
{
    let j = failures.next % 32;
    failures.noted[j] = search;
    failures.next = j + 1;
}
