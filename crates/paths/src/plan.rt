//! Links made ready for any number of searches.
ghost use Rattle.paths.specs.Plans.{Narrowed, Followed};

use crate::links::Links;

/// What no search has to make again: what is left to a chain after a place (what it admits, less
/// the places that lead to its taker once more), and the places that are given by its taker.
#[derive(Clone, Copy)]
pub(crate) struct Step {
    pub keep: u128,
    pub onward: u128,
}

/// Links with a step for each place.
#[derive(Clone, Copy)]
pub struct Plan {
    pub(crate) links: Links,
    pub(crate) steps: [Step; 96],
    ghost narrowed: { Narrowed links steps },
    ghost followed: { Followed links steps },
}
