//! A plan, and the best chain over it.
ghost use Rattle.std.specs.Prelude.{◌≡◌, ℕ, ◌<◌, min, not, ◌&&◌, ◌==◌, nat_lt, bit_and};
ghost use Rattle.places.specs.Sets.{member};
ghost use Rattle.paths.specs.Chains.{Best, link};
ghost use Rattle.paths.specs.Plans.{Given, Leading, step};
ghost use Rattle.paths.specs.Memories.{Layers};

use crate::links::Links;
use crate::memory::Search;
use crate::net::Net;
use crate::plan::{Plan, Step};
use crate::route::Route;
use crate::walk::shortest;
use places::{meet, select, without};

impl Links {
    /// The places that lead to the person.
    fn to(&self, person: u8) -> u128
        ensures { Leading self.now person result }
    {
        select(&self.links[..self.count], |link| link.taker == person)
    }

    /// The places that are given by the person.
    fn by(&self, person: u8) -> u128
        ensures { Given self.now person result }
    {
        select(&self.links[..self.count], |link| link.giver == person)
    }
}

/// No chain has more than eight grants.
fn limit(most: usize) -> usize
    ensures { result ≡ min most 8 }
{
    most.min(8)
}

impl Plan {
    /// Makes links ready for searches.
    pub fn new(links: Links) -> Plan
        ensures { result.links ≡ links }
    {
        let mut steps = [Step { keep: 0, onward: 0 }; 96];
        for (i, link) in links.links.iter().enumerate() {
            steps[i] = Step {
                keep: without(link.row, links.to(link.taker)),
                onward: links.by(link.taker),
            };
        }
        Plan { links, steps }
    }

    /// The places of `base` that a place of `set` can follow.
    fn before(&self, set: u128, base: u128) -> u128
        ensures { (i : ℕ) → i < 96 → member result i ≡ (not (bit_and (step self.now.steps i).onward set == 0) && member base i) }
    {
        meet(
            select(&self.steps, |step| meet(step.onward, set) != 0),
            base,
        )
    }

    /// For each number of steps below eight, the places of `base` after which the target may be so
    /// many away over places of `base`.
    // stays: a loop over `k`, since each layer is made from the one before it in the same array.
    fn layers(&self, last: u128, base: u128) -> [u128; 8]
        ensures { Layers self.now.steps last base 7 result }
    {
        let mut near = [meet(last, base); 8];
        for k in 0..7usize {
            near[k + 1] = self.before(near[k], base);
        }
        near
    }

    fn net(&self, target: u8, base: u128) -> Net<'_>
        ensures plan { result.plan.now ≡ self.now }
        ensures target { result.target ≡ target }
        ensures base { result.base ≡ base }
    {
        let last = self.links.to(target);
        Net {
            plan: self,
            near: self.layers(last, base),
            target,
            last,
            base,
        }
    }

    /// The best chain from the owner to the target over the allowed places: the one of fewest
    /// grants, then the one with the lower place at the first difference. It has at most `most`
    /// grants, and never more than eight.
    pub fn best(&self, owner: u8, target: u8, allowed: u128, most: usize) -> Option<Route>
        ensures { Best self.now.links owner target allowed (min most 8) result }
    {
        let start = without(allowed, self.links.to(owner));
        let net = self.net(target, start);
        let search = Search {
            person: owner as u128,
            allowed: start,
        };
        shortest(&net, search, self.links.by(owner), limit(most))
    }
}
