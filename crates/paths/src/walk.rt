//! The search itself: length by length, each length depth-first by rising place.
ghost use Rattle.std.specs.Prelude.{◌≡◌, ◌≤◌, length, MatchBool};
ghost use Rattle.paths.specs.Plans.{Given};
ghost use Rattle.paths.specs.Steps.{First, Never, Shortest};
ghost use Rattle.paths.specs.Memories.{Knows, Inside};

use crate::memory::{FRESH, Failures, Search, is_known, note};
use crate::net::Net;
use crate::route::Route;
use places::{Places, meet};

/// The first way of just `path.len()` steps to the target, into `path`. `from` has the places that
/// the person of the search gave. `memory` has the searches that failed before, one level for each
/// number of steps left.
// stays: path and memory apart, since the path is the answer and is copied out whole, and the memory is not.
pub(crate) fn walk(
    net: &Net,
    search: Search,
    from: u128,
    memory: &mut [Failures],
    path: &mut [u8],
) -> bool
    requires inside { Inside net.now.base search.allowed }
    requires short { length path.old ≤ 8 }
    requires from { Given net.now.plan.now.links search.person from }
    requires levels { length memory.old ≡ length path.old }
    requires knows { Knows net.now.plan.now net.now.target memory.old }
    ensures found { MatchBool result (First net.now.plan.now net.now.target search.allowed search.person path.new) (Never net.now.plan.now net.now.target search.allowed search.person (length path.old)) }
    ensures knows { Knows net.now.plan.now net.now.target memory.new }
{
    if path.len() == 0 {
        return search.person == net.target as u128;
    }
    if meet(search.allowed, net.last) == 0 {
        return false;
    }
    if is_known(&memory[0], &search) {
        return false;
    }
    let places = meet(meet(search.allowed, from), net.near[path.len() - 1]);
    for i in (Places { rest: places }) {
        let step = net.plan.steps[i];
        let narrow = meet(search.allowed, step.keep);
        let rest = Search {
            person: net.plan.links.links[i].taker as u128,
            allowed: narrow,
        };
        if walk(net, rest, step.onward, &mut memory[1..], &mut path[1..]) {
            path[0] = i as u8;
            return true;
        }
    }
    note(&mut memory[0], search);
    false
}

/// The first of the shortest ways of at most `most` steps.
// stays: a loop over the number of steps, which counts no index; each turn has a memory and a path of its own.
pub(crate) fn shortest(net: &Net, search: Search, from: u128, most: usize) -> Option<Route>
    requires most { most ≤ 8 }
    requires inside { Inside net.now.base search.allowed }
    requires from { Given net.now.plan.now.links search.person from }
    ensures { Shortest net.now.plan.now net.now.target search.allowed search.person most result }
{
    for k in 0..most + 1 {
        let mut memory = [FRESH; 8];
        let mut path = [0u8; 8];
        if walk(net, search, from, &mut memory[0..k], &mut path[0..k]) {
            return Some(Route {
                places: path,
                length: k,
            });
        }
    }
    None
}
