//! Sets of places: place `i` is in the set if bit `i` of a number is 1.
// stays: plain functions on a number, and no type of their own, since records, plans and registers take and give such numbers.
#![tactic(auto)]

ghost use Rattle.std.specs.Prelude.{◌≡◌, ℕ, ◌<◌, ◌≤◌, false, not, ◌&&◌, ◌||◌, length, ◌==◌, nat_lt, bit_and, bit_xor, slice_index_or};
ghost use Rattle.std.specs.Fn.{FnReturnsAt};
ghost use Rattle.std.specs.Iterator.{at_most};
ghost use Rattle.places.specs.Sets.{member, IsFirst, TakesFirst};

/// Whether place `i` is in the set. No set has a place from 128 on.
pub fn has(set: u128, i: usize) -> bool
    ensures { result ≡ member set i }
{
    i < 128 && (set >> i) % 2 == 1
}

/// The set with place `i`, if that is below 128.
pub fn with_place(set: u128, i: usize) -> u128
    ensures { (j : ℕ) → member result j ≡ (member set j || (nat_lt i 128 && (j == i))) }
{
    if i < 128 { set | (1u128 << i) } else { set }
}

/// The places that both sets have.
pub fn meet(set: u128, other: u128) -> u128
    ensures is { result ≡ bit_and set other }
    ensures law { (j : ℕ) → member result j ≡ (member set j && member other j) }
{
    set & other
}

/// The places that one of the sets has.
pub fn join(set: u128, other: u128) -> u128
    ensures { (j : ℕ) → member result j ≡ (member set j || member other j) }
{
    set | other
}

/// The set without the places of another.
pub fn without(set: u128, gone: u128) -> u128
    ensures is { result ≡ bit_xor set (bit_and set gone) }
    ensures law { (j : ℕ) → member result j ≡ (member set j && not (member gone j)) }
{
    set ^ (set & gone)
}

/// The places, below 128, of the items that pass the test.
pub fn select<T, F: Fn(&T) -> bool>(items: &[T], test: F) -> u128
    requires { F.IsAlwaysCallable test }
    ensures passing { (i : ℕ) (d : T) → i < length items.now → i < 128 → FnReturnsAt F.Fn test (slice_index_or items.now i d) (member result i) }
    ensures behind { (i : ℕ) → length items.now ≤ i → member result i ≡ false }
{
    let mut set = 0u128;
    for (i, item) in items.iter().enumerate() {
        if test(item) {
            set = with_place(set, i);
        }
    }
    set
}

/// The lowest place of the set.
pub fn first(set: u128) -> Option<usize>
    ensures { IsFirst set result }
{
    if set == 0 {
        return None;
    }
    Some(set.trailing_zeros() as usize)
}

/// The places of a set, by rising number: `rest` has those that are still to come.
#[derive(Clone, Copy)]
pub struct Places {
    pub rest: u128,
}

impl Iterator for Places {
    type Item = usize;

    ghost next_gives = { λ s r t. TakesFirst s.rest r t.rest };

    ghost remaining = { λ s. at_most s.rest };

    fn next(&mut self) -> Option<usize> {
        let i = first(self.rest)?;
        self.rest = without(self.rest, with_place(0, i));
        Some(i)
    }
}
