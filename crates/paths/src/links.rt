//! The grants that a search goes over, by place.
ghost use Rattle.std.specs.Prelude.{◌≤◌};

/// A grant as a search sees it: who gave, who was given, and the places that it admits behind it,
/// as a set (place `i` is in it if bit `i` is 1).
#[derive(Clone, Copy)]
pub struct Link {
    pub giver: u8,
    pub taker: u8,
    pub row: u128,
}

/// The grants by place. Only the first `count` places are used.
// stays: an array with a count, since a plan lies in fixed memory, without a heap, and is copied whole.
#[derive(Clone, Copy)]
pub struct Links {
    pub links: [Link; 96],
    pub count: usize,
    ghost within: { count ≤ 96 },
}
