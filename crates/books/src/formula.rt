//! A condition's bytes: whether they are well formed, and what they say of a state.
ghost use Rattle.std.specs.Prelude.{◌≡◌, ◌&&◌, true, length, is_some, ◌==◌};
ghost use Rattle.std.specs.Iterator.{at_most};
ghost use Rattle.books.specs.Items.{Reads};
ghost use Rattle.books.specs.Readings.{tree, truth_of};

use crate::item::{Item, next_item};
use crate::stack::Stack;
use conditions::truth::Truth;
use states::state::State;

/// The bytes of a condition that are still to be read, where `waiting` values wait. Its items end
/// with the bytes, or where none stands that suits the values.
#[derive(Drop)]
struct ItemsLeft<'a> {
    rest: &'a [u8],
    waiting: usize,
}

impl<'a> Iterator for ItemsLeft<'a> {
    type Item = Item;

    ghost next_gives = { λ s r t. Reads s.rest.now s.waiting r t.rest.now t.waiting };

    ghost remaining = { λ s. at_most (length s.rest.now) };

    fn next(&mut self) -> Option<Item> {
        let item = next_item(self.rest, self.waiting)?;
        self.rest = &self.rest[item.width()..];
        self.waiting = item.waiting_after(self.waiting);
        Some(item)
    }
}

/// The items of a condition, from its first byte on.
fn items_of(bytes: &[u8]) -> ItemsLeft<'_>
    ensures rest { result.rest.now ≡ bytes.now }
    ensures waiting { result.waiting ≡ 0 }
{
    ItemsLeft {
        rest: bytes,
        waiting: 0,
    }
}

/// Whether all bytes are read and just one value waits, as it must at the end.
fn is_ended(items: &ItemsLeft<'_>) -> bool
    ensures { result ≡ (length items.now.rest.now == 0 && items.now.waiting == 1) }
{
    items.rest.is_empty() && items.waiting == 1
}

/// Whether the bytes spell a condition.
pub(crate) fn is_formula(bytes: &[u8]) -> bool
    ensures { result ≡ is_some (tree bytes.now) }
{
    let mut items = items_of(bytes);
    while items.next().is_some() {}
    is_ended(&items)
}

/// What a condition says of a state.
pub(crate) fn truth_of(bytes: &[u8], state: &State) -> Truth
    requires { is_some (tree bytes.now) ≡ true }
    ensures { result ≡ truth_of (tree bytes.now) state.now }
{
    let mut stack = Stack::new();
    for item in items_of(bytes) {
        stack.apply(item, state);
    }
    stack.pop()
}
