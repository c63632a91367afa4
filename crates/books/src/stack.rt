//! The values that wait while a condition is worked out: eight at most.
ghost use Rattle.std.specs.Prelude.{◌≡◌, ◌+◌, ◌-◌, ◌<◌, ◌≤◌, [], length, take};
ghost use Rattle.books.specs.Trees.{member};
ghost use Rattle.books.specs.Items.{Suits};
ghost use Rattle.books.specs.Stacks.{top, applied};

use crate::item::Item;
use arrayvec::ArrayVec;
use conditions::truth::Truth;
use states::state::{GROUPS, State};

/// The values that wait, the last of them on top.
#[derive(Drop)]
pub(crate) struct Stack {
    values: ArrayVec<Truth, 8>,
}

/// Whether a set of groups has group `n`; unknown of an unknown set.
fn in_group(groups: Option<u16>, n: u8) -> Truth
    requires { n < 16 }
    ensures { result ≡ member groups n }
{
    Truth::from(groups.map(|x| (x >> n) % 2 == 1))
}

impl Stack {
    /// A stack on which nothing waits.
    pub(crate) fn new() -> Stack
        ensures { result.values.items ≡ [] }
    {
        Stack {
            values: ArrayVec::new(),
        }
    }

    /// Takes the value on top.
    pub(crate) fn pop(&mut self) -> Truth
        requires { 1 ≤ length self.old.values.items }
        ensures value { result ≡ top self.old.values.items 1 }
        ensures rest { self.new.values.items ≡ take (length self.old.values.items - 1) self.old.values.items }
    {
        self.values.pop().unwrap()
    }

    /// The stack after one item.
    pub(crate) fn apply(&mut self, item: Item, state: &State)
        requires { (Suits item (length self.old.values.items)) × (length self.old.values.items ≤ 8) }
        ensures { self.new.values.items ≡ applied item state.now self.old.values.items }
    {
        let value = match item {
            Item::Range(v, low, high) => Truth::within(state.known(v), low, high),
            Item::Group(n) => in_group(state.known(GROUPS), n),
            Item::And => {
                let second = self.pop();
                self.pop().and(second)
            }
            Item::Or => {
                let second = self.pop();
                self.pop().or(second)
            }
            Item::Not => self.pop().not(),
        };
        self.values.push(value);
    }
}
