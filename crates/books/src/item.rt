//! The items of a condition, in postfix order.
ghost use Rattle.std.specs.Prelude.{◌≡◌, ◌+◌, ◌*◌, ◌<◌, length, IfSome};
ghost use Rattle.books.specs.Items.{item_at, operands, Suits, after};

/// A number of two bytes, the high one first.
pub(crate) fn wide(high: u8, low: u8) -> u16
    ensures { result ≡ 256 * high + low }
{
    u16::from_be_bytes([high, low])
}

/// One item: a test, which adds a value to those that wait, or a connective, which joins them.
#[derive(Clone, Copy, Debug, PartialEq)]
pub(crate) enum Item {
    /// Variable, least and greatest value.
    Range(u8, u16, u16),
    /// The number of a group.
    Group(u8),
    And,
    Or,
    Not,
}

/// The item at the front of `rest`, if it is whole, its operands are in range, and it suits the
/// number of values that wait.
pub(crate) fn next_item(rest: &[u8], waiting: usize) -> Option<Item>
    ensures is { result ≡ item_at rest.now waiting }
    ensures suits { IfSome result (λ i. Suits i waiting × (operands i < length rest.now)) }
{
    match rest {
        [0xB1, v, a, b, c, d, ..] if *v < 8 && waiting < 8 => {
            Some(Item::Range(*v, wide(*a, *b), wide(*c, *d)))
        }
        [0xB2, n, ..] if *n < 16 && waiting < 8 => Some(Item::Group(*n)),
        [0xB3, ..] if waiting >= 2 => Some(Item::And),
        [0xB4, ..] if waiting >= 2 => Some(Item::Or),
        [0xB5, ..] if waiting >= 1 => Some(Item::Not),
        _ => None,
    }
}

impl Item {
    /// How many values wait after the item.
    pub(crate) fn waiting_after(self, waiting: usize) -> usize
        requires { Suits self waiting }
        ensures { result ≡ after self waiting }
    {
        match self {
            Item::Range(_, _, _) | Item::Group(_) => waiting + 1,
            Item::And | Item::Or => waiting - 1,
            Item::Not => waiting,
        }
    }

    /// How many bytes the item takes.
    pub(crate) fn width(self) -> usize
        ensures { result ≡ 1 + operands self }
    {
        match self {
            Item::Range(_, _, _) => 6,
            Item::Group(_) => 2,
            Item::And | Item::Or | Item::Not => 1,
        }
    }
}
