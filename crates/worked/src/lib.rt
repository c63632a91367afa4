//! Worked cases, proved from the definitions over the bytes of a book.
#![tactic(auto)]

ghost use Rattle.std.specs.Prelude.{◌≡◌};
ghost use Rattle.worked.specs.Site.{site_book};
ghost use Rattle.worked.specs.Cases.{Worked};

/// The bytes of the three conditions.
fn three_conditions() -> [u8; 28]
    ensures { result ≡ site_book }
{
    [
        0xC1, 0, 6, 0xB1, 2, 1, 224, 4, 56, 0xC1, 0, 7, 0xB1, 2, 1, 224, 4, 56, 0xB5, 0xC1, 0, 6,
        0xB1, 5, 0, 1, 0, 1,
    ]
}

/// The book of the worked cases: condition 2, TIME lies from 480 to 1080; condition 3, it does
/// not; condition 4, PATH is 1. What the plain record answers in each case is proved of it.
pub fn site_book() -> [u8; 28]
    ensures is { result ≡ site_book }
    ensures cases { Worked result }
{
    three_conditions()
}
