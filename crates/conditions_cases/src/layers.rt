//! Layers over languages, piled and lent.
use crate::emergency::Emergency;
use crate::samples::{at, long_book, row};
use books::book::Book;
use books::open::office_hours;
use conditions::distrust::Distrust;
use conditions::joined::Joined;
use conditions::language::{Language, holds};
use conditions::truth::Truth::{self, False, True, Unknown};
use sheets::sheet::Sheet;
use states::report::Report;
use states::state::State;
use std::process::Abort;
use std::test::Fail;

/// A sheet of one row: before noon.
fn mornings() -> Sheet {
    let mut sheet = Sheet::new();
    let _ = sheet.add(row((0, 719, 127, 0, 0, 0)));
    sheet
}

/// Compares the first eight truths with a table.
fn check_truths<L: Language>(rt: &impl Abort, language: &L, state: &State, table: &[Truth; 8]) {
    for (n, says) in (0..8u16).zip(table) {
        assert_eq!(rt; language.truth(n, state), *says);
    }
}

#[test]
fn distrust_makes_what_it_names_unknown(rt: HostRuntime) {
    let hours = office_hours();
    let doubted = Distrust {
        below: Book::open(&hours),
        hidden: 0b100,
    };
    check_truths(
        &rt,
        &doubted,
        &at(600),
        &[
            True, False, Unknown, Unknown, Unknown, Unknown, Unknown, Unknown,
        ],
    );
    let other = Distrust {
        below: Book::open(&hours),
        hidden: 0b1111_1011,
    };
    check_truths(
        &rt,
        &other,
        &at(600),
        &[
            True, False, True, Unknown, Unknown, Unknown, Unknown, Unknown,
        ],
    );
}

#[test]
fn distrust_cannot_hide_the_caller_or_the_receiver(rt: HostRuntime) {
    // the caller is 1; the receiver is 2
    let people = [0xC1, 0, 13, 0xB1, 0, 0, 1, 0, 1, 0xB1, 1, 0, 2, 0, 2, 0xB3];
    let doubted = Distrust {
        below: Book::open(&people),
        hidden: 0xFF,
    };
    assert_eq!(rt;
        doubted.truth(2, &Report::default().state(1, Some(2))),
        Truth::True
    );
    assert_eq!(rt;
        doubted.truth(2, &Report::default().state(1, None)),
        Truth::Unknown
    );
}

#[test]
fn joined_numbers_stand_behind_the_first(rt: HostRuntime) {
    let hours = office_hours();
    let both = Joined {
        first: Book::open(&hours),
        second: mornings(),
    };
    assert_eq!(rt; both.count(), 6);
    check_truths(
        &rt,
        &both,
        &at(800),
        &[True, False, True, True, False, False, Unknown, Unknown],
    );
    check_truths(
        &rt,
        &both,
        &at(100),
        &[True, False, False, True, False, True, Unknown, Unknown],
    );
}

#[test]
fn joined_ends_at_1024(rt: HostRuntime) -> Result<(), Fail> {
    let bytes = long_book(rt.alloc(), 1020, 2)?;
    let joined = Joined {
        first: Book::open(bytes.as_slice()),
        second: mornings(),
    };
    // 1,022 numbers of the first, then true and false of the second; its row would be 1,024
    assert_eq!(rt; joined.count(), 1024);
    assert_eq!(rt; joined.truth(1022, &at(0)), Truth::True);
    assert_eq!(rt; joined.truth(1023, &at(0)), Truth::False);
    assert_eq!(rt; joined.truth(1024, &at(0)), Truth::Unknown);
    Ok(())
}

#[test]
fn a_pile_three_deep_of_lent_languages(rt: HostRuntime) {
    let hours = office_hours();
    let book = Book::open(&hours);
    let sheet = mornings();
    let under = Joined {
        first: Emergency,
        second: &sheet,
    };
    let doubted = Distrust {
        below: &under,
        hidden: 0b100,
    };
    let pile = Joined {
        first: &doubted,
        second: &book,
    };
    let alarm = Report {
        time: Some(700),
        status: Some(1),
        ..Report::default()
    };
    assert_eq!(rt; pile.count(), 9);
    check_truths(
        &rt,
        &pile,
        &alarm.state(1, None),
        &[True, False, True, True, False, Unknown, True, False],
    );
    assert_eq!(rt; pile.truth(8, &alarm.state(1, None)), Truth::True);
    assert!(rt; holds(&pile, 8, &at(700)));
    assert!(rt; !holds(&pile, 5, &at(700)));
}
