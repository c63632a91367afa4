//! What the conditions of a book say, known and unknown.
use crate::samples::{Told, told};
use books::book::Book;
use conditions::language::Language;
use conditions::truth::Truth::{self, False, True, Unknown};

// Office hours; their "not"; group 3 and the trusted panel; a day from 9 to 1, which is none;
// office hours or group 3.
static BOOK: [u8; 52] = [
    0xC1, 0, 6, 0xB1, 2, 1, 0xE0, 4, 56, 0xC1, 0, 7, 0xB1, 2, 1, 0xE0, 4, 56, 0xB5, 0xC1, 0, 9,
    0xB2, 3, 0xB1, 5, 0, 1, 0, 1, 0xB3, 0xC1, 0, 6, 0xB1, 3, 0, 9, 0, 1, 0xC1, 0, 9, 0xB1, 2, 1,
    0xE0, 4, 56, 0xB2, 3, 0xB4,
];

/// A condition, what is told of TIME, DAY, GROUPS and PATH, and what the condition says then.
type Case = (u16, Told, Truth);

static SAYS: [Case; 27] = [
    (2, (Some(479), None, None, None), False),
    (2, (Some(480), None, None, None), True),
    (2, (Some(1080), None, None, None), True),
    (2, (Some(1081), None, None, None), False),
    (2, (None, None, None, None), Unknown),
    (3, (Some(479), None, None, None), True),
    (3, (Some(480), None, None, None), False),
    (3, (Some(1080), None, None, None), False),
    (3, (Some(1081), None, None, None), True),
    (3, (None, None, None, None), Unknown),
    (4, (None, None, Some(8), Some(1)), True),
    (4, (None, None, Some(8), Some(0)), False),
    (4, (None, None, Some(8), None), Unknown),
    (4, (None, None, Some(7), None), False),
    (4, (None, None, None, Some(0)), False),
    (4, (None, None, None, Some(1)), Unknown),
    (5, (None, Some(5), None, None), False),
    (5, (None, None, None, None), Unknown),
    (6, (Some(600), None, None, None), True),
    (6, (Some(0), None, None, None), Unknown),
    (6, (Some(0), None, Some(8), None), True),
    (6, (Some(0), None, Some(7), None), False),
    (6, (None, None, Some(7), None), Unknown),
    (0, (None, None, None, None), True),
    (1, (None, None, None, None), False),
    (7, (Some(600), None, Some(8), Some(1)), Unknown),
    (1024, (Some(600), None, Some(8), Some(1)), Unknown),
];

#[test]
fn what_the_conditions_of_a_book_say(rt: HostRuntime) {
    let book = Book::open(&BOOK);
    for (condition, values, says) in &SAYS {
        let state = told(*values).state(1, None);
        assert_eq!(rt; book.truth(*condition, &state), *says);
    }
    assert_eq!(rt; book.count(), 7);
}
