//! Rows of a sheet, at each edge of each part.
use crate::samples::{Parts, Told, ill_formed, row, told};
use conditions::language::Language;
use conditions::truth::Truth::{self, False, True, Unknown};
use faults::Refusal;
use sheets::sheet::Sheet;

/// A row, and its number, or the part that is refused.
static ADDED: [(Parts, Result<u16, usize>); 9] = [
    ((1439, 1439, 127, 0, 0, 0), Ok(2)),
    ((0, 0, 0, 65535, 1, 200), Ok(3)),
    ((1440, 0, 127, 0, 0, 0), Err(1)),
    ((0, 1440, 127, 0, 0, 0), Err(2)),
    ((0, 0, 128, 0, 0, 0), Err(3)),
    ((0, 0, 127, 0, 2, 0), Err(5)),
    ((0, 0, 127, 0, 0, 201), Err(6)),
    ((0, 2000, 255, 0, 9, 255), Err(2)),
    ((0, 1439, 127, 0, 0, 0), Ok(4)),
];

/// A row; what is told of TIME, DAY, GROUPS and PATH; the receiver; and what the row says then.
type Case = (Parts, Told, Option<u8>, Truth);

static SAYS: [Case; 24] = [
    (
        (0, 1439, 127, 0, 0, 0),
        (None, None, None, None),
        None,
        True,
    ),
    (
        (480, 1080, 127, 0, 0, 0),
        (Some(479), None, None, None),
        None,
        False,
    ),
    (
        (480, 1080, 127, 0, 0, 0),
        (Some(480), None, None, None),
        None,
        True,
    ),
    (
        (480, 1080, 127, 0, 0, 0),
        (Some(1080), None, None, None),
        None,
        True,
    ),
    (
        (480, 1080, 127, 0, 0, 0),
        (Some(1081), None, None, None),
        None,
        False,
    ),
    (
        (480, 1080, 127, 0, 0, 0),
        (None, None, None, None),
        None,
        Unknown,
    ),
    (
        (1, 1439, 127, 0, 0, 0),
        (None, None, None, None),
        None,
        Unknown,
    ),
    (
        (1000, 10, 127, 0, 0, 0),
        (Some(1005), None, None, None),
        None,
        False,
    ),
    (
        (0, 1439, 31, 0, 0, 0),
        (None, Some(4), None, None),
        None,
        True,
    ),
    (
        (0, 1439, 31, 0, 0, 0),
        (None, Some(5), None, None),
        None,
        False,
    ),
    (
        (0, 1439, 31, 0, 0, 0),
        (None, None, None, None),
        None,
        Unknown,
    ),
    (
        (0, 1439, 0, 0, 0, 0),
        (None, Some(0), None, None),
        None,
        False,
    ),
    (
        (0, 1439, 127, 5, 0, 0),
        (None, None, Some(7), None),
        None,
        True,
    ),
    (
        (0, 1439, 127, 5, 0, 0),
        (None, None, Some(3), None),
        None,
        False,
    ),
    (
        (0, 1439, 127, 5, 0, 0),
        (None, None, None, None),
        None,
        Unknown,
    ),
    (
        (0, 1439, 127, 32768, 0, 0),
        (None, None, Some(32768), None),
        None,
        True,
    ),
    (
        (0, 1439, 127, 0, 1, 0),
        (None, None, None, Some(1)),
        None,
        True,
    ),
    (
        (0, 1439, 127, 0, 1, 0),
        (None, None, None, Some(0)),
        None,
        False,
    ),
    (
        (0, 1439, 127, 0, 1, 0),
        (None, None, None, None),
        None,
        Unknown,
    ),
    (
        (0, 1439, 127, 0, 0, 9),
        (None, None, None, None),
        Some(9),
        False,
    ),
    (
        (0, 1439, 127, 0, 0, 9),
        (None, None, None, None),
        Some(8),
        True,
    ),
    (
        (0, 1439, 127, 0, 0, 9),
        (None, None, None, None),
        None,
        Unknown,
    ),
    (
        (480, 1080, 127, 0, 1, 0),
        (Some(0), None, None, None),
        None,
        False,
    ),
    (
        (480, 1080, 127, 0, 1, 0),
        (Some(600), None, None, None),
        None,
        Unknown,
    ),
];

#[test]
fn each_part_at_its_greatest_value_and_past_it(rt: HostRuntime) {
    let mut sheet = Sheet::new();
    for (parts, answer) in &ADDED {
        let answer = answer.map_err(|part| Refusal::ConditionsIllFormed.at(part));
        assert_eq!(rt; sheet.add(row(*parts)), answer);
    }
    assert_eq!(rt; sheet.count(), 5);
}

#[test]
fn a_full_sheet_is_said_before_a_bad_part(rt: HostRuntime) {
    let mut sheet = Sheet::new();
    for number in 2..66u16 {
        assert_eq!(rt; sheet.add(row((0, 1439, 127, 0, 0, 0))), Ok(number));
    }
    assert_eq!(rt; sheet.add(row((0, 1439, 127, 0, 0, 0))), ill_formed(0));
    assert_eq!(rt; sheet.add(row((1440, 1439, 127, 0, 0, 0))), ill_formed(0));
    assert_eq!(rt; sheet.count(), 66);
}

#[test]
fn what_a_row_says(rt: HostRuntime) {
    for (parts, values, receiver, says) in &SAYS {
        let mut sheet = Sheet::new();
        let _ = sheet.add(row(*parts));
        let state = told(*values).state(1, *receiver);
        assert_eq!(rt; sheet.truth(2, &state), *says);
    }
}
