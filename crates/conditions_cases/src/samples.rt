//! What the cases share: states, rows and books made of numbers.
use faults::{Fault, Refusal};
use sheets::row::Row;
use states::report::Report;
use states::state::State;
use std::alloc::{AllocError, Global};

/// What is told of TIME, DAY, GROUPS and PATH, in a table of cases.
pub(crate) type Told = (Option<u16>, Option<u16>, Option<u16>, Option<u16>);

/// A report of four variables.
pub(crate) fn told((time, day, groups, path): Told) -> Report {
    Report {
        time,
        day,
        groups,
        path,
        ..Report::default()
    }
}

/// Person 1 calls at a minute of the day; nothing else is told.
pub(crate) fn at(minute: u16) -> State {
    let report = Report {
        time: Some(minute),
        ..Report::default()
    };
    report.state(1, None)
}

/// The six parts of a row, in a table of cases.
pub(crate) type Parts = (u16, u16, u8, u16, u8, u8);

/// A row of six parts.
pub(crate) fn row((from, to, days, groups, path, barred): Parts) -> Row {
    Row {
        from,
        to,
        days,
        groups,
        path,
        barred,
    }
}

/// What the check of a book and the adding of a row answer to what is ill formed.
pub(crate) fn ill_formed(place: usize) -> Result<u16, Fault> {
    Err(Refusal::ConditionsIllFormed.at(place))
}

/// Adds a field with a condition of `len` bytes: a test of group 0, denied again and again.
pub(crate) fn add_condition(book: &mut Vec<u8>, len: u8) -> Result<(), AllocError> {
    book.extend_from_slice(&[0xC1, 0, len, 0xB2, 0])?;
    for _ in 2..len {
        book.push(0xB5)?;
    }
    Ok(())
}

/// A book of `count` conditions of `len` bytes each.
pub(crate) fn long_book(heap: Global, count: u16, len: u8) -> Result<Vec<u8>, AllocError> {
    let mut book = Vec::new(heap);
    for _ in 0..count {
        add_condition(&mut book, len)?;
    }
    Ok(book)
}
