//! Books, well formed and ill formed, each fault with its byte.
use crate::samples::{add_condition, ill_formed, long_book};
use books::book::Book;
use books::field::check as check_book;
use books::open::office_hours;
use conditions::language::Language;
use std::test::Fail;

static ILL_FORMED: [&[u8]; 20] = [
    // another tag; a cut header; no bytes; a cut condition; a length of 256
    &[0xC2, 0, 2, 0xB2, 0],
    &[0xC1],
    &[0xC1, 0],
    &[0xC1, 0, 0],
    &[0xC1, 0, 6, 0xB1, 2, 1, 0xE0, 4],
    &[0xC1, 1, 0, 0xB2, 0],
    // items that there are not
    &[0xC1, 0, 1, 0xB0],
    &[0xC1, 0, 3, 0xB2, 0, 0xB6],
    // operands missing
    &[0xC1, 0, 5, 0xB1, 2, 1, 0xE0, 4],
    &[0xC1, 0, 1, 0xB2],
    // variable 8; group 16
    &[0xC1, 0, 6, 0xB1, 8, 0, 0, 0, 1],
    &[0xC1, 0, 2, 0xB2, 16],
    // too few values wait
    &[0xC1, 0, 1, 0xB3],
    &[0xC1, 0, 3, 0xB2, 0, 0xB3],
    &[0xC1, 0, 1, 0xB4],
    &[0xC1, 0, 3, 0xB2, 0, 0xB4],
    &[0xC1, 0, 1, 0xB5],
    // two values are left; two are left after a "not"
    &[0xC1, 0, 4, 0xB2, 0, 0xB2, 1],
    &[0xC1, 0, 5, 0xB2, 0, 0xB2, 1, 0xB5],
    // nine values wait
    &[
        0xC1, 0, 26, 0xB2, 0, 0xB2, 0, 0xB2, 0, 0xB2, 0, 0xB2, 0, 0xB2, 0, 0xB2, 0, 0xB2, 0, 0xB2,
        0, 0xB3, 0xB3, 0xB3, 0xB3, 0xB3, 0xB3, 0xB3, 0xB3,
    ],
];

static WELL_FORMED: [&[u8]; 6] = [
    // the last group; a "not"; the first and the last variable; a range that is empty
    &[0xC1, 0, 2, 0xB2, 15],
    &[0xC1, 0, 3, 0xB2, 0, 0xB5],
    &[0xC1, 0, 6, 0xB1, 0, 0, 0, 0, 1],
    &[0xC1, 0, 6, 0xB1, 7, 0, 0, 0, 1],
    &[0xC1, 0, 6, 0xB1, 2, 0, 9, 0, 1],
    // eight values wait
    &[
        0xC1, 0, 23, 0xB2, 0, 0xB2, 0, 0xB2, 0, 0xB2, 0, 0xB2, 0, 0xB2, 0, 0xB2, 0, 0xB2, 0, 0xB3,
        0xB3, 0xB3, 0xB4, 0xB4, 0xB4, 0xB4,
    ],
];

#[test]
fn each_ill_formed_kind_alone(rt: HostRuntime) {
    for book in &ILL_FORMED {
        assert_eq!(rt; check_book(book), ill_formed(0));
    }
}

#[test]
fn each_ill_formed_kind_behind_a_good_field(rt: HostRuntime) -> Result<(), Fail> {
    for bad in &ILL_FORMED {
        let mut book = office_hours().to_vec(rt.alloc())?;
        book.extend_from_slice(bad)?;
        assert_eq!(rt; check_book(book.as_slice()), ill_formed(9));
        assert_eq!(rt; Book::open(book.as_slice()).count(), 2);
    }
    Ok(())
}

#[test]
fn well_formed_kinds(rt: HostRuntime) {
    for book in &WELL_FORMED {
        assert_eq!(rt; check_book(book), Ok(1));
    }
    assert_eq!(rt; check_book(&[]), Ok(0));
}

#[test]
fn sixty_four_bytes_and_sixty_five(rt: HostRuntime) -> Result<(), Fail> {
    let most = long_book(rt.alloc(), 1, 64)?;
    assert_eq!(rt; check_book(most.as_slice()), Ok(1));
    let more = long_book(rt.alloc(), 1, 65)?;
    assert_eq!(rt; check_book(more.as_slice()), ill_formed(0));
    Ok(())
}

#[test]
fn the_most_conditions_and_one_more(rt: HostRuntime) -> Result<(), Fail> {
    let mut book = long_book(rt.alloc(), 1022, 2)?;
    assert_eq!(rt; check_book(book.as_slice()), Ok(1022));
    assert_eq!(rt; Book::open(book.as_slice()).count(), 1024);
    add_condition(&mut book, 2)?;
    assert_eq!(rt; check_book(book.as_slice()), ill_formed(5110));
    assert_eq!(rt; Book::open(book.as_slice()).count(), 2);
    Ok(())
}

#[test]
fn the_most_bytes_and_one_more(rt: HostRuntime) -> Result<(), Fail> {
    // 978 fields of 67 bytes are 65,526 bytes
    let mut book = long_book(rt.alloc(), 978, 64)?;
    add_condition(&mut book, 6)?;
    assert_eq!(rt; check_book(book.as_slice()), Ok(979));
    add_condition(&mut book, 2)?;
    assert_eq!(rt; check_book(book.as_slice()), ill_formed(65535));
    let mut longer = long_book(rt.alloc(), 978, 64)?;
    add_condition(&mut longer, 7)?;
    assert_eq!(rt; check_book(longer.as_slice()), ill_formed(65526));
    Ok(())
}

#[test]
fn a_condition_is_handed_out_as_its_bytes(rt: HostRuntime) {
    let bytes = [0xC1, 0, 2, 0xB2, 3, 0xC1, 0, 3, 0xB2, 4, 0xB5];
    let book = Book::open(&bytes);
    assert_eq!(rt; book.condition(1), None);
    assert_eq!(rt; book.condition(2), Some(&bytes[3..5]));
    assert_eq!(rt; book.condition(3), Some(&bytes[8..11]));
    assert_eq!(rt; book.condition(4), None);
}
