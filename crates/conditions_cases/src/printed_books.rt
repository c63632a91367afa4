//! What is printed of a book.
use books::open::office_hours;
use std::test::Fail;
use timetables::print_book;

#[test]
fn a_well_formed_book_and_an_empty_one(rt: HostRuntime) -> Result<(), Fail> {
    let hours = print_book(rt.alloc(), &office_hours())?;
    assert!(rt; hours.as_str() == "conditions 1\n2: 0 false, 480 true, 1081 false\n");
    let none = print_book(rt.alloc(), &[])?;
    assert!(rt; none.as_str() == "conditions 0\n");
    Ok(())
}

#[test]
fn an_ill_formed_book_is_refused_at_its_byte(rt: HostRuntime) -> Result<(), Fail> {
    let cut = [0xC1, 0, 2, 0xB2, 0, 0xC1, 0, 2, 0xB2];
    let text = print_book(rt.alloc(), &cut)?;
    assert!(rt; text.as_str() == "no 17 5\n");
    Ok(())
}
