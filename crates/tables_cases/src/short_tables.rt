//! A table of three places, over a kind of row of its own.
use numbered::{NotAdded, Numbered};
use std::test::Fail;

#[derive(Clone, Copy)]
struct Card {
    number: u32,
    suit: u8,
}

impl Numbered for Card {
    ghost label = { λ c. c.number };

    fn number(&self) -> u32 {
        self.number
    }
}

fn dealt(number: u32, suit: u8) -> Card {
    Card { number, suit }
}

#[test]
fn rows_come_in_the_order_of_their_numbers(rt: HostRuntime) {
    let mut rows = [dealt(0, 0); 3];
    let mut count = 0;
    assert_eq!(rt;
        numbered::insert(&mut rows, &mut count, dealt(7, 1)),
        Ok(())
    );
    assert_eq!(rt;
        numbered::insert(&mut rows, &mut count, dealt(3, 2)),
        Ok(())
    );
    assert_eq!(rt;
        numbered::insert(&mut rows, &mut count, dealt(5, 3)),
        Ok(())
    );
    assert_eq!(rt; count, 3);
    assert_eq!(rt; numbered::find(&rows, 3), Some(0));
    assert_eq!(rt; numbered::find(&rows, 5), Some(1));
    assert_eq!(rt; numbered::find(&rows, 7), Some(2));
    assert_eq!(rt; numbered::find(&rows, 4), None);
}

#[test]
fn a_number_that_is_there_is_refused_before_a_full_table(rt: HostRuntime) {
    let mut rows = [dealt(3, 1), dealt(5, 2), dealt(7, 3)];
    let mut count = 3;
    assert_eq!(rt;
        numbered::insert(&mut rows, &mut count, dealt(5, 9)),
        Err(NotAdded::Taken)
    );
    assert_eq!(rt;
        numbered::insert(&mut rows, &mut count, dealt(6, 9)),
        Err(NotAdded::Full)
    );
    assert_eq!(rt; count, 3);
    assert_eq!(rt; rows[1].suit, 2);
    assert_eq!(rt; numbered::find(&rows, 6), None);
}

#[test]
fn a_count_past_the_end_means_every_place(rt: HostRuntime) -> Result<(), Fail> {
    let mut rows = [dealt(3, 1), dealt(5, 2), dealt(7, 3)];
    let mut count = 9;
    assert_eq!(rt;
        numbered::insert(&mut rows, &mut count, dealt(1, 9)),
        Err(NotAdded::Full)
    );
    assert_eq!(rt; count, 9);
    match numbered::remove(&mut rows, &mut count, 5) {
        Some(row) => assert_eq!(rt; row.suit, 2),
        None => return Err(Fail::new("not there")),
    }
    assert_eq!(rt; count, 2);
    assert_eq!(rt; numbered::find(&rows[0..2], 7), Some(1));
    Ok(())
}

#[test]
fn places_behind_the_count_are_not_looked_at(rt: HostRuntime) {
    let mut rows = [dealt(3, 1), dealt(5, 2), dealt(7, 3)];
    let mut count = 1;
    assert!(rt; numbered::remove(&mut rows, &mut count, 5).is_none());
    assert_eq!(rt; count, 1);
    assert_eq!(rt;
        numbered::insert(&mut rows, &mut count, dealt(7, 4)),
        Ok(())
    );
    assert_eq!(rt; rows[1].suit, 4);
}

#[test]
fn a_table_without_places_is_full(rt: HostRuntime) {
    let mut rows: [Card; 0] = [];
    let mut count = 0;
    assert_eq!(rt;
        numbered::insert(&mut rows, &mut count, dealt(1, 1)),
        Err(NotAdded::Full)
    );
    assert!(rt; numbered::remove(&mut rows, &mut count, 1).is_none());
}
