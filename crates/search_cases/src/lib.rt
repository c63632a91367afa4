//! Cases of the search.
#![tactic(auto)]

pub mod masks;
#[cfg(test)]
mod plain;

#[cfg(test)]
mod tests {
    use crate::masks::Masks;
    use crate::plain::first_chain;
    use chains::chain::Draw;
    use grants::{Grant, Mode};
    use places::{Places, first, has, join, meet, select, with_place, without};
    use search::named::Named;
    use search::search::{chain_for, standing, stands};
    use states::state::State;

    // A state in which only the groups are known, if they are.
    fn groups(known: Option<u16>) -> State {
        State {
            values: [None, None, None, None, known, None, None, None],
        }
    }

    // A grant of hook 0, on condition 0 for drawing.
    fn grant(number: u32, grantor: u8, grantee: u8, onward: u16, known: Option<u16>) -> Grant {
        Grant {
            number,
            hook: 0,
            grantor,
            grantee,
            execute: 0,
            onward,
            mode: Mode::Expiring,
            state: groups(known),
        }
    }

    // The grant of a row from each person to the next.
    fn link(person: u8) -> Grant {
        grant(person as u32, person, person.saturating_add(1), 0, None)
    }

    // The first two numbers and the length of a chain.
    fn told(named: Option<Named>) -> Option<(usize, u32, u32)> {
        named.map(|chain| (chain.length, chain.numbers[0], chain.numbers[1]))
    }

    // A draw from hook 0, whose owner is person 1, in a state of which nothing is known.
    fn draw(person: u8) -> Draw {
        Draw {
            hook: 0,
            owner: 1,
            person,
            state: groups(None),
        }
    }

    fn drawn(grants: &[Grant], person: u8) -> Option<(usize, u32, u32)> {
        told(chain_for(&Masks, grants, &draw(person)))
    }

    #[test]
    fn only_the_owner_has_the_empty_chain(rt: HostRuntime) {
        assert_eq!(rt; drawn(&[], 1), Some((0, 0, 0)));
        assert_eq!(rt; drawn(&[], 2), None);
    }

    #[test]
    fn a_second_way_to_a_person_is_tried(rt: HostRuntime) {
        let late = grant(3, 2, 3, 0, Some(0));
        let early = grant(3, 2, 3, 0, Some(1));
        let first = grant(1, 1, 2, 3, None);
        let second = grant(2, 1, 2, 0, None);
        assert_eq!(rt; drawn(&[first, second, late], 3), Some((2, 2, 3)));
        assert_eq!(rt; drawn(&[first, second, early], 3), Some((2, 1, 3)));
        assert_eq!(rt; drawn(&[first, late], 3), None);
    }

    #[test]
    fn every_earlier_condition_counts(rt: HostRuntime) {
        let first = grant(1, 1, 2, 3, None);
        let next = grant(2, 2, 3, 0, Some(1));
        assert_eq!(rt; drawn(&[first, next, grant(3, 3, 4, 0, Some(0))], 4), None);
        assert_eq!(rt; drawn(&[first, next, grant(3, 3, 4, 0, None)], 4), None);
        assert_eq!(rt;
            drawn(&[first, next, grant(3, 3, 4, 0, Some(1))], 4),
            Some((3, 1, 2))
        );
    }

    #[test]
    fn a_loop_stands_only_while_the_owners_grant_does(rt: HostRuntime) {
        let there = grant(2, 2, 3, 0, None);
        let back = grant(3, 3, 2, 0, None);
        assert_eq!(rt;
            standing(&Masks, &[grant(1, 1, 2, 0, None), there, back], &[1]),
            7
        );
        assert_eq!(rt; standing(&Masks, &[there, back], &[1]), 0);
        assert!(rt; !stands(&Masks, &[there, back], 1, &there));
    }

    #[test]
    fn eight_in_a_row_but_not_nine(rt: HostRuntime) {
        let row = [
            link(1),
            link(2),
            link(3),
            link(4),
            link(5),
            link(6),
            link(7),
            link(8),
            link(9),
        ];
        assert_eq!(rt; drawn(&row, 9), Some((8, 1, 2)));
        assert_eq!(rt; drawn(&row, 10), None);
        assert_eq!(rt; standing(&Masks, &row, &[1]), 255);
    }

    #[test]
    fn the_lower_number_counts_from_the_owners_end(rt: HostRuntime) {
        let a = grant(1, 1, 2, 0, None);
        let b = grant(2, 1, 3, 0, None);
        let c = grant(3, 3, 4, 0, None);
        let d = grant(4, 2, 4, 0, None);
        assert_eq!(rt; drawn(&[a, b, c, d], 4), Some((2, 1, 4)));
        assert_eq!(rt; drawn(&[b, c, d], 4), Some((2, 2, 3)));
    }

    #[test]
    fn what_is_no_record_has_no_chain(rt: HostRuntime) {
        let a = grant(1, 1, 2, 0, None);
        assert_eq!(rt; drawn(&[a], 2), Some((1, 1, 0)));
        assert_eq!(rt; drawn(&[a, a], 2), None);
        assert_eq!(rt; standing(&Masks, &[a, a], &[1]), 0);
        assert_eq!(rt; drawn(&[a; 97], 1), None);
    }

    #[test]
    fn the_places_of_a_set_come_by_rising_number(rt: HostRuntime) {
        let set = select(&[7u8, 3, 7, 5, 7], |number| *number == 7);
        assert_eq!(rt; set, 21);
        assert!(rt; has(set, 2) && !has(set, 3) && !has(set, 200));
        let mut places = Places { rest: set };
        assert_eq!(rt; places.next(), Some(0));
        assert_eq!(rt; places.next(), Some(2));
        assert_eq!(rt; places.next(), Some(4));
        assert_eq!(rt; places.next(), None);
        assert_eq!(rt;
            without(with_place(set, 127), join(meet(set, 3), 4)),
            (1u128 << 127) + 16
        );
        assert_eq!(rt; first(with_place(0, 127)), Some(127));
    }

    fn step(x: u64) -> u64 {
        let a = x ^ (x << 13);
        let b = a ^ (a >> 7);
        b ^ (b << 17)
    }

    // A record of sixteen grants among six persons, with conditions on three groups.
    fn tangled(seed: u64) -> [Grant; 16] {
        let mut record = [grant(1, 1, 2, 0, None); 16];
        let mut x = step(step(seed));
        for (i, row) in record.iter_mut().enumerate() {
            x = step(x);
            let onward = if x % 3 == 0 {
                0
            } else {
                (x / 8 % 8) as u16 + 2
            };
            let known = if x / 64 % 5 == 0 {
                None
            } else {
                Some((x / 512 % 8) as u16)
            };
            let grantor = (x / 4096 % 6) as u8 + 1;
            let grantee = (x / 65536 % 5) as u8 + 2;
            *row = grant(2 * i as u32 + 1, grantor, grantee, onward, known);
        }
        record
    }

    #[test]
    fn tangled_records_against_a_plain_enumeration(rt: HostRuntime) {
        let mut found = 0u32;
        for seed in 1..40u64 {
            let record = tangled(seed * 7919);
            for person in 1..7u8 {
                let draw = draw(person);
                let named = chain_for(&Masks, &record, &draw);
                if named.is_some() && found < 1000 {
                    found += 1;
                }
                assert_eq!(rt; named, first_chain(&Masks, &record, &draw));
            }
        }
        assert!(rt; found > 60);
    }
}
