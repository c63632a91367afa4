//! Examples of command records: read, written, and refused at their offsets.
#![tactic(auto)]

#[cfg(test)]
mod tests {
    use arrayvec::ArrayVec;
    use command_words::{Command, Outcome};
    use command_writer::writer::write;
    use commands::reader::read;
    use grants::Mode;
    use grants::terms::Terms;
    use states::report::Report;
    use std::process::Abort;

    // stays: a constant can't call `Report::default()`.
    const SILENT: Report = Report {
        time: None,
        day: None,
        groups: None,
        path: None,
        level: None,
        status: None,
    };

    const TOLD: Report = Report {
        time: Some(600),
        status: Some(1),
        ..SILENT
    };

    // The record reads as the command.
    fn reads(rt: &impl Abort, record: &[u8], command: Command) {
        assert_eq!(rt; read(record), Ok(command));
    }

    // The record is written of the command, zeros behind it, and reads as it.
    fn stands_for(rt: &impl Abort, record: &[u8], command: Command) {
        let mut out = [9u8; 64];
        let end = write(command, &mut out);
        assert!(rt; &out[..end] == record);
        assert!(rt; out[end..].iter().all(|&byte| byte == 0));
        reads(rt, record, command);
    }

    #[test]
    fn issues(rt: HostRuntime) {
        let issue = Command::Issue {
            caller: 5,
            hook: 7,
            grantee: 9,
            terms: Terms {
                execute: 2,
                onward: 3,
                mode: Mode::Resting,
                report: TOLD,
            },
        };
        stands_for(
            &rt,
            b"\x01\0\x01I\x02\0\x01\x05\x03\0\x01\x07\x04\0\x01\x09\x05\0\x02\0\x02\x06\0\x02\0\x03\x07\0\x01R\x08\0\x06\x02\x02X\x07\0\x01",
            issue,
        );
    }

    #[test]
    fn amendments(rt: HostRuntime) {
        let amend = Command::Amend {
            caller: 5,
            number: 263,
            terms: Terms {
                execute: 2,
                onward: 3,
                mode: Mode::Expiring,
                report: SILENT,
            },
        };
        stands_for(
            &rt,
            b"\x01\0\x01A\x02\0\x01\x05\x05\0\x02\0\x02\x06\0\x02\0\x03\x07\0\x01E\x08\0\0\x0a\0\x04\0\0\x01\x07",
            amend,
        );
    }

    #[test]
    fn withdrawals(rt: HostRuntime) {
        stands_for(
            &rt,
            b"\x01\0\x01W\x02\0\x01\0\x0a\0\x04\xff\xfe\xfd\xfc",
            Command::Withdraw {
                caller: 0,
                number: 0xfffe_fdfc,
            },
        );
    }

    #[test]
    fn draws(rt: HostRuntime) {
        let report = Report {
            time: Some(1),
            day: Some(256),
            groups: Some(65535),
            path: Some(0),
            level: Some(258),
            status: Some(7),
        };
        stands_for(
            &rt,
            b"\x01\0\x01D\x02\0\x01\xff\x03\0\x01\xff\x08\0\x12\x02\0\x01\x03\x01\0\x04\xff\xff\x05\0\0\x06\x01\x02\x07\0\x07\x09\0\x01T",
            Command::Draw {
                caller: 255,
                hook: 255,
                report,
                outcome: Outcome::Taken,
            },
        );
        stands_for(
            &rt,
            b"\x01\0\x01D\x02\0\x01\x05\x03\0\x01\x07\x08\0\0\x09\0\x01L",
            Command::Draw {
                caller: 5,
                hook: 7,
                report: SILENT,
                outcome: Outcome::Left,
            },
        );
    }

    #[test]
    fn returns(rt: HostRuntime) {
        stands_for(
            &rt,
            b"\x01\0\x01R\x02\0\x01\x05\x03\0\x01\x07",
            Command::Return { caller: 5, hook: 7 },
        );
    }

    // A missing condition for drawing is 0, a missing condition for granting on is 1, a missing
    // mode is E.
    #[test]
    fn what_a_missing_field_means(rt: HostRuntime) {
        reads(
            &rt,
            b"\x01\0\x01I\x02\0\x01\x05\x03\0\x01\x07\x04\0\x01\x09\x06\0\x02\0\x03\x07\0\x01R\x08\0\0",
            Command::Issue {
                caller: 5,
                hook: 7,
                grantee: 9,
                terms: Terms {
                    execute: 0,
                    onward: 3,
                    mode: Mode::Resting,
                    report: SILENT,
                },
            },
        );
        reads(
            &rt,
            b"\x01\0\x01I\x02\0\x01\x05\x03\0\x01\x07\x04\0\x01\x09\x05\0\x02\0\x02\x07\0\x01R\x08\0\0",
            Command::Issue {
                caller: 5,
                hook: 7,
                grantee: 9,
                terms: Terms {
                    execute: 2,
                    onward: 1,
                    mode: Mode::Resting,
                    report: SILENT,
                },
            },
        );
    }

    #[test]
    fn what_several_missing_fields_mean(rt: HostRuntime) {
        reads(
            &rt,
            b"\x01\0\x01I\x02\0\x01\x05\x03\0\x01\x07\x04\0\x01\x09\x08\0\0",
            Command::Issue {
                caller: 5,
                hook: 7,
                grantee: 9,
                terms: Terms {
                    execute: 0,
                    onward: 1,
                    mode: Mode::Expiring,
                    report: SILENT,
                },
            },
        );
        reads(
            &rt,
            b"\x01\0\x01A\x02\0\x01\x05\x08\0\0\x0a\0\x04\0\0\x01\x07",
            Command::Amend {
                caller: 5,
                number: 263,
                terms: Terms {
                    execute: 0,
                    onward: 1,
                    mode: Mode::Expiring,
                    report: SILENT,
                },
            },
        );
    }

    // The records that docs/COMMANDS.md shows, in its order.
    #[test]
    fn records_of_the_page_that_are_read(rt: HostRuntime) {
        let at_ten = Report {
            time: Some(600),
            ..SILENT
        };
        let issue = Command::Issue {
            caller: 1,
            hook: 0,
            grantee: 2,
            terms: Terms {
                execute: 0,
                onward: 2,
                mode: Mode::Resting,
                report: at_ten,
            },
        };
        reads(
            &rt,
            b"\x01\0\x01I\x02\0\x01\x01\x03\0\x01\0\x04\0\x01\x02\x06\0\x02\0\x02\x07\0\x01R\x08\0\x03\x02\x02X",
            issue,
        );
        stands_for(
            &rt,
            b"\x01\0\x01I\x02\0\x01\x01\x03\0\x01\0\x04\0\x01\x02\x05\0\x02\0\0\x06\0\x02\0\x02\x07\0\x01R\x08\0\x03\x02\x02X",
            issue,
        );
    }

    #[test]
    fn further_records_of_the_page_that_are_read(rt: HostRuntime) {
        let amend = Command::Amend {
            caller: 1,
            number: 3,
            terms: Terms {
                execute: 0,
                onward: 1,
                mode: Mode::Expiring,
                report: SILENT,
            },
        };
        reads(
            &rt,
            b"\x01\0\x01A\x02\0\x01\x01\x08\0\0\x0a\0\x04\0\0\0\x03",
            amend,
        );
        let withdraw = Command::Withdraw {
            caller: 1,
            number: 263,
        };
        stands_for(
            &rt,
            b"\x01\0\x01W\x02\0\x01\x01\x0a\0\x04\0\0\x01\x07",
            withdraw,
        );
        let draw = Command::Draw {
            caller: 3,
            hook: 0,
            report: Report {
                day: Some(6),
                level: Some(90),
                ..SILENT
            },
            outcome: Outcome::Left,
        };
        stands_for(
            &rt,
            b"\x01\0\x01D\x02\0\x01\x03\x03\0\x01\0\x08\0\x06\x03\0\x06\x06\0Z\x09\0\x01L",
            draw,
        );
        stands_for(
            &rt,
            b"\x01\0\x01R\x02\0\x01\x03\x03\0\x01\0",
            Command::Return { caller: 3, hook: 0 },
        );
    }

    // A field by a letter of its own: the verbs I, A, W, D and R, then c caller, h hook, g grantee,
    // x and y the conditions for drawing and for granting on, m mode, s state, o outcome, n number.
    // A field of one byte takes 4 bytes, x and y take 5, s takes 6 and n takes 7.
    fn field(letter: u8) -> &'static [u8] {
        match letter {
            b'I' => b"\x01\0\x01I",
            b'A' => b"\x01\0\x01A",
            b'W' => b"\x01\0\x01W",
            b'D' => b"\x01\0\x01D",
            b'R' => b"\x01\0\x01R",
            b'c' => b"\x02\0\x01c",
            b'h' => b"\x03\0\x01h",
            b'g' => b"\x04\0\x01g",
            b'x' => b"\x05\0\x02xx",
            b'y' => b"\x06\0\x02yy",
            b'm' => b"\x07\0\x01R",
            b's' => b"\x08\0\x03\x03dd",
            b'o' => b"\x09\0\x01T",
            _ => b"\x0a\0\x04nnnn",
        }
    }

    // A record, by the letters of its first fields and the bytes behind them, and the offset at
    // which it is refused.
    #[derive(Clone, Copy)]
    struct Case(&'static [u8], &'static [u8], usize);

    // The offset at which the record of these fields and the bytes behind them is refused; none
    // where it is read. No record of the cases has more than 96 bytes.
    fn place(rt: &impl Abort, letters: &[u8], tail: &[u8]) -> Option<usize> {
        let mut record: ArrayVec<u8, 96> = ArrayVec::new();
        for letter in letters {
            assert!(rt; record.try_extend_from_slice(field(*letter)).is_ok());
        }
        assert!(rt; record.try_extend_from_slice(tail).is_ok());
        read(record.as_slice()).err().map(|fault| fault.place)
    }

    fn all_refused(rt: &impl Abort, cases: &[Case]) {
        for Case(letters, tail, at) in cases {
            assert_eq!(rt; place(rt, letters, tail), Some(*at));
        }
    }

    // The whole records that the cases below change are read.
    #[test]
    fn whole_records(rt: HostRuntime) {
        assert_eq!(rt; place(&rt, b"Ichgxyms", b""), None);
        assert_eq!(rt; place(&rt, b"Acxymsn", b""), None);
        assert_eq!(rt; place(&rt, b"Wcn", b""), None);
        assert_eq!(rt; place(&rt, b"Dchso", b""), None);
        assert_eq!(rt; place(&rt, b"Rch", b""), None);
    }

    // The records that docs/COMMANDS.md shows as refused, in its order.
    #[test]
    fn records_of_the_page_that_are_refused(rt: HostRuntime) {
        all_refused(
            &rt,
            &[
                Case(b"", b"", 0),
                Case(b"", b"\x02\0\x01\x05", 0),
                Case(b"", b"\x01\0\x01X", 0),
                Case(b"", b"\x01\0\x01W\x0a\0\x04\0\0\0\x01\x02\0\x01\x05", 11),
                Case(b"", b"\x01\0\x01W\x02\0\x01\x05\x02\0\x01\x05", 8),
                Case(b"", b"\x01\0\x01W\x02\0\x01\x05\x03\0\x01\x04", 8),
                Case(b"", b"\x01\0\x01W\x02\0\x01\x05\x0a\0\x04\0", 8),
                Case(b"", b"\x01\0\x01W\x02\0\x01\x05\x0a\0\x03\0\0\x01", 8),
                Case(b"", b"\x01\0\x01W\x02\0\x01\x05", 8),
                Case(b"", b"\x01\0\x01R\x02\0\x02\0\x05\x03\0\x01\0", 4),
                Case(b"", b"\x01\0\x01D\x02\0\x01\x05\x03\0\x01\0\x09\0\x01T", 16),
                Case(
                    b"",
                    b"\x01\0\x01D\x02\0\x01\x05\x03\0\x01\0\x08\0\x06\x03\0\x01\x02\0\x01\x09\0\x01T",
                    12,
                ),
                Case(
                    b"",
                    b"\x01\0\x01D\x02\0\x01\x05\x03\0\x01\0\x08\0\x03\x08\0\x01\x09\0\x01T",
                    12,
                ),
                Case(
                    b"",
                    b"\x01\0\x01D\x02\0\x01\x05\x03\0\x01\0\x08\0\x02\x02\0\x09\0\x01T",
                    12,
                ),
                Case(
                    b"",
                    b"\x01\0\x01D\x02\0\x01\x05\x03\0\x01\0\x08\0\0\x09\0\x01R",
                    15,
                ),
            ],
        );
    }

    #[test]
    fn no_record_at_all(rt: HostRuntime) {
        assert_eq!(rt; place(&rt, b"", b""), Some(0));
    }

    // Told at the end; at the start where the verb is missing.
    #[test]
    fn issue_with_a_field_missing(rt: HostRuntime) {
        all_refused(
            &rt,
            &[
                Case(b"chgxyms", b"", 0),
                Case(b"Ihgxyms", b"", 32),
                Case(b"Icgxyms", b"", 32),
                Case(b"Ichxyms", b"", 32),
                Case(b"Ichgxym", b"", 30),
            ],
        );
    }

    // Told at the second.
    #[test]
    fn issue_with_a_field_doubled(rt: HostRuntime) {
        all_refused(
            &rt,
            &[
                Case(b"IIchgxyms", b"", 4),
                Case(b"Icchgxyms", b"", 8),
                Case(b"Ichhgxyms", b"", 12),
                Case(b"Ichggxyms", b"", 16),
                Case(b"Ichgxxyms", b"", 21),
                Case(b"Ichgxyyms", b"", 26),
                Case(b"Ichgxymms", b"", 30),
                Case(b"Ichgxymss", b"", 36),
            ],
        );
    }

    // Told at the lower tag, which comes too late; at the start where the verb does.
    #[test]
    fn issue_with_two_fields_exchanged(rt: HostRuntime) {
        all_refused(
            &rt,
            &[
                Case(b"cIhgxyms", b"", 0),
                Case(b"Ihcgxyms", b"", 8),
                Case(b"Icghxyms", b"", 12),
                Case(b"Ichxgyms", b"", 17),
                Case(b"Ichgyxms", b"", 21),
                Case(b"Ichgxmys", b"", 25),
                Case(b"Ichgxysm", b"", 32),
            ],
        );
    }

    // Told at that field, whatever it holds.
    #[test]
    fn issue_with_a_field_that_it_has_not(rt: HostRuntime) {
        all_refused(
            &rt,
            &[
                Case(b"Ichgxymso", b"", 36),
                Case(b"Ichgxymsn", b"", 36),
                Case(b"Ichgxyms", b"\x0b\0\x01z", 36),
                Case(b"Ichgxyms", b"\xff\0\0", 36),
                Case(b"", b"\0\0\x01z", 0),
            ],
        );
    }

    // Told at that field.
    #[test]
    fn issue_with_a_value_too_short_or_too_long(rt: HostRuntime) {
        all_refused(
            &rt,
            &[
                Case(b"", b"\x01\0\0", 0),
                Case(b"", b"\x01\0\x02Iz", 0),
                Case(b"I", b"\x02\0\0", 4),
                Case(b"I", b"\x02\0\x02cz", 4),
                Case(b"Ic", b"\x03\0\0", 8),
                Case(b"Ic", b"\x03\0\x02hz", 8),
                Case(b"Ich", b"\x04\0\0", 12),
                Case(b"Ich", b"\x04\0\x02gz", 12),
                Case(b"Ichg", b"\x05\0\x01x", 16),
                Case(b"Ichg", b"\x05\0\x03xxz", 16),
                Case(b"Ichgx", b"\x06\0\x01y", 21),
                Case(b"Ichgx", b"\x06\0\x03yyz", 21),
                Case(b"Ichgxy", b"\x07\0\0", 26),
                Case(b"Ichgxy", b"\x07\0\x02Rz", 26),
            ],
        );
    }

    // Told at the field that is cut, or whose length passes the end.
    #[test]
    fn issue_cut_short(rt: HostRuntime) {
        all_refused(
            &rt,
            &[
                Case(b"", b"\x01", 0),
                Case(b"", b"\x01\0", 0),
                Case(b"", b"\x01\0\x01", 0),
                Case(b"", b"\x01\x01\x01I", 0),
                Case(b"I", b"\x02", 4),
                Case(b"I", b"\x02\0", 4),
                Case(b"I", b"\x02\0\x01", 4),
                Case(b"I", b"\x02\x01\x01c", 4),
                Case(b"Ic", b"\x03", 8),
                Case(b"Ic", b"\x03\0", 8),
                Case(b"Ic", b"\x03\0\x01", 8),
                Case(b"Ic", b"\x03\x01\x01h", 8),
                Case(b"Ich", b"\x04", 12),
                Case(b"Ich", b"\x04\0", 12),
                Case(b"Ich", b"\x04\0\x01", 12),
                Case(b"Ich", b"\x04\x01\x01g", 12),
                Case(b"Ichg", b"\x05", 16),
                Case(b"Ichg", b"\x05\0", 16),
                Case(b"Ichg", b"\x05\0\x02", 16),
                Case(b"Ichg", b"\x05\0\x02x", 16),
                Case(b"Ichg", b"\x05\x01\x02xx", 16),
                Case(b"Ichgx", b"\x06", 21),
                Case(b"Ichgx", b"\x06\0", 21),
                Case(b"Ichgx", b"\x06\0\x02", 21),
                Case(b"Ichgx", b"\x06\0\x02y", 21),
                Case(b"Ichgx", b"\x06\x01\x02yy", 21),
                Case(b"Ichgxy", b"\x07", 26),
                Case(b"Ichgxy", b"\x07\0", 26),
                Case(b"Ichgxy", b"\x07\0\x01", 26),
                Case(b"Ichgxy", b"\x07\x01\x01R", 26),
                Case(b"Ichgxym", b"\x08", 30),
                Case(b"Ichgxym", b"\x08\0", 30),
                Case(b"Ichgxym", b"\x08\0\x03", 30),
                Case(b"Ichgxym", b"\x08\0\x03\x03d", 30),
                Case(b"Ichgxym", b"\x08\x01\x03\x03dd", 30),
            ],
        );
    }

    // Told at the end; at the start where the verb is missing.
    #[test]
    fn amend_with_a_field_missing(rt: HostRuntime) {
        all_refused(
            &rt,
            &[
                Case(b"cxymsn", b"", 0),
                Case(b"Axymsn", b"", 31),
                Case(b"Acxymn", b"", 29),
                Case(b"Acxyms", b"", 28),
            ],
        );
    }

    // Told at the second.
    #[test]
    fn amend_with_a_field_doubled(rt: HostRuntime) {
        all_refused(
            &rt,
            &[
                Case(b"AAcxymsn", b"", 4),
                Case(b"Accxymsn", b"", 8),
                Case(b"Acxxymsn", b"", 13),
                Case(b"Acxyymsn", b"", 18),
                Case(b"Acxymmsn", b"", 22),
                Case(b"Acxymssn", b"", 28),
                Case(b"Acxymsnn", b"", 35),
            ],
        );
    }

    // Told at the lower tag, which comes too late; at the start where the verb does.
    #[test]
    fn amend_with_two_fields_exchanged(rt: HostRuntime) {
        all_refused(
            &rt,
            &[
                Case(b"cAxymsn", b"", 0),
                Case(b"Axcymsn", b"", 9),
                Case(b"Acyxmsn", b"", 13),
                Case(b"Acxmysn", b"", 17),
                Case(b"Acxysmn", b"", 24),
                Case(b"Acxymns", b"", 29),
            ],
        );
    }

    // Told at that field, whatever it holds.
    #[test]
    fn amend_with_a_field_that_it_has_not(rt: HostRuntime) {
        all_refused(
            &rt,
            &[
                Case(b"Achxymsn", b"", 8),
                Case(b"Acgxymsn", b"", 8),
                Case(b"Acxymson", b"", 28),
                Case(b"Acxymsn", b"\x0b\0\x01z", 35),
                Case(b"Acxymsn", b"\xff\0\0", 35),
                Case(b"", b"\0\0\x01z", 0),
            ],
        );
    }

    // Told at that field.
    #[test]
    fn amend_with_a_value_too_short_or_too_long(rt: HostRuntime) {
        all_refused(
            &rt,
            &[
                Case(b"", b"\x01\0\0", 0),
                Case(b"", b"\x01\0\x02Az", 0),
                Case(b"A", b"\x02\0\0", 4),
                Case(b"A", b"\x02\0\x02cz", 4),
                Case(b"Ac", b"\x05\0\x01x", 8),
                Case(b"Ac", b"\x05\0\x03xxz", 8),
                Case(b"Acx", b"\x06\0\x01y", 13),
                Case(b"Acx", b"\x06\0\x03yyz", 13),
                Case(b"Acxy", b"\x07\0\0", 18),
                Case(b"Acxy", b"\x07\0\x02Rz", 18),
                Case(b"Acxyms", b"\x0a\0\x03nnn", 28),
                Case(b"Acxyms", b"\x0a\0\x05nnnnz", 28),
            ],
        );
    }

    // Told at the field that is cut, or whose length passes the end.
    #[test]
    fn amend_cut_short(rt: HostRuntime) {
        all_refused(
            &rt,
            &[
                Case(b"", b"\x01", 0),
                Case(b"", b"\x01\0", 0),
                Case(b"", b"\x01\0\x01", 0),
                Case(b"", b"\x01\x01\x01A", 0),
                Case(b"A", b"\x02", 4),
                Case(b"A", b"\x02\0", 4),
                Case(b"A", b"\x02\0\x01", 4),
                Case(b"A", b"\x02\x01\x01c", 4),
                Case(b"Ac", b"\x05", 8),
                Case(b"Ac", b"\x05\0", 8),
                Case(b"Ac", b"\x05\0\x02", 8),
                Case(b"Ac", b"\x05\0\x02x", 8),
                Case(b"Ac", b"\x05\x01\x02xx", 8),
                Case(b"Acx", b"\x06", 13),
                Case(b"Acx", b"\x06\0", 13),
                Case(b"Acx", b"\x06\0\x02", 13),
                Case(b"Acx", b"\x06\0\x02y", 13),
                Case(b"Acx", b"\x06\x01\x02yy", 13),
                Case(b"Acxy", b"\x07", 18),
                Case(b"Acxy", b"\x07\0", 18),
                Case(b"Acxy", b"\x07\0\x01", 18),
                Case(b"Acxy", b"\x07\x01\x01R", 18),
                Case(b"Acxym", b"\x08", 22),
                Case(b"Acxym", b"\x08\0", 22),
                Case(b"Acxym", b"\x08\0\x03", 22),
                Case(b"Acxym", b"\x08\0\x03\x03d", 22),
                Case(b"Acxym", b"\x08\x01\x03\x03dd", 22),
                Case(b"Acxyms", b"\x0a", 28),
                Case(b"Acxyms", b"\x0a\0", 28),
                Case(b"Acxyms", b"\x0a\0\x04", 28),
                Case(b"Acxyms", b"\x0a\0\x04nnn", 28),
                Case(b"Acxyms", b"\x0a\x01\x04nnnn", 28),
            ],
        );
    }

    // Told at the end; at the start where the verb is missing.
    #[test]
    fn withdraw_with_a_field_missing(rt: HostRuntime) {
        all_refused(
            &rt,
            &[
                Case(b"cn", b"", 0),
                Case(b"Wn", b"", 11),
                Case(b"Wc", b"", 8),
            ],
        );
    }

    // Told at the second.
    #[test]
    fn withdraw_with_a_field_doubled(rt: HostRuntime) {
        all_refused(
            &rt,
            &[
                Case(b"WWcn", b"", 4),
                Case(b"Wccn", b"", 8),
                Case(b"Wcnn", b"", 15),
            ],
        );
    }

    // Told at the lower tag, which comes too late; at the start where the verb does.
    #[test]
    fn withdraw_with_two_fields_exchanged(rt: HostRuntime) {
        all_refused(&rt, &[Case(b"cWn", b"", 0), Case(b"Wnc", b"", 11)]);
    }

    // Told at that field, whatever it holds.
    #[test]
    fn withdraw_with_a_field_that_it_has_not(rt: HostRuntime) {
        all_refused(
            &rt,
            &[
                Case(b"Wchn", b"", 8),
                Case(b"Wcgn", b"", 8),
                Case(b"Wcxn", b"", 8),
                Case(b"Wcyn", b"", 8),
                Case(b"Wcmn", b"", 8),
                Case(b"Wcsn", b"", 8),
                Case(b"Wcon", b"", 8),
                Case(b"Wcn", b"\x0b\0\x01z", 15),
                Case(b"Wcn", b"\xff\0\0", 15),
                Case(b"", b"\0\0\x01z", 0),
            ],
        );
    }

    // Told at that field.
    #[test]
    fn withdraw_with_a_value_too_short_or_too_long(rt: HostRuntime) {
        all_refused(
            &rt,
            &[
                Case(b"", b"\x01\0\0", 0),
                Case(b"", b"\x01\0\x02Wz", 0),
                Case(b"W", b"\x02\0\0", 4),
                Case(b"W", b"\x02\0\x02cz", 4),
                Case(b"Wc", b"\x0a\0\x03nnn", 8),
                Case(b"Wc", b"\x0a\0\x05nnnnz", 8),
            ],
        );
    }

    // Told at the field that is cut, or whose length passes the end.
    #[test]
    fn withdraw_cut_short(rt: HostRuntime) {
        all_refused(
            &rt,
            &[
                Case(b"", b"\x01", 0),
                Case(b"", b"\x01\0", 0),
                Case(b"", b"\x01\0\x01", 0),
                Case(b"", b"\x01\x01\x01W", 0),
                Case(b"W", b"\x02", 4),
                Case(b"W", b"\x02\0", 4),
                Case(b"W", b"\x02\0\x01", 4),
                Case(b"W", b"\x02\x01\x01c", 4),
                Case(b"Wc", b"\x0a", 8),
                Case(b"Wc", b"\x0a\0", 8),
                Case(b"Wc", b"\x0a\0\x04", 8),
                Case(b"Wc", b"\x0a\0\x04nnn", 8),
                Case(b"Wc", b"\x0a\x01\x04nnnn", 8),
            ],
        );
    }

    // Told at the end; at the start where the verb is missing.
    #[test]
    fn draw_with_a_field_missing(rt: HostRuntime) {
        all_refused(
            &rt,
            &[
                Case(b"chso", b"", 0),
                Case(b"Dhso", b"", 18),
                Case(b"Dcso", b"", 18),
                Case(b"Dcho", b"", 16),
                Case(b"Dchs", b"", 18),
            ],
        );
    }

    // Told at the second.
    #[test]
    fn draw_with_a_field_doubled(rt: HostRuntime) {
        all_refused(
            &rt,
            &[
                Case(b"DDchso", b"", 4),
                Case(b"Dcchso", b"", 8),
                Case(b"Dchhso", b"", 12),
                Case(b"Dchsso", b"", 18),
                Case(b"Dchsoo", b"", 22),
            ],
        );
    }

    // Told at the lower tag, which comes too late; at the start where the verb does.
    #[test]
    fn draw_with_two_fields_exchanged(rt: HostRuntime) {
        all_refused(
            &rt,
            &[
                Case(b"cDhso", b"", 0),
                Case(b"Dhcso", b"", 8),
                Case(b"Dcsho", b"", 14),
                Case(b"Dchos", b"", 16),
            ],
        );
    }

    // Told at that field, whatever it holds.
    #[test]
    fn draw_with_a_field_that_it_has_not(rt: HostRuntime) {
        all_refused(
            &rt,
            &[
                Case(b"Dchgso", b"", 12),
                Case(b"Dchxso", b"", 12),
                Case(b"Dchyso", b"", 12),
                Case(b"Dchmso", b"", 12),
                Case(b"Dchson", b"", 22),
                Case(b"Dchso", b"\x0b\0\x01z", 22),
                Case(b"Dchso", b"\xff\0\0", 22),
                Case(b"", b"\0\0\x01z", 0),
            ],
        );
    }

    // Told at that field.
    #[test]
    fn draw_with_a_value_too_short_or_too_long(rt: HostRuntime) {
        all_refused(
            &rt,
            &[
                Case(b"", b"\x01\0\0", 0),
                Case(b"", b"\x01\0\x02Dz", 0),
                Case(b"D", b"\x02\0\0", 4),
                Case(b"D", b"\x02\0\x02cz", 4),
                Case(b"Dc", b"\x03\0\0", 8),
                Case(b"Dc", b"\x03\0\x02hz", 8),
                Case(b"Dchs", b"\x09\0\0", 18),
                Case(b"Dchs", b"\x09\0\x02Tz", 18),
            ],
        );
    }

    // Told at the field that is cut, or whose length passes the end.
    #[test]
    fn draw_cut_short(rt: HostRuntime) {
        all_refused(
            &rt,
            &[
                Case(b"", b"\x01", 0),
                Case(b"", b"\x01\0", 0),
                Case(b"", b"\x01\0\x01", 0),
                Case(b"", b"\x01\x01\x01D", 0),
                Case(b"D", b"\x02", 4),
                Case(b"D", b"\x02\0", 4),
                Case(b"D", b"\x02\0\x01", 4),
                Case(b"D", b"\x02\x01\x01c", 4),
                Case(b"Dc", b"\x03", 8),
                Case(b"Dc", b"\x03\0", 8),
                Case(b"Dc", b"\x03\0\x01", 8),
                Case(b"Dc", b"\x03\x01\x01h", 8),
                Case(b"Dch", b"\x08", 12),
                Case(b"Dch", b"\x08\0", 12),
                Case(b"Dch", b"\x08\0\x03", 12),
                Case(b"Dch", b"\x08\0\x03\x03d", 12),
                Case(b"Dch", b"\x08\x01\x03\x03dd", 12),
                Case(b"Dchs", b"\x09", 18),
                Case(b"Dchs", b"\x09\0", 18),
                Case(b"Dchs", b"\x09\0\x01", 18),
                Case(b"Dchs", b"\x09\x01\x01T", 18),
            ],
        );
    }

    // Told at the end; at the start where the verb is missing.
    #[test]
    fn return_with_a_field_missing(rt: HostRuntime) {
        all_refused(
            &rt,
            &[
                Case(b"ch", b"", 0),
                Case(b"Rh", b"", 8),
                Case(b"Rc", b"", 8),
            ],
        );
    }

    // Told at the second.
    #[test]
    fn return_with_a_field_doubled(rt: HostRuntime) {
        all_refused(
            &rt,
            &[
                Case(b"RRch", b"", 4),
                Case(b"Rcch", b"", 8),
                Case(b"Rchh", b"", 12),
            ],
        );
    }

    // Told at the lower tag, which comes too late; at the start where the verb does.
    #[test]
    fn return_with_two_fields_exchanged(rt: HostRuntime) {
        all_refused(&rt, &[Case(b"cRh", b"", 0), Case(b"Rhc", b"", 8)]);
    }

    // Told at that field, whatever it holds.
    #[test]
    fn return_with_a_field_that_it_has_not(rt: HostRuntime) {
        all_refused(
            &rt,
            &[
                Case(b"Rchg", b"", 12),
                Case(b"Rchx", b"", 12),
                Case(b"Rchy", b"", 12),
                Case(b"Rchm", b"", 12),
                Case(b"Rchs", b"", 12),
                Case(b"Rcho", b"", 12),
                Case(b"Rchn", b"", 12),
                Case(b"Rch", b"\x0b\0\x01z", 12),
                Case(b"Rch", b"\xff\0\0", 12),
                Case(b"", b"\0\0\x01z", 0),
            ],
        );
    }

    // Told at that field.
    #[test]
    fn return_with_a_value_too_short_or_too_long(rt: HostRuntime) {
        all_refused(
            &rt,
            &[
                Case(b"", b"\x01\0\0", 0),
                Case(b"", b"\x01\0\x02Rz", 0),
                Case(b"R", b"\x02\0\0", 4),
                Case(b"R", b"\x02\0\x02cz", 4),
                Case(b"Rc", b"\x03\0\0", 8),
                Case(b"Rc", b"\x03\0\x02hz", 8),
            ],
        );
    }

    // Told at the field that is cut, or whose length passes the end.
    #[test]
    fn return_cut_short(rt: HostRuntime) {
        all_refused(
            &rt,
            &[
                Case(b"", b"\x01", 0),
                Case(b"", b"\x01\0", 0),
                Case(b"", b"\x01\0\x01", 0),
                Case(b"", b"\x01\x01\x01R", 0),
                Case(b"R", b"\x02", 4),
                Case(b"R", b"\x02\0", 4),
                Case(b"R", b"\x02\0\x01", 4),
                Case(b"R", b"\x02\x01\x01c", 4),
                Case(b"Rc", b"\x03", 8),
                Case(b"Rc", b"\x03\0", 8),
                Case(b"Rc", b"\x03\0\x01", 8),
                Case(b"Rc", b"\x03\x01\x01h", 8),
            ],
        );
    }

    // Small letters are none.
    #[test]
    fn letters_of_no_verb(rt: HostRuntime) {
        all_refused(
            &rt,
            &[
                Case(b"", b"\x01\0\x01B", 0),
                Case(b"", b"\x01\0\x01E", 0),
                Case(b"", b"\x01\0\x01J", 0),
                Case(b"", b"\x01\0\x01T", 0),
                Case(b"", b"\x01\0\x01i", 0),
                Case(b"", b"\x01\0\x01a", 0),
                Case(b"", b"\x01\0\x01w", 0),
                Case(b"", b"\x01\0\x01d", 0),
                Case(b"", b"\x01\0\x01r", 0),
                Case(b"", b"\x01\0\x01\0", 0),
                Case(b"", b"\x01\0\x01\xff", 0),
            ],
        );
    }

    // Told at the mode.
    #[test]
    fn letters_of_no_mode(rt: HostRuntime) {
        all_refused(
            &rt,
            &[
                Case(b"Ichgxy", b"\x07\0\x01A", 26),
                Case(b"Ichgxy", b"\x07\0\x01I", 26),
                Case(b"Ichgxy", b"\x07\0\x01T", 26),
                Case(b"Ichgxy", b"\x07\0\x01e", 26),
                Case(b"Ichgxy", b"\x07\0\x01r", 26),
                Case(b"Ichgxy", b"\x07\0\x01\0", 26),
                Case(b"Acxy", b"\x07\0\x01A", 18),
                Case(b"Acxy", b"\x07\0\x01I", 18),
                Case(b"Acxy", b"\x07\0\x01T", 18),
                Case(b"Acxy", b"\x07\0\x01e", 18),
                Case(b"Acxy", b"\x07\0\x01r", 18),
                Case(b"Acxy", b"\x07\0\x01\0", 18),
            ],
        );
    }

    // Told at the outcome.
    #[test]
    fn letters_of_no_outcome(rt: HostRuntime) {
        all_refused(
            &rt,
            &[
                Case(b"Dchs", b"\x09\0\x01E", 18),
                Case(b"Dchs", b"\x09\0\x01R", 18),
                Case(b"Dchs", b"\x09\0\x01D", 18),
                Case(b"Dchs", b"\x09\0\x01t", 18),
                Case(b"Dchs", b"\x09\0\x01l", 18),
                Case(b"Dchs", b"\x09\0\x01\0", 18),
            ],
        );
    }

    // Entries that are not whole, variables that are not from 2 to 7, or do not rise.
    #[test]
    fn states_that_are_none(rt: HostRuntime) {
        all_refused(
            &rt,
            &[
                Case(b"Dch", b"\x08\0\x01\x02", 12),
                Case(b"Dch", b"\x08\0\x02\x02\0", 12),
                Case(b"Dch", b"\x08\0\x04\x02\0\0\x03", 12),
                Case(b"Dch", b"\x08\0\x05\x02\0\0\x03\0", 12),
                Case(b"Dch", b"\x08\0\x03\0\0\x01", 12),
                Case(b"Dch", b"\x08\0\x03\x01\0\x01", 12),
                Case(b"Dch", b"\x08\0\x03\x08\0\x01", 12),
                Case(b"Dch", b"\x08\0\x03\xff\0\x01", 12),
                Case(b"Dch", b"\x08\0\x06\x02\0\x01\x02\0\x01", 12),
                Case(b"Dch", b"\x08\0\x06\x03\0\x01\x02\0\x01", 12),
                Case(b"Dch", b"\x08\0\x06\x07\0\x01\x08\0\x01", 12),
                Case(
                    b"Dch",
                    b"\x08\0\x15\x02\0\0\x03\0\0\x04\0\0\x05\0\0\x06\0\0\x07\0\0\x07\0\0",
                    12,
                ),
                Case(
                    b"Dch",
                    b"\x08\0\x12\x02\0\0\x03\0\0\x04\0\0\x05\0\0\x06\0\0\x06\0\0",
                    12,
                ),
                Case(b"Ichg", b"\x08\0\x06\x03\0\0\x02\0\0", 16),
                Case(b"Ac", b"\x08\0\x02\x07\0", 8),
            ],
        );
    }
}
