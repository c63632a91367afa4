//! The value of a state: what a caller tells, entry by entry.
ghost use Rattle.std.specs.Prelude.{◌≡◌};
ghost use Rattle.commands.specs.Steps.{rising, noted, reported, unknown};

use states::report::Report;
use states::state::{DAY, GROUPS, LEVEL, PATH, STATUS, TIME};

/// Whether the value is a state: a variable and two bytes each, rising, from 2 to 7.
pub(crate) fn is_state(value: &[u8]) -> bool
    ensures { result ≡ rising 1 value.now }
{
    let (entries, left_over) = value.as_chunks::<3>();
    let mut last: u8 = 1;
    for &[v, _, _] in entries {
        if v <= last || v > 7 {
            return false;
        }
        last = v;
    }
    left_over.is_empty()
}

/// The report with one value more.
fn note(report: &mut Report, v: u8, n: u16)
    ensures { report.new ≡ noted report.old v n }
{
    match v {
        TIME => report.time = Some(n),
        DAY => report.day = Some(n),
        GROUPS => report.groups = Some(n),
        PATH => report.path = Some(n),
        LEVEL => report.level = Some(n),
        STATUS => report.status = Some(n),
        _ => {}
    }
}

/// What the bytes of a state tell.
pub(crate) fn report_of(value: &[u8]) -> Report
    ensures { result ≡ reported unknown value.now }
{
    let (entries, _) = value.as_chunks::<3>();
    let mut report = Report::default();
    for &[v, hi, lo] in entries {
        note(&mut report, v, u16::from_be_bytes([hi, lo]));
    }
    report
}
