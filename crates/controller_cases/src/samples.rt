//! What the cases share: reports, terms, cabinets, and what is checked of an answer.
use crate::visits::{End, visit};
use conditions::language::Language;
use controller::cabinet::Cabinet;
use faults::{Fault, Layer, Refusal};
use grants::Mode;
use grants::terms::Terms;
use sheets::row::Row;
use sheets::sheet::Sheet;
use states::report::Report;
use std::process::Abort;
use std::test::Fail;

/// A report of the minute and of the day.
pub(crate) fn told(time: Option<u16>, day: Option<u16>) -> Report {
    Report {
        time,
        day,
        ..Report::default()
    }
}

/// A report that tells nothing.
pub(crate) fn untold() -> Report {
    told(None, None)
}

/// Terms that nothing is reported with.
pub(crate) fn terms(execute: u16, onward: u16, mode: Mode) -> Terms {
    Terms {
        execute,
        onward,
        mode,
        report: untold(),
    }
}

/// Person 1 owns every hook but 3, which nobody has, and 31, which is person 200's.
pub(crate) fn owners() -> [u8; 32] {
    let mut owners = [1; 32];
    owners[3] = 0;
    owners[31] = 200;
    owners
}

/// A cabinet over the language, fitted with these owners.
pub(crate) fn fitted<L: Language>(language: L, kept: u8) -> Cabinet<L> {
    let mut cabinet = Cabinet::new(language);
    let _ = cabinet.fit(&owners(), kept);
    cabinet
}

/// A row that asks nothing.
pub(crate) fn blank_row() -> Row {
    Row {
        from: 0,
        to: 1439,
        days: 127,
        groups: 0,
        path: 0,
        barred: 0,
    }
}

/// Condition 2 asks for office hours, 480 to 1080; 3 for a weekday; 4 for a receiver other than 9.
pub(crate) fn sheet() -> Sheet {
    let mut sheet = Sheet::new();
    let _ = sheet.add(Row {
        from: 480,
        to: 1080,
        ..blank_row()
    });
    let _ = sheet.add(Row {
        days: 31,
        ..blank_row()
    });
    let _ = sheet.add(Row {
        barred: 9,
        ..blank_row()
    });
    sheet
}

/// The caller gives hook 0 to the grantee, without conditions, and the grant has this number.
pub(crate) fn check_given<L: Language>(
    rt: &impl Abort,
    cabinet: &mut Cabinet<L>,
    caller: u8,
    grantee: u8,
    mode: Mode,
    number: u32,
) {
    assert_eq!(rt;
        cabinet.issue(caller, 0, grantee, &terms(0, 0, mode)),
        Ok(number)
    );
}

/// A refusal by the cabinet, for this reason at this place.
pub(crate) fn check_refused<T: Drop>(
    rt: &impl Abort,
    answer: Result<T, Fault>,
    refusal: Refusal,
    place: usize,
) -> Result<(), Fail> {
    let refused = Fault {
        refusal,
        place,
        layer: Layer::Cabinet,
    };
    match answer {
        Ok(_) => Err(Fail::new("it is accepted")),
        Err(fault) => {
            assert_eq!(rt; fault, refused);
            Ok(())
        }
    }
}

/// A draw from a hook, whose slip is left at once, names the chain of so many grants.
pub(crate) fn check_chain<L: Language>(
    rt: &impl Abort,
    cabinet: &mut Cabinet<L>,
    caller: u8,
    hook: u8,
    length: u8,
    expected: &[u32; 8],
) -> Result<(), Fail> {
    let mut list = [9; 8];
    assert_eq!(rt;
        visit(End::Left, cabinet, caller, hook, &untold(), &mut list),
        Ok((hook, caller, length))
    );
    assert_eq!(rt; list, *expected);
    Ok(())
}

/// A draw from hook 0 is refused for want of a chain.
pub(crate) fn check_chainless<L: Language>(
    rt: &impl Abort,
    cabinet: &mut Cabinet<L>,
    caller: u8,
) -> Result<(), Fail> {
    let mut list = [9; 8];
    check_refused(
        rt,
        visit(End::Left, cabinet, caller, 0, &untold(), &mut list),
        Refusal::NoChain,
        0,
    )
}
