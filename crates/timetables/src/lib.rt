//! The timetable of a book: what each of its conditions says through a day.
#![tactic(auto)]

ghost use Rattle.std.specs.Prelude.{◌≡◌, ◌++◌, IfOk, string_bytes, codes, decimal, OnOk};
ghost use Rattle.timetables.specs.Timetables.{at_minute, piece_of, truths, course, line, table_of, refused, printed};

use books::book::Book;
use books::field::check;
use conditions::language::Language;
use conditions::truth::Truth;
use faults::Fault;
use states::report::Report;
use states::state::State;
use std::alloc::{AllocError, Global};

/// How many minutes a day has.
const DAY: u16 = 1440;

/// The state in which person 1 calls and only the minute of the day is told.
fn at_minute(minute: u16) -> State
    ensures { result ≡ at_minute minute }
{
    let report = Report {
        time: Some(minute),
        ..Report::default()
    };
    report.state(1, None)
}

/// Adds what a minute adds to its line, if the truth of the minute before was `before`: nothing
/// where the truth is the same.
fn add_piece(
    text: &mut String,
    before: Option<Truth>,
    minute: u16,
    truth: Truth,
) -> Result<(), AllocError>
    ensures { OnOk result (string_bytes text.new ≡ string_bytes text.old ++ piece_of before minute truth) }
{
    match before {
        None => write!(text, "{minute} {truth}"),
        Some(last) if last == truth => Ok(()),
        Some(_) => write!(text, ", {minute} {truth}"),
    }
}

/// Adds the course of condition `n` through a day.
fn add_course<L: Language>(text: &mut String, language: &L, n: u16) -> Result<(), AllocError>
    ensures { OnOk result (string_bytes text.new ≡ string_bytes text.old ++ course (truths (L.says language.now) n) 1440) }
{
    let mut before = None;
    for minute in 0..DAY {
        let truth = language.truth(n, &at_minute(minute));
        add_piece(text, before, minute, truth)?;
        before = Some(truth);
    }
    Ok(())
}

/// Adds the line of condition `n`.
fn add_line<L: Language>(text: &mut String, language: &L, n: u16) -> Result<(), AllocError>
    ensures { OnOk result (string_bytes text.new ≡ string_bytes text.old ++ line (L.says language.now) n) }
{
    write!(text, "{n}: ")?;
    add_course(text, language, n)?;
    text.push_str("\n")?;
    Ok(())
}

/// The whole timetable of a language: how many conditions of its own it has, and a line for each.
fn table<L: Language>(heap: Global, language: &L) -> Result<String, AllocError>
    ensures { IfOk result (λ s. string_bytes s ≡ table_of (L.size language.now) (L.says language.now)) }
{
    let own = language.count().saturating_sub(2);
    let mut text = format!(in heap; "conditions {own}\n")?;
    for n in 2..language.count() {
        add_line(&mut text, language, n)?;
    }
    Ok(text)
}

/// A refusal as it is printed.
fn refusal(heap: Global, fault: Fault) -> Result<String, AllocError>
    ensures { IfOk result (λ s. string_bytes s ≡ refused fault) }
{
    format!(in heap; "{fault}\n")
}

/// What is printed of a book: its timetable, or the refusal of an ill-formed one.
pub fn print_book(heap: Global, bytes: &[u8]) -> Result<String, AllocError>
    ensures { IfOk result (λ s. string_bytes s ≡ printed bytes.now) }
{
    match check(bytes) {
        Ok(_) => table(heap, &Book::open(bytes)),
        Err(fault) => refusal(heap, fault),
    }
}
