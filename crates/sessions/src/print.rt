//! The text that a session file prints.
ghost use Rattle.std.specs.Prelude.{◌≡◌, ◌≤◌, length, take, IfOk, string_bytes};
ghost use Rattle.controller.specs.Cabinets.{world};
ghost use Rattle.plain.specs.Record.{new};
ghost use Rattle.frames.specs.Views.{parts_of};
ghost use Rattle.sessions.specs.Sessions.{session, printed};
ghost use Rattle.sessions.specs.Performing.{Fitted, runs};

use crate::lines::unread_line;
use crate::session::answer_all;
use books::book::Book;
use books::field::check;
use conditions::language::Language;
use controller::cabinet::Cabinet;
use faults::Fault;
use frames::layout::set_up;
use frames::parts::SetUp;
use std::alloc::{AllocError, Global};

/// So many bytes of a file count.
const MOST: usize = 65535;

/// The bytes of a file that count.
fn front<'a>(file: &'a [u8]) -> &'a [u8]
    ensures { result.now ≡ take 65535 file.now }
{
    &file[..file.len().min(MOST)]
}

/// Fits a new cabinet, and then checks the book that it goes by.
fn prepare<L: Language>(cabinet: &mut Cabinet<L>, parts: SetUp<'_>) -> Result<(), Fault>
    requires fresh { world cabinet.old ≡ new }
    ensures { Fitted L.size L.says cabinet.old (parts_of parts.entry) result cabinet.new }
{
    cabinet.fit(parts.owners, parts.kept)?;
    check(parts.book)?;
    Ok(())
}

/// The text of a file with these parts that has `end` bytes, by a new cabinet.
fn run<L: Language>(
    heap: Global,
    cabinet: &mut Cabinet<L>,
    parts: SetUp<'_>,
    end: usize,
) -> Result<String, AllocError>
    requires fresh { world cabinet.old ≡ new }
    requires within { length parts.commands.now ≤ end }
    ensures { IfOk result (λ s. string_bytes s ≡ runs (L.size cabinet.old.language) (L.says cabinet.old.language) (parts_of parts.entry) end) }
{
    match prepare(cabinet, parts) {
        Ok(()) => answer_all(heap, cabinet, end, parts.commands),
        Err(fault) => unread_line(heap, 0, fault),
    }
}

/// The text of the bytes that count.
fn text_of(heap: Global, file: &[u8]) -> Result<String, AllocError>
    ensures { IfOk result (λ s. string_bytes s ≡ session file.now) }
{
    match set_up(file) {
        Ok(parts) => {
            let mut cabinet = Cabinet::new(Book::open(parts.book));
            run(heap, &mut cabinet, parts, file.len())
        }
        Err(fault) => unread_line(heap, 0, fault),
    }
}

/// What is printed of a session file: a line for each of its commands, or the refusal of its
/// set-up.
pub fn print_session(heap: Global, file: &[u8]) -> Result<String, AllocError>
    ensures { IfOk result (λ s. string_bytes s ≡ printed file.now) }
{
    text_of(heap, front(file))
}
