//! The text of a line.
ghost use Rattle.std.specs.Prelude.{◌≡◌, [], ◌∷◌, IfOk, string_bytes};
ghost use Rattle.command_words.specs.Format.{verb_letter};
ghost use Rattle.sessions.specs.Lines.{line, unread};

use command_words::Verb;
use faults::Fault;
use std::alloc::{AllocError, Global};

/// The line of a command: its count, its verb and the answer to it.
pub(crate) fn line_of(
    heap: Global,
    count: usize,
    verb: Verb,
    answer: Result<u32, Fault>,
) -> Result<String, AllocError>
    ensures { IfOk result (λ s. string_bytes s ≡ line count (verb_letter verb ∷ []) answer) }
{
    match answer {
        Ok(number) => format!(in heap; "{count} {verb} ok {number}\n"),
        Err(fault) => format!(in heap; "{count} {verb} {fault}\n"),
    }
}

/// The line of something that is no command.
pub(crate) fn unread_line(heap: Global, count: usize, fault: Fault) -> Result<String, AllocError>
    ensures { IfOk result (λ s. string_bytes s ≡ unread count fault) }
{
    format!(in heap; "{count} ? {fault}\n")
}
