//! A session: the commands of a file, one after another.
ghost use Rattle.std.specs.Prelude.{◌≡◌, ◌-◌, ◌≤◌, length, IfOk, string_bytes};
ghost use Rattle.sessions.specs.Performing.{Answers, writes, continues};

use crate::lines::{line_of, unread_line};
use crate::perform::perform;
use commands::reader::read;
use conditions::language::Language;
use controller::cabinet::Cabinet;
use faults::{Fault, Refusal};
use frames::layout::next_command;
use std::alloc::{AllocError, Global};

/// Puts a command's record to the cabinet; answers its line.
fn answer<L: Language>(
    heap: Global,
    cabinet: &mut Cabinet<L>,
    count: usize,
    bytes: &[u8],
) -> Result<String, AllocError>
    ensures left { Answers L.size L.says cabinet.old bytes.now cabinet.new }
    ensures written { IfOk result (λ s. string_bytes s ≡ writes L.size L.says cabinet.old count bytes.now) }
{
    match read(bytes) {
        Ok(command) => line_of(heap, count, command.verb(), perform(cabinet, command)),
        Err(fault) => unread_line(heap, count, fault),
    }
}

/// The lines of all commands; they reach to the end of the file, which has `end` bytes.
pub(crate) fn answer_all<L: Language>(
    heap: Global,
    cabinet: &mut Cabinet<L>,
    end: usize,
    commands: &[u8],
) -> Result<String, AllocError>
    requires { length commands.now ≤ end }
    ensures { IfOk result (λ s. string_bytes s ≡ continues L.size L.says cabinet.old 1 (end - length commands.now) commands.now) }
{
    let mut text = String::new(heap);
    let mut rest = commands;
    let mut count = 1;
    // stays: a line needs its count, and a refusal what is left of the file; an iterator would carry
    // both along, and where it fails the loop ends all the same.
    while !rest.is_empty() {
        let Some(record) = next_command(rest) else {
            let fault = Refusal::CommandIllFormed.at(end - rest.len());
            let line = unread_line(heap, count, fault)?;
            text.push_str(line.as_str())?;
            return Ok(text);
        };
        let line = answer(heap, cabinet, count, record.value)?;
        text.push_str(line.as_str())?;
        rest = record.rest;
        count += 1;
    }
    Ok(text)
}
