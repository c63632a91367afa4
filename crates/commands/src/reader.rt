//! The reader of a command record.
ghost use Rattle.std.specs.Prelude.{◌≡◌, Result};
ghost use Rattle.std.specs.Option.{option_map};
ghost use Rattle.commands.specs.Drafts.{taken, left};
ghost use Rattle.commands.specs.Law.{Reads, WrittenIsRead, WholeIsWritten};
ghost use Rattle.commands.specs.Reading.{reading};

use crate::drafts::Draft;
use crate::fields::{Parsed, first_field};
use crate::tokens::token_of;
use command_words::Command;
use faults::{Fault, Refusal};

/// The draft with the first field, and the bytes behind it; none where that field breaks a rule.
fn advance<'a>(draft: Draft, bytes: &'a [u8]) -> Option<Parsed<'a, Draft>>
    ensures { option_map left result ≡ taken draft bytes.now }
{
    let first = first_field(bytes)?;
    let token = token_of(first.value)?;
    let draft = draft.admit(token)?;
    Some(Parsed {
        value: draft,
        rest: first.rest,
    })
}

/// The command that the record holds, or the offset of its first field that breaks a rule, or
/// that of its end where a field is missing.
pub fn read(bytes: &[u8]) -> Result<Command, Fault>
    ensures is { result ≡ reading bytes.now }
    ensures law { Reads bytes.now result }
    ensures only { (q : Result Command Fault) → Reads bytes.now q → q ≡ result }
    ensures written { WrittenIsRead bytes.now result }
    ensures whole { WholeIsWritten bytes.now result }
{
    walk(bytes)
}

/// Takes field by field into a draft.
fn walk(bytes: &[u8]) -> Result<Command, Fault>
    ensures { result ≡ reading bytes.now }
{
    let mut draft = Draft::blank();
    let mut rest = bytes;
    // stays: a fold over the fields would carry the draft and the offset of each along, and reads no
    // plainer than this loop.
    while !rest.is_empty() {
        let at = bytes.len() - rest.len();
        let step = advance(draft, rest).ok_or(Refusal::CommandIllFormed.at(at))?;
        draft = step.value;
        rest = step.rest;
    }
    draft
        .close()
        .ok_or(Refusal::CommandIllFormed.at(bytes.len()))
}
