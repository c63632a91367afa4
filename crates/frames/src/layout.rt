//! Cutting a session file into its parts.
ghost use Rattle.std.specs.Prelude.{◌≡◌, ◌≤◌, length, Result};
ghost use Rattle.std.specs.Option.{option_map, option_and_then as then};
ghost use Rattle.frames.specs.Frames.{Parts, field_of, set_in, condition_length, book_length, split, laid_out, next_command};
ghost use Rattle.frames.specs.Law.{Framed};
ghost use Rattle.frames.specs.Views.{seen_as, parts_of, piece_of, kept_of};

use crate::parts::SetUp;
use commands::fields::{Parsed, first_field, length_of};
use faults::{Fault, Refusal};

/// The value of the first field, which has this tag, and the bytes behind it; none where another
/// field stands there, or one that is cut.
fn field<'a>(bytes: &'a [u8], tag: u8) -> Option<Parsed<'a, &'a [u8]>>
    ensures { option_map piece_of result ≡ field_of tag bytes.now }
{
    let first = first_field(bytes)?;
    if first.value.tag == tag {
        Some(Parsed {
            value: first.value.value,
            rest: first.rest,
        })
    } else {
        None
    }
}

/// The record of the next command and the bytes behind it; none where no whole command stands.
pub fn next_command<'a>(bytes: &'a [u8]) -> Option<Parsed<'a, &'a [u8]>>
    ensures { option_map piece_of result ≡ next_command bytes.now }
{
    field(bytes, 0xF3)
}

/// The kept set, a field with a value of one byte.
fn kept_set<'a>(bytes: &'a [u8]) -> Option<Parsed<'a, u8>>
    ensures { option_map kept_of result ≡ then set_in (field_of 0xF1 bytes.now) }
{
    let piece = field(bytes, 0xF1)?;
    match piece.value {
        [set] => Some(Parsed {
            value: *set,
            rest: piece.rest,
        }),
        _ => None,
    }
}

/// How many bytes the C1 field takes that stands at the front, as far as there are bytes; 0 where
/// none stands there.
fn condition_len(bytes: &[u8]) -> usize
    ensures is { result ≡ condition_length bytes.now }
    ensures within { result ≤ length bytes.now }
{
    match bytes {
        [0xC1, hi, lo, ..] => bytes.len().min(3 + length_of(*hi, *lo)),
        [0xC1, ..] => bytes.len(),
        _ => 0,
    }
}

/// How many bytes at the front are C1 fields.
fn book_len(bytes: &[u8]) -> usize
    ensures is { result ≡ book_length 0 bytes.now }
    ensures within { result ≤ length bytes.now }
{
    let mut rest = bytes;
    // stays: fields differ in length, so that each says where the next one begins; no chunk or window
    // of a slice does that.
    while let [0xC1, ..] = rest {
        rest = &rest[condition_len(rest)..];
    }
    bytes.len() - rest.len()
}

/// The bytes behind the kept set are the book and then the commands.
fn parts<'a>(owners: &'a [u8], kept: Parsed<'a, u8>) -> SetUp<'a>
    ensures { parts_of result ≡ split owners.now (kept_of kept.entry) }
{
    let (book, commands) = kept.rest.split_at(book_len(kept.rest));
    SetUp {
        owners,
        kept: kept.value,
        book,
        commands,
    }
}

/// Takes part after part.
fn lay_out<'a>(file: &'a [u8]) -> Result<SetUp<'a>, Fault>
    ensures { seen_as parts_of result ≡ laid_out file.now }
{
    let owners = field(file, 0xF0).ok_or(Refusal::CommandIllFormed.at(0))?;
    let at = 3 + owners.value.len();
    let kept = kept_set(owners.rest).ok_or(Refusal::CommandIllFormed.at(at))?;
    Ok(parts(owners.value, kept))
}

/// The parts of a file, or the offset at which the owners or the kept set should stand.
pub fn set_up<'a>(file: &'a [u8]) -> Result<SetUp<'a>, Fault>
    ensures is { seen_as parts_of result ≡ laid_out file.now }
    ensures law { Framed file.now (seen_as parts_of result) }
    ensures only { (q : Result Parts Fault) → Framed file.now q → q ≡ seen_as parts_of result }
{
    lay_out(file)
}
