//! Writes a command as a record of 64 bytes.
ghost use Rattle.std.specs.Prelude.{◌≡◌, ◌≤◌, [], length, take, Ok};
ghost use Rattle.command_words.specs.Format.{fields_of_terms, fields_of, wire};
ghost use Rattle.command_writer.specs.Pens.{penned, start, filled};

use crate::pens::Pen;
use command_words::Command;
use command_words::letter::Letter;
use commands::reader::read;
use faults::Fault;
use grants::terms::Terms;

/// A pen that has written the verb and the caller.
fn begin(command: Command) -> Pen
    ensures { result.bytes.items ≡ penned [] (start command) }
{
    let mut pen = Pen::new();
    pen.field(1, &[command.verb().letter()]);
    pen.field(2, &[command.caller()]);
    pen
}

/// The fields that a new grant and an amended one share.
fn put_terms(pen: &mut Pen, terms: Terms)
    ensures { pen.new.bytes.items ≡ penned pen.old.bytes.items (fields_of_terms terms []) }
{
    pen.field(5, &terms.execute.to_be_bytes());
    pen.field(6, &terms.onward.to_be_bytes());
    pen.field(7, &[terms.mode.letter()]);
    pen.state(terms.report);
}

/// Every field of the command.
fn pen_down(command: Command) -> Pen
    ensures { result.bytes.items ≡ penned [] (fields_of command) }
{
    let mut pen = begin(command);
    match command {
        Command::Issue {
            hook,
            grantee,
            terms,
            ..
        } => {
            pen.field(3, &[hook]);
            pen.field(4, &[grantee]);
            put_terms(&mut pen, terms);
        }
        Command::Amend { number, terms, .. } => {
            put_terms(&mut pen, terms);
            pen.field(10, &number.to_be_bytes());
        }
        Command::Withdraw { number, .. } => pen.field(10, &number.to_be_bytes()),
        Command::Draw {
            hook,
            report,
            outcome,
            ..
        } => {
            pen.field(3, &[hook]);
            pen.state(report);
            pen.field(9, &[outcome.letter()]);
        }
        Command::Return { hook, .. } => pen.field(3, &[hook]),
    }
    pen
}

/// Fills the 64 bytes with these, then zeros.
fn fill(out: &mut [u8; 64], bytes: &[u8])
    requires { length bytes.now ≤ 64 }
    ensures { out.new ≡ filled bytes.now }
{
    *out = [0; 64];
    out[..bytes.len()].copy_from_slice(bytes);
}

/// Fills the 64 bytes with every field of the command, then zeros, and answers the length of the
/// fields.
pub fn write(command: Command, out: &mut [u8; 64]) -> usize
    ensures long { result ≡ length (wire command) }
    ensures within { result ≤ 64 }
    ensures bytes { out.new ≡ filled (wire command) }
    ensures front { take result out.new ≡ wire command }
    ensures size { length out.new ≡ 64 }
{
    let pen = pen_down(command);
    let written = pen.written();
    fill(out, written);
    written.len()
}

/// The first bytes of a record.
fn first(bytes: &[u8], end: usize) -> &[u8]
    requires { end ≤ length bytes.now }
    ensures { result.now ≡ take end bytes.now }
{
    &bytes[..end]
}

/// A command that is written and read is the same command.
pub fn reread(command: Command) -> Result<Command, Fault>
    ensures { result ≡ Ok command }
{
    let mut bytes = [0u8; 64];
    let end = write(command, &mut bytes);
    read(first(&bytes, end))
}
