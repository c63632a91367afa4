//! The fields of a book, and the check whether it is well formed.
ghost use Rattle.std.specs.Prelude.{◌≡◌, ◌≤◌, ◌&&◌, cond, length, drop, nat_lt, Ok, Err, IfOk, MatchResult};
ghost use Rattle.arrayvec.specs.ArrayVec.{array_vec_len};
ghost use Rattle.faults.specs.declared.Refusal.TheVariants.{ConditionsIllFormed};
ghost use Rattle.faults.specs.Faults.{fault};
ghost use Rattle.books.specs.Readings.{Spelled};
ghost use Rattle.books.specs.Books.{long, good_at, field_at, checked, Judged, Placed};

use crate::formula::is_formula;
use crate::item::wide;
use arrayvec::ArrayVec;
use faults::{Fault, Refusal};

/// The length of the condition, if a whole field with one stands at the front.
fn condition_len(rest: &[u8]) -> Option<usize>
    ensures { result ≡ field_at rest.now }
{
    let [0xC1, high, low, behind @ ..] = rest else {
        return None;
    };
    let size = wide(*high, *low) as usize;
    if size < 1 || size > 64 {
        return None;
    }
    is_formula(behind.get(..size)?).then_some(size)
}

/// The same of the field at `at`, behind `count` others; refused if there is none, or if it is
/// excess: past the 1,022nd, or reaching past byte 65,535.
fn next_field(bytes: &[u8], at: usize, count: usize) -> Result<usize, Fault>
    requires { at ≤ length bytes.now }
    ensures { result ≡ cond (nat_lt count 1022 && good_at bytes.now at) (Ok (long (drop at bytes.now))) (Err (fault ConditionsIllFormed at)) }
{
    condition_len(&bytes[at..])
        .filter(|size| count < 1022 && at + (3 + *size) <= 65535)
        .ok_or(Refusal::ConditionsIllFormed.at(at))
}

/// Where each of the book's fields begins; refused with the byte of the first bad or excess one.
pub(crate) fn starts_of(bytes: &[u8]) -> Result<ArrayVec<u16, 1022>, Fault>
    ensures is { MatchResult result (λ starts. checked bytes.now ≡ Ok (array_vec_len starts)) (λ e. checked bytes.now ≡ Err e) }
    ensures placed { IfOk result (λ starts. Placed bytes.now (array_vec_len starts) starts.items) }
{
    let mut starts = ArrayVec::new();
    // stays: this offset is the place of a refusal, and what `starts` tells
    let mut at = 0;
    while at < bytes.len() {
        let size = next_field(bytes, at, starts.len())?;
        starts.push(at as u16);
        at += 3 + size;
    }
    Ok(starts)
}

/// How many conditions the book has; refused with the byte of the first bad or excess field.
pub fn check(bytes: &[u8]) -> Result<u16, Fault>
    ensures is { result ≡ checked bytes.now }
    ensures law { Judged bytes.now result }
    ensures spelled { Spelled }
{
    starts_of(bytes).map(|starts| starts.len() as u16)
}
