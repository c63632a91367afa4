//! Opening a book, and asking it.
ghost use Rattle.std.specs.Prelude.{◌≡◌, ◌+◌, ◌-◌, ◌≤◌, true, [], ◌∷◌, length, take, drop, is_some, IfSome};
ghost use Rattle.std.specs.Option.{option_map};
ghost use Rattle.std.specs.Result.{result_unwrap_or};
ghost use Rattle.arrayvec.specs.ArrayVec.{array_vec_len};
ghost use Rattle.books.specs.Readings.{tree};
ghost use Rattle.books.specs.Books.{Formed, Placed, start, long, checked, condition_of, book_says, Meant};
ghost use Rattle.books.specs.BookLaws.{book_lawful};
ghost use Rattle.books.specs.Windows.{office_hours, Window};

use crate::book::Book;
use crate::field::starts_of;
use crate::formula::truth_of;
use crate::item::wide;
use arrayvec::ArrayVec;
use conditions::language::Language;
use conditions::truth::Truth;
use states::state::State;

/// The length that the field at `at` states.
fn stated_len(bytes: &[u8], at: usize) -> usize
    requires { at + 3 ≤ length bytes.now }
    ensures { result ≡ long (drop at bytes.now) }
{
    wide(bytes[at + 1], bytes[at + 2]) as usize
}

/// The value of the field at `at`, a part of the book itself.
fn value_at<'a>(bytes: &'a [u8], at: usize, size: usize) -> &'a [u8]
    requires { at + 3 + size ≤ length bytes.now }
    ensures value { result.now ≡ take size (drop (at + 3) bytes.now) }
    ensures place { result.ref_ptr ≡ (bytes.entry.ref_ptr.0, bytes.entry.ref_ptr.1 + (at + 3)) }
{
    &bytes[at + 3..at + 3 + size]
}

impl<'a> Book<'a> {
    /// Opens a book; an ill-formed one has no conditions of its own.
    pub fn open(bytes: &'a [u8]) -> Book<'a>
        ensures bytes { result.bytes ≡ bytes.entry }
        ensures count { array_vec_len result.starts ≡ result_unwrap_or (checked bytes.now) 0 }
        ensures meant { Meant }
    {
        let starts = starts_of(bytes).unwrap_or(ArrayVec::new());
        Book { bytes, starts }
    }

    /// The bytes of condition `n`, a part of the book itself.
    pub fn condition(&self, n: u16) -> Option<&'a [u8]>
        ensures value { option_map (λ x. x.now) result ≡ condition_of self.now.bytes.now (array_vec_len self.now.starts) n }
        ensures place { IfSome result (λ x. x.ref_ptr ≡ (self.now.bytes.ref_ptr.0, self.now.bytes.ref_ptr.1 + (start self.now.bytes.now (n - 2) + 3))) }
        ensures formed { IfSome result (λ x. is_some (tree x.now) ≡ true) }
    {
        let k = n.checked_sub(2)?;
        let at = *self.starts.get(k as usize)? as usize;
        let size = stated_len(self.bytes, at);
        Some(value_at(self.bytes, at, size))
    }
}

impl<'a> Language for Book<'a> {
    ghost size = { λ b. array_vec_len b.starts + 2 };

    ghost says = { λ b. book_says b.bytes.now (array_vec_len b.starts) };

    ghost lawful = { λ b. book_lawful b.bytes.now (array_vec_len b.starts) b.formed };

    fn count(&self) -> u16 {
        self.starts.len() as u16 + 2
    }

    fn truth(&self, n: u16, state: &State) -> Truth {
        // stays: a shared function for 0 and 1 would take the rest as a closure with its own clauses
        match n {
            0 => Truth::True,
            1 => Truth::False,
            _ => self
                .condition(n)
                .map_or(Truth::Unknown, |bytes| truth_of(bytes, state)),
        }
    }
}

/// Tag, length, and the item: TIME lies from 480 to 1080.
fn hours_field() -> [u8; 9]
    ensures { result ≡ office_hours }
{
    [0xC1, 0, 6, 0xB1, 2, 1, 224, 4, 56]
}

/// A book of one condition: TIME lies from 480 to 1080, office hours.
pub fn office_hours() -> [u8; 9]
    ensures is { result ≡ office_hours }
    ensures window { Window result }
{
    hours_field()
}
