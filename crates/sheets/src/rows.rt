//! The rows of a sheet: adding one, and asking them.
ghost use Rattle.std.specs.Prelude.{◌≡◌, ◌+◌, [], ◌∷◌, ◌++◌, is_ok, if◌then◌else◌};
ghost use Rattle.arrayvec.specs.ArrayVec.{array_vec_len};
ghost use Rattle.sheets.specs.Sheets.{added, Judged, sheet_says};
ghost use Rattle.sheets.specs.SheetLaws.{sheet_lawful};

use crate::row::Row;
use crate::sheet::Sheet;
use arrayvec::ArrayVec;
use conditions::language::Language;
use conditions::truth::Truth;
use faults::{Fault, Refusal};
use states::state::State;

impl Sheet {
    /// A sheet without rows.
    pub fn new() -> Sheet
        ensures used { array_vec_len result.rows ≡ 0 }
        ensures rows { result.rows.items ≡ [] }
    {
        Sheet {
            rows: ArrayVec::new(),
        }
    }

    /// Adds a row and answers its number. Refused with place 0 of a full sheet, and else with the
    /// first part that is out of range; a refused row leaves the sheet as it was.
    pub fn add(&mut self, row: Row) -> Result<u16, Fault>
        ensures is { result ≡ added (array_vec_len self.old.rows) row }
        ensures law { Judged (array_vec_len self.old.rows) row result }
        ensures rows { self.new.rows.items ≡ (if is_ok result then self.old.rows.items ++ row ∷ [] else self.old.rows.items) }
        ensures used { array_vec_len self.new.rows ≡ (if is_ok result then array_vec_len self.old.rows + 1 else array_vec_len self.old.rows) }
    {
        if self.rows.is_full() {
            return Err(Refusal::ConditionsIllFormed.at(0));
        }
        if let Some(part) = row.first_bad() {
            return Err(Refusal::ConditionsIllFormed.at(part));
        }
        self.rows.push(row);
        Ok(self.rows.len() as u16 + 1)
    }
}

impl Language for Sheet {
    ghost size = { λ l. array_vec_len l.rows + 2 };

    ghost says = { λ l. sheet_says l.rows.items (array_vec_len l.rows) };

    ghost lawful = { λ l. sheet_lawful l.rows.items (array_vec_len l.rows) l.few };

    fn count(&self) -> u16 {
        self.rows.len() as u16 + 2
    }

    fn truth(&self, n: u16, state: &State) -> Truth {
        // stays: a shared function for 0 and 1 would take the rest as a closure with its own clauses
        match n {
            0 => Truth::True,
            1 => Truth::False,
            _ => self
                .rows
                .get(n as usize - 2)
                .map_or(Truth::Unknown, |row| row.truth(state)),
        }
    }
}
