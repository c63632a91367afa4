//! Words that a command spells as one letter.
ghost use Rattle.std.specs.Prelude.{◌≡◌, ℕ, List, [], ◌∷◌, Some};
ghost use Rattle.command_words.specs.Letters.{named, Lettered};
ghost use Rattle.command_words.specs.Format.{verbs_all, verb_letter, modes_all, mode_letter, outcomes_all, outcome_letter};
ghost use Rattle.command_words.specs.LetterLaws.{verb_lettered, mode_lettered, outcome_lettered};

use crate::{Outcome, Verb};
use grants::Mode;
use std::fmt;

/// A word with a letter of its own. From the letter comes the word again, and no other letter names
/// it.
pub trait Letter: Copy {
    ghost words: { List Self };

    ghost letter_of: { Self → ℕ };

    ghost lettered: { Lettered words letter_of };

    /// The letter, as a byte.
    fn letter(self) -> u8
        ensures { result ≡ letter_of self };

    /// The word of this letter; none where the letter names none.
    fn of_letter(letter: u8) -> Option<Self>
        ensures { result ≡ named letter_of words letter };
}

impl Letter for Verb {
    ghost words = { verbs_all };

    ghost letter_of = { verb_letter };

    ghost lettered = { verb_lettered };

    fn letter(self) -> u8 {
        match self {
            Verb::Issue => b'I',
            Verb::Amend => b'A',
            Verb::Withdraw => b'W',
            Verb::Draw => b'D',
            Verb::Return => b'R',
        }
    }

    fn of_letter(letter: u8) -> Option<Verb> {
        match letter {
            b'I' => Some(Verb::Issue),
            b'A' => Some(Verb::Amend),
            b'W' => Some(Verb::Withdraw),
            b'D' => Some(Verb::Draw),
            b'R' => Some(Verb::Return),
            _ => None,
        }
    }
}

/// A verb is printed as its letter.
impl fmt::Display for Verb {
    ghost output = { λ verb. Some (verb_letter verb ∷ []) };

    fn fmt<W: fmt::Write>(&self, f: &mut fmt::Formatter<W>) -> fmt::Result {
        f.write_char(self.letter() as char)
    }
}

impl Letter for Mode {
    ghost words = { modes_all };

    ghost letter_of = { mode_letter };

    ghost lettered = { mode_lettered };

    fn letter(self) -> u8 {
        match self {
            Mode::Expiring => b'E',
            Mode::Resting => b'R',
        }
    }

    fn of_letter(letter: u8) -> Option<Mode> {
        match letter {
            b'E' => Some(Mode::Expiring),
            b'R' => Some(Mode::Resting),
            _ => None,
        }
    }
}

impl Letter for Outcome {
    ghost words = { outcomes_all };

    ghost letter_of = { outcome_letter };

    ghost lettered = { outcome_lettered };

    fn letter(self) -> u8 {
        match self {
            Outcome::Taken => b'T',
            Outcome::Left => b'L',
        }
    }

    fn of_letter(letter: u8) -> Option<Outcome> {
        match letter {
            b'T' => Some(Outcome::Taken),
            b'L' => Some(Outcome::Left),
            _ => None,
        }
    }
}
