//! A token: one field that has been understood.
ghost use Rattle.std.specs.Prelude.{◌≡◌};
ghost use Rattle.std.specs.Option.{option_map};
ghost use Rattle.commands.specs.Steps.{sense, worth, tag_of};

use crate::fields::Field;
use crate::values::is_state;
use command_words::letter::Letter;
use command_words::{Outcome, Verb};
use grants::Mode;

/// What one field says. A state keeps its bytes, which are a part of the command itself.
#[derive(Clone, Copy)]
pub(crate) enum Token<'a> {
    Verb(Verb),
    Caller(u8),
    Hook(u8),
    Grantee(u8),
    Execute(u16),
    Onward(u16),
    Mode(Mode),
    State(&'a [u8]),
    Outcome(Outcome),
    Number(u32),
}

/// The token of a field; none where there is no such tag, or the value is not of its kind.
pub(crate) fn token_of<'a>(field: Field<'a>) -> Option<Token<'a>>
    ensures { option_map sense result ≡ worth field.entry.tag field.entry.value.now }
{
    match (field.tag, field.value) {
        (1, [letter]) => Some(Token::Verb(Verb::of_letter(*letter)?)),
        (2, [n]) => Some(Token::Caller(*n)),
        (3, [n]) => Some(Token::Hook(*n)),
        (4, [n]) => Some(Token::Grantee(*n)),
        (5, [hi, lo]) => Some(Token::Execute(u16::from_be_bytes([*hi, *lo]))),
        (6, [hi, lo]) => Some(Token::Onward(u16::from_be_bytes([*hi, *lo]))),
        (7, [letter]) => Some(Token::Mode(Mode::of_letter(*letter)?)),
        (8, state) if is_state(state) => Some(Token::State(state)),
        (9, [letter]) => Some(Token::Outcome(Outcome::of_letter(*letter)?)),
        (10, [a, b, c, d]) => Some(Token::Number(u32::from_be_bytes([*a, *b, *c, *d]))),
        _ => None,
    }
}

impl Token<'_> {
    /// The tag of the field that a token came from.
    pub(crate) fn tag(self) -> u8
        ensures { result ≡ tag_of (sense self.entry) }
    {
        match self {
            Token::Verb(_) => 1,
            Token::Caller(_) => 2,
            Token::Hook(_) => 3,
            Token::Grantee(_) => 4,
            Token::Execute(_) => 5,
            Token::Onward(_) => 6,
            Token::Mode(_) => 7,
            Token::State(_) => 8,
            Token::Outcome(_) => 9,
            Token::Number(_) => 10,
        }
    }
}
