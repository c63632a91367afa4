//! What a command says; specs/ has the format in which it is spelled.
#![tactic(auto)]

ghost use Rattle.std.specs.Prelude.{◌≡◌};
ghost use Rattle.command_words.specs.Format.{verb_of, caller_of};

use grants::terms::Terms;
use states::report::Report;

pub mod letter;

/// What a command asks for; letters I, A, W, D and R.
#[derive(Clone, Copy, Debug, PartialEq, Eq)]
pub enum Verb {
    Issue,
    Amend,
    Withdraw,
    Draw,
    Return,
}

/// What became of the key that was drawn.
#[derive(Clone, Copy, Debug, PartialEq, Eq)]
pub enum Outcome {
    /// Letter T: the key was taken.
    Taken,
    /// Letter L: it was left on its hook.
    Left,
}

/// A command. `terms` is what the caller lays down for a grant, `report` the state that he tells,
/// `number` a grant's. Whether such a person, hook, condition or grant exists is not asked here.
#[derive(Clone, Copy, Debug, PartialEq, Eq)]
pub enum Command {
    Issue {
        caller: u8,
        hook: u8,
        grantee: u8,
        terms: Terms,
    },
    Amend {
        caller: u8,
        number: u32,
        terms: Terms,
    },
    Withdraw {
        caller: u8,
        number: u32,
    },
    Draw {
        caller: u8,
        hook: u8,
        report: Report,
        outcome: Outcome,
    },
    Return {
        caller: u8,
        hook: u8,
    },
}

impl Command {
    /// What the command asks for.
    pub fn verb(self) -> Verb
        ensures { result ≡ verb_of self }
    {
        match self {
            Command::Issue { .. } => Verb::Issue,
            Command::Amend { .. } => Verb::Amend,
            Command::Withdraw { .. } => Verb::Withdraw,
            Command::Draw { .. } => Verb::Draw,
            Command::Return { .. } => Verb::Return,
        }
    }

    /// Who gives the command.
    pub fn caller(self) -> u8
        ensures { result ≡ caller_of self }
    {
        match self {
            Command::Issue { caller, .. }
            | Command::Amend { caller, .. }
            | Command::Withdraw { caller, .. }
            | Command::Draw { caller, .. }
            | Command::Return { caller, .. } => caller,
        }
    }
}
