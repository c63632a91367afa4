//! A draft: a command as far as it has been read.
ghost use Rattle.std.specs.Prelude.{◌≡◌};
ghost use Rattle.commands.specs.Steps.{sense};
ghost use Rattle.commands.specs.Drafts.{blank, belongs, noting, may_come, admitted, terms_in, closed};

use crate::tokens::Token;
use crate::values::report_of;
use command_words::{Command, Outcome, Verb};
use grants::Mode;
use grants::terms::Terms;
use states::report::Report;

/// What the fields have said so far, and the tag of the last one. Fields that may be missing
/// stand at what their absence means.
#[derive(Clone, Copy)]
pub(crate) struct Draft {
    last: u8,
    verb: Option<Verb>,
    caller: Option<u8>,
    hook: Option<u8>,
    grantee: Option<u8>,
    execute: u16,
    onward: u16,
    mode: Mode,
    report: Option<Report>,
    outcome: Option<Outcome>,
    number: Option<u32>,
}

impl Draft {
    /// The draft before the first field: condition 0 for drawing, condition 1 for granting on, and
    /// a grant that expires.
    // stays: no derived default, since what an absent field means is this format's own.
    pub(crate) fn blank() -> Draft
        ensures { result ≡ blank }
    {
        Draft {
            last: 0,
            verb: None,
            caller: None,
            hook: None,
            grantee: None,
            execute: 0,
            onward: 1,
            mode: Mode::Expiring,
            report: None,
            outcome: None,
            number: None,
        }
    }

    /// Whether a field of this tag may come next: tags rise, and the verb has it.
    fn may_come(self, tag: u8) -> bool
        ensures { result ≡ may_come self tag }
    {
        self.last < tag && has_field(self.verb, tag)
    }

    /// The draft with what one more field says.
    fn keep(mut self, token: Token<'_>) -> Draft
        ensures { result ≡ noting self (sense token.entry) }
    {
        self.last = token.tag();
        match token {
            Token::Verb(v) => self.verb = Some(v),
            Token::Caller(n) => self.caller = Some(n),
            Token::Hook(n) => self.hook = Some(n),
            Token::Grantee(n) => self.grantee = Some(n),
            Token::Execute(n) => self.execute = n,
            Token::Onward(n) => self.onward = n,
            Token::Mode(m) => self.mode = m,
            Token::State(s) => self.report = Some(report_of(s)),
            Token::Outcome(o) => self.outcome = Some(o),
            Token::Number(n) => self.number = Some(n),
        }
        self
    }

    /// The draft with one field more; none where the tag does not rise or the verb has no such
    /// field.
    pub(crate) fn admit(self, token: Token<'_>) -> Option<Draft>
        ensures { result ≡ admitted self (sense token.entry) }
    {
        if self.may_come(token.tag()) {
            Some(self.keep(token))
        } else {
            None
        }
    }

    /// The terms of the grant; none where the state is missing.
    fn terms(self) -> Option<Terms>
        ensures { result ≡ terms_in self }
    {
        Some(Terms {
            execute: self.execute,
            onward: self.onward,
            mode: self.mode,
            report: self.report?,
        })
    }

    /// The whole command; none where a field is missing.
    pub(crate) fn close(self) -> Option<Command>
        ensures { result ≡ closed self }
    {
        let verb = self.verb?;
        let caller = self.caller?;
        match verb {
            Verb::Issue => Some(Command::Issue {
                caller,
                hook: self.hook?,
                grantee: self.grantee?,
                terms: self.terms()?,
            }),
            Verb::Amend => Some(Command::Amend {
                caller,
                number: self.number?,
                terms: self.terms()?,
            }),
            Verb::Withdraw => Some(Command::Withdraw {
                caller,
                number: self.number?,
            }),
            Verb::Draw => Some(Command::Draw {
                caller,
                hook: self.hook?,
                report: self.report?,
                outcome: self.outcome?,
            }),
            Verb::Return => Some(Command::Return {
                caller,
                hook: self.hook?,
            }),
        }
    }
}

/// Whether the verb has a field of this tag; where no verb is known yet, only the verb may come.
fn has_field(verb: Option<Verb>, tag: u8) -> bool
    ensures { result ≡ belongs verb tag }
{
    match verb {
        None => tag == 1,
        Some(Verb::Issue) => matches!(tag, 1..=8),
        Some(Verb::Amend) => matches!(tag, 1 | 2 | 5..=8 | 10),
        Some(Verb::Withdraw) => matches!(tag, 1 | 2 | 10),
        Some(Verb::Draw) => matches!(tag, 1..=3 | 8 | 9),
        Some(Verb::Return) => matches!(tag, 1..=3),
    }
}
