//! Whole runs: lists of calls on a new cabinet.
ghost use Rattle.std.specs.Prelude.{◌≡◌, map, length, take};
ghost use Rattle.controller.specs.Cabinets.{world, reply, Follows};
ghost use Rattle.controller.specs.declared.run.Answer.TheVariants as answers;
ghost use Rattle.controller.specs.Runs.{asked, shown, written, slip_shown, spent_shown};
ghost use Rattle.controller.specs.Promise.{WholePromise};
ghost use Rattle.plain.specs.Laws.{RecordLaws};

use crate::cabinet::Cabinet;
use crate::slip::{RefusedSlip, Slip};
use conditions::language::Language;
use faults::Fault;
use grants::terms::Terms;
use states::report::Report;

/// One call with its arguments. Take and leave name the hook and the person of a slip, so that slips
/// of any origin are meant.
#[derive(Clone, Copy, Drop)]
pub enum Call<'a> {
    Fit {
        owners: &'a [u8],
        kept: u8,
    },
    Issue {
        caller: u8,
        hook: u8,
        grantee: u8,
        terms: Terms,
    },
    Amend {
        caller: u8,
        number: u32,
        terms: Terms,
    },
    Withdraw {
        caller: u8,
        number: u32,
    },
    Draw {
        caller: u8,
        hook: u8,
        report: Report,
    },
    Take {
        hook: u8,
        person: u8,
    },
    Leave {
        hook: u8,
        person: u8,
    },
    Return {
        caller: u8,
        hook: u8,
    },
}

/// What a call that was not refused answered: that it is done, the number of the new grant, the count of
/// orphans, or the slip of a draw with the numbers of its chain, zeros behind.
#[derive(Clone, Copy, Debug, PartialEq, Eq)]
pub enum Answer {
    Done,
    Number(u32),
    Orphaned(u32),
    Slip {
        hook: u8,
        person: u8,
        length: u8,
        numbers: [u32; 8],
    },
}

// stays: with `map` in the arms of `apply` itself the search for its proof did not end in ten minutes
fn number_told(told: Result<u32, Fault>) -> Result<Answer, Fault>
    ensures { result ≡ written answers.Number told }
{
    told.map(|number| Answer::Number(number))
}

fn orphans_told(told: Result<u32, Fault>) -> Result<Answer, Fault>
    ensures { result ≡ written answers.Orphaned told }
{
    told.map(|count| Answer::Orphaned(count))
}

fn done_told(told: Result<(), Fault>) -> Result<Answer, Fault>
    ensures { result ≡ written (λ _. answers.Done) told }
{
    told.map(|()| Answer::Done)
}

/// A draw's answer in numbers; its slip ends here, since a later call of the run makes its own.
fn slip_told(drawn: Result<Slip, Fault>, numbers: [u32; 8]) -> Result<Answer, Fault>
    ensures { result ≡ slip_shown drawn numbers }
{
    let Slip {
        hook,
        person,
        length,
    } = drawn?;
    Ok(Answer::Slip {
        hook,
        person,
        length,
        numbers,
    })
}

/// The answer to taking or leaving; a slip that came back ends here.
fn spent_told(spent: Result<(), RefusedSlip>) -> Result<Answer, Fault>
    ensures { result ≡ spent_shown spent }
{
    match spent {
        Ok(()) => Ok(Answer::Done),
        Err(refused) => {
            let RefusedSlip { fault, slip } = refused;
            let Slip {
                hook: _,
                person: _,
                length: _,
            } = slip;
            Err(fault)
        }
    }
}

impl<L: Language> Cabinet<L> {
    /// One call of a run.
    fn apply(&mut self, call: &Call<'_>) -> Result<Answer, Fault>
        ensures is { result ≡ shown (reply L.size L.says self.old (asked call.now)) }
        ensures after { Follows L.size L.says self.old (asked call.now) self.new }
    {
        match *call {
            Call::Fit { owners, kept } => done_told(self.fit(owners, kept)),
            Call::Issue {
                caller,
                hook,
                grantee,
                terms,
            } => number_told(self.issue(caller, hook, grantee, &terms)),
            Call::Amend {
                caller,
                number,
                terms,
            } => number_told(self.amend(caller, number, &terms)),
            Call::Withdraw { caller, number } => orphans_told(self.withdraw(caller, number)),
            Call::Draw {
                caller,
                hook,
                report,
            } => {
                let mut numbers = [0; 8];
                let slip = self.draw(caller, hook, &report, &mut numbers);
                slip_told(slip, numbers)
            }
            Call::Take { hook, person } => spent_told(self.take(Slip {
                hook,
                person,
                length: 0,
            })),
            Call::Leave { hook, person } => spent_told(self.leave(Slip {
                hook,
                person,
                length: 0,
            })),
            Call::Return { caller, hook } => done_told(self.give_back(caller, hook)),
        }
    }
}

/// Performs calls on a new cabinet, as many as there are places for answers, and hands the cabinet
/// back. Its contract is the promise over whole runs, with the other laws of the plain record. The slips of the run end with it: a key that its
/// calls draw and neither take nor leave stays promised.
pub fn replay<L: Language>(
    language: L,
    calls: &[Call<'_>],
    answers: &mut [Result<Answer, Fault>],
) -> Cabinet<L>
    ensures language { result.language ≡ language }
    ensures promise { WholePromise (L.size language) (L.says language) (take (length answers.old) (map asked calls.now)) (world result) answers.old answers.new }
    ensures laws { RecordLaws }
{
    let mut cabinet = Cabinet::new(language);
    let n = calls.len().min(answers.len());
    for (i, call) in calls[..n].iter().enumerate() {
        answers[i] = cabinet.apply(call);
    }
    cabinet
}
