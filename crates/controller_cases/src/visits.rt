//! Visits to a cabinet, each of which spends the slip that it draws.
ghost use Rattle.std.specs.Prelude.{◌≡◌, IfOk, IfErr, Ok};
ghost use Rattle.controller_cases.specs.Promises.{Home};

use conditions::language::Language;
use controller::cabinet::Cabinet;
use controller::slip::{RefusedSlip, Slip};
use faults::Fault;
use states::report::Report;

/// A draw, whose slip can be spent at this cabinet.
fn draw<L: Language>(
    cabinet: &mut Cabinet<L>,
    caller: u8,
    hook: u8,
    report: &Report,
    chain: &mut [u32; 8],
) -> Result<Slip, Fault>
    ensures { IfOk result (λ slip. Home cabinet.new slip) }
{
    cabinet.draw(caller, hook, report, chain)
}

/// What becomes of a key that was drawn.
#[derive(Clone, Copy)]
pub(crate) enum End {
    Taken,
    Left,
}

/// Spends a slip, which may be of another cabinet.
fn spend<L: Language>(cabinet: &mut Cabinet<L>, slip: Slip, end: End) -> Result<(), RefusedSlip>
    ensures home { Home cabinet.old slip → result ≡ Ok tt }
    ensures back { IfErr result (λ refused. refused.slip ≡ slip) }
{
    match end {
        End::Taken => cabinet.take(slip),
        End::Left => cabinet.leave(slip),
    }
}

/// Spends a slip of this cabinet.
fn spend_at_home<L: Language>(cabinet: &mut Cabinet<L>, slip: Slip, end: End)
    requires { Home cabinet.old slip }
{
    match spend(cabinet, slip, end) {
        Ok(()) => {}
        Err(_) => unreachable(),
    }
}

/// A draw whose slip is spent at once: its hook, person and length.
pub(crate) fn visit<L: Language>(
    end: End,
    cabinet: &mut Cabinet<L>,
    caller: u8,
    hook: u8,
    report: &Report,
    chain: &mut [u32; 8],
) -> Result<(u8, u8, u8), Fault> {
    let slip = draw(cabinet, caller, hook, report, chain)?;
    let told = (slip.hook(), slip.person(), slip.length());
    spend_at_home(cabinet, slip, end);
    Ok(told)
}

/// Spends at one cabinet a slip of another, where it is spent in the other way if it comes back.
pub(crate) fn visit_away<L: Language>(
    end: End,
    home: &mut Cabinet<L>,
    away: &mut Cabinet<L>,
    caller: u8,
    hook: u8,
    report: &Report,
) -> Result<(), Fault> {
    let slip = draw(home, caller, hook, report, &mut [0; 8])?;
    match spend(away, slip, end) {
        Ok(()) => Ok(()),
        Err(RefusedSlip { fault, slip }) => {
            let other = match end {
                End::Taken => End::Left,
                End::Left => End::Taken,
            };
            spend_at_home(home, slip, other);
            Err(fault)
        }
    }
}
