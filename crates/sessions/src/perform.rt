//! Putting a command to a cabinet.
ghost use Rattle.std.specs.Prelude.{◌≡◌};
ghost use Rattle.loans.specs.declared.state.HookState.TheVariants.{Promised};
ghost use Rattle.plain.specs.Record.{hook_at};
ghost use Rattle.controller.specs.Cabinets.{world, Follows};
ghost use Rattle.command_words.specs.declared.Command.TheVariants as commands;
ghost use Rattle.sessions.specs.Commands.{spends};
ghost use Rattle.sessions.specs.Performing.{Performs};

use command_words::{Command, Outcome};
use conditions::language::Language;
use controller::cabinet::Cabinet;
use controller::slip::Slip;
use faults::Fault;
use states::report::Report;

/// Spends the slip of a key that is promised so: the key is taken, or left.
fn spend<L: Language>(cabinet: &mut Cabinet<L>, slip: Slip, outcome: Outcome)
    requires { hook_at (world cabinet.old) slip.hook ≡ Promised slip.person }
    ensures { Follows L.size L.says cabinet.old (spends outcome slip.hook slip.person) cabinet.new }
{
    match outcome {
        Outcome::Taken => match cabinet.take(slip) {
            Ok(()) => {}
            Err(_) => unreachable(),
        },
        Outcome::Left => match cabinet.leave(slip) {
            Ok(()) => {}
            Err(_) => unreachable(),
        },
    }
}

/// Draws a key and spends its slip at once; answers the length of the chain.
fn draw<L: Language>(
    cabinet: &mut Cabinet<L>,
    caller: u8,
    hook: u8,
    report: Report,
    outcome: Outcome,
) -> Result<u32, Fault>
    ensures { Performs L.size L.says cabinet.old (commands.Draw caller hook report outcome) result cabinet.new }
{
    let mut chain = [0u32; 8];
    let slip = cabinet.draw(caller, hook, &report, &mut chain)?;
    let length = slip.length() as u32;
    spend(cabinet, slip, outcome);
    Ok(length)
}

/// Brings a key back; answers 0.
fn give_back<L: Language>(cabinet: &mut Cabinet<L>, caller: u8, hook: u8) -> Result<u32, Fault>
    ensures { Performs L.size L.says cabinet.old (commands.Return caller hook) result cabinet.new }
{
    cabinet.give_back(caller, hook)?;
    Ok(0)
}

/// Puts a command to the cabinet; answers its number, or the refusal.
pub(crate) fn perform<L: Language>(cabinet: &mut Cabinet<L>, command: Command) -> Result<u32, Fault>
    ensures { Performs L.size L.says cabinet.old command result cabinet.new }
{
    match command {
        Command::Issue {
            caller,
            hook,
            grantee,
            terms,
        } => cabinet.issue(caller, hook, grantee, &terms),
        Command::Amend {
            caller,
            number,
            terms,
        } => cabinet.amend(caller, number, &terms),
        Command::Withdraw { caller, number } => cabinet.withdraw(caller, number),
        Command::Draw {
            caller,
            hook,
            report,
            outcome,
        } => draw(cabinet, caller, hook, report, outcome),
        Command::Return { caller, hook } => give_back(cabinet, caller, hook),
    }
}
