//! A language that no other crate knows: it needs no line changed elsewhere.
ghost use Rattle.conditions_cases.specs.Emergencies.{emergency, emergency_lawful};

use conditions::language::Language;
use conditions::truth::Truth;
use states::state::{STATUS, State};

/// Condition 2 says that there is an emergency.
#[derive(Clone, Copy)]
pub struct Emergency;

impl Language for Emergency {
    ghost size = { λ _. 3 };

    ghost says = { λ _. emergency };

    ghost lawful = { λ _. emergency_lawful };

    fn count(&self) -> u16 {
        3
    }

    fn truth(&self, n: u16, state: &State) -> Truth {
        match n {
            0 => Truth::True,
            1 => Truth::False,
            2 => Truth::within(state.known(STATUS), 1, 1),
            _ => Truth::Unknown,
        }
    }
}
