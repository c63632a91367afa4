//! A language for the cases.
ghost use Rattle.std.specs.Prelude.{◌≡◌};
ghost use Rattle.search_cases.specs.Masks.{in_mask, masks, masks_lawful};

use conditions::language::Language;
use conditions::truth::Truth;
use states::state::{GROUPS, State};

/// Condition `n`, from 2 on, asks that GROUPS has every bit of `n - 2`.
#[derive(Clone, Copy)]
pub struct Masks;

fn in_mask(mask: u16, groups: Option<u16>) -> Truth
    ensures { result ≡ in_mask mask groups }
{
    match groups {
        None => Truth::Unknown,
        Some(groups) => {
            if groups & mask == mask {
                Truth::True
            } else {
                Truth::False
            }
        }
    }
}

impl Language for Masks {
    ghost size = { λ _. 1024 };

    ghost says = { λ _. masks };

    ghost lawful = { λ _. masks_lawful };

    fn count(&self) -> u16 {
        1024
    }

    fn truth(&self, n: u16, state: &State) -> Truth {
        if n == 0 {
            Truth::True
        } else if n == 1 {
            Truth::False
        } else if n < 1024 {
            in_mask(n - 2, state.known(GROUPS))
        } else {
            Truth::Unknown
        }
    }
}
