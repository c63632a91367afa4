//! Two languages as one: the second's numbers stand behind the first's.
ghost use Rattle.conditions.specs.Layers.{joined_size, joined};
ghost use Rattle.conditions.specs.LayerLaws.{joined_lawful};

use crate::language::Language;
use crate::truth::Truth;
use states::state::State;

/// The conditions of `first`, and behind them those of `second`, 1,024 in all at the most.
#[derive(Drop)]
pub struct Joined<A, B> {
    pub first: A,
    pub second: B,
}

impl<A: Language, B: Language> Language for Joined<A, B> {
    ghost size = { λ j. joined_size (A.Language.size j.first) (B.Language.size j.second) };

    ghost says = { λ j. joined (A.Language.size j.first) (A.Language.says j.first) (B.Language.says j.second) };

    ghost lawful = { λ j. joined_lawful (A.Language.lawful j.first) (B.Language.lawful j.second) };

    fn count(&self) -> u16 {
        (self.first.count() + self.second.count()).min(1024)
    }

    fn truth(&self, n: u16, state: &State) -> Truth {
        let front = self.first.count();
        if n < front {
            self.first.truth(n, state)
        } else if n < 1024 {
            self.second.truth(n - front, state)
        } else {
            Truth::Unknown
        }
    }
}
