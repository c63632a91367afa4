//! A layer that hides variables from the language below.
ghost use Rattle.conditions.specs.Layers.{distrusted};
ghost use Rattle.conditions.specs.LayerLaws.{distrust_lawful};

use crate::language::Language;
use crate::truth::Truth;
use states::state::State;

/// The language `below`, asked with the variables in the set `hidden` unknown. The caller and the
/// receiver cannot be hidden: their bits are ignored.
#[derive(Drop)]
pub struct Distrust<L> {
    pub below: L,
    pub hidden: u8,
}

impl<L: Language> Language for Distrust<L> {
    ghost size = { λ d. L.Language.size d.below };

    ghost says = { λ d. distrusted d.hidden (L.Language.says d.below) };

    ghost lawful = { λ d. distrust_lawful d.hidden (L.Language.lawful d.below) };

    fn count(&self) -> u16 {
        self.below.count()
    }

    fn truth(&self, n: u16, state: &State) -> Truth {
        self.below.truth(n, &state.hidden(self.hidden))
    }
}
