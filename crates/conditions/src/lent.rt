//! A language that is lent is a language.
use crate::language::Language;
use crate::truth::Truth;
use states::state::State;

impl<'a, L: Language> Language for &'a L {
    ghost size = { λ l. L.Language.size l.now };

    ghost says = { λ l. L.Language.says l.now };

    ghost lawful = { λ l. L.Language.lawful l.now };

    fn count(&self) -> u16 {
        (*self).count()
    }

    fn truth(&self, n: u16, state: &State) -> Truth {
        (*self).truth(n, state)
    }
}
