//! The questions to the language.
ghost use Rattle.std.specs.Prelude.{◌≡◌, length};
ghost use Rattle.search.specs.Asked.{passes, Passing, ColumnsTo};

use crate::record::Record;
use chains::chain::Which;
use conditions::language::{Language, holds};
use grants::Grant;
use places::{has, select};
use states::state::State;

/// Whether the grant is of the hook, and that condition of it is true of the state.
fn is_passing<L: Language>(
    language: &L,
    grant: &Grant,
    hook: u8,
    which: Which,
    state: &State,
) -> bool
    ensures { result ≡ passes (L.Language.says language.now) hook which state.now grant.now }
{
    grant.hook == hook && holds(language, which.of(grant), state)
}

impl Record<'_> {
    /// The places of such grants.
    pub(crate) fn passing<L: Language>(
        &self,
        language: &L,
        hook: u8,
        which: Which,
        state: &State,
    ) -> u128
        ensures { Passing (L.Language.says language.now) self.now.grants.now hook which state.now result }
    {
        select(
            self.grants,
            |grant| is_passing(language, grant, hook, which, state),
        )
    }

    /// For each place of `among`, the places of its hook whose grant condition is true of its state.
    pub(crate) fn columns<L: Language>(&self, language: &L, among: u128) -> [u128; 96]
        ensures { ColumnsTo (L.Language.says language.now) self.now.grants.now among (length self.now.grants.now) result }
    {
        let mut columns = [0u128; 96];
        for (j, grant) in self.grants.iter().enumerate() {
            if has(among, j) {
                columns[j] = self.passing(language, grant.hook, Which::Onward, &grant.state);
            }
        }
        columns
    }
}
