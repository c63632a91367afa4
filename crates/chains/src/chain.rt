//! Tests of a given chain, the newest grant first.
ghost use Rattle.std.specs.Prelude.{◌≡◌, ℕ, not, ◌&&◌, List, Decides, ◌==◌};
ghost use Rattle.grants.specs.declared.Grant.{Grant};
ghost use Rattle.chains.specs.Lists.{every};
ghost use Rattle.chains.specs.Chains.{Serves, Supports};
ghost use Rattle.conditions.specs.Truths.{is_true};
ghost use Rattle.chains.specs.Search.{condition_of, is_person, end, follows, is_sound, leads_to};
ghost use Rattle.chains.specs.Laws.{recorded, Holds, DrawLaws, GrantLaws};

use conditions::language::{Language, holds};
use grants::Grant;
use states::state::State;

/// The two conditions of a grant: for drawing the key, and for granting it on.
// stays: two named cases, and no function from a grant to a condition, since what is defined of chains names them too.
#[derive(Clone, Copy)]
pub enum Which {
    Execute,
    Onward,
}

impl Which {
    /// That condition of the grant.
    pub fn of(self, grant: &Grant) -> u16
        ensures { result ≡ condition_of self grant.now }
    {
        match self {
            Which::Execute => grant.execute,
            Which::Onward => grant.onward,
        }
    }
}

/// A draw: from the hook of the owner, by the person, in the state. A grant is judged as a draw by
/// its grantor in its own state.
#[derive(Clone, Copy)]
pub struct Draw {
    pub hook: u8,
    pub owner: u8,
    pub person: u8,
    pub state: State,
}

/// Whether the number is a person's: from 1 to 200.
pub fn is_person(person: u8) -> bool
    ensures { result ≡ is_person person }
{
    1 <= person && person <= 200
}

/// Whom the chain reaches.
fn end_of(chain: &[Grant], owner: u8) -> u8
    ensures { result ≡ end owner chain.now }
{
    match chain {
        [] => owner,
        [newest, ..] => newest.grantee,
    }
}

/// Whether no grant of the chain is to the person.
fn is_new_to(chain: &[Grant], person: u8) -> bool
    ensures { result ≡ every (λ (b : Grant). not (b.grantee == person)) chain.now }
{
    chain.iter().all(|grant| grant.grantee != person)
}

/// Whether that condition of each grant of the chain is true of the state.
fn all_true<L: Language>(language: &L, chain: &[Grant], which: Which, state: &State) -> bool
    ensures { result ≡ every (λ (k : Grant). is_true (L.Language.says language.now (condition_of which k) state.now)) chain.now }
{
    chain
        .iter()
        .all(|grant| holds(language, which.of(grant), state))
}

/// Whether the grant may follow the chain.
fn may_follow<L: Language>(language: &L, chain: &[Grant], grant: &Grant, draw: &Draw) -> bool
    ensures { result ≡ follows (L.Language.says language.now) recorded draw.now.hook draw.now.owner chain.now grant.now }
{
    grant.hook == draw.hook
        && grant.grantor == end_of(chain, draw.owner)
        && grant.grantee != draw.owner
        && is_new_to(chain, grant.grantee)
        && all_true(language, chain, Which::Onward, &grant.state)
}

/// Whether it is a valid chain of the hook.
fn is_valid<L: Language>(language: &L, chain: &[Grant], draw: &Draw) -> bool
    ensures { result ≡ is_sound (L.Language.says language.now) recorded draw.now.hook draw.now.owner chain.now }
{
    match chain {
        [] => is_person(draw.owner),
        [newest, before @ ..] => {
            may_follow(language, before, newest, draw) && is_valid(language, before, draw)
        }
    }
}

/// Whether it is a valid chain of the hook to the person, of at most `most` grants, and that
/// condition of each is true of the state.
fn justifies<L: Language>(
    language: &L,
    chain: &[Grant],
    draw: &Draw,
    which: Which,
    most: usize,
) -> bool
    ensures { result ≡ (leads_to (L.Language.says language.now) recorded draw.now.hook draw.now.owner draw.now.person most chain.now && every (λ (k : Grant). is_true (L.Language.says language.now (condition_of which k) draw.now.state)) chain.now) }
{
    chain.len() <= most
        && is_valid(language, chain, draw)
        && end_of(chain, draw.owner) == draw.person
        && all_true(language, chain, which, &draw.state)
}

/// Whether these grants, the newest first, are a chain of at most eight that justifies the draw,
/// over every record that holds them.
pub fn serves<L: Language>(language: &L, chain: &[Grant], draw: &Draw) -> bool
    ensures decides { (all : List Grant) → Holds all chain.now → Decides result (Serves (L.Language.says language.now) recorded all draw.now.hook draw.now.owner draw.now.person draw.now.state chain.now) }
    ensures laws { DrawLaws }
{
    justifies(language, chain, draw, Which::Execute, 8)
}

/// Whether these grants, the newest first, are a chain of at most seven that justifies the grant,
/// over every record that holds them.
pub fn supports<L: Language>(language: &L, chain: &[Grant], owner: u8, grant: &Grant) -> bool
    ensures decides { (all : List Grant) → Holds all chain.now → Decides result (Supports (L.Language.says language.now) recorded all (λ _. owner) grant.now chain.now) }
    ensures laws { GrantLaws }
{
    let draw = Draw {
        hook: grant.hook,
        owner,
        person: grant.grantor,
        state: grant.state,
    };
    justifies(language, chain, &draw, Which::Onward, 7)
}
