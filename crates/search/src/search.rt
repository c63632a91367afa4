//! The three questions.
ghost use Rattle.std.specs.Prelude.{◌≡◌, ℕ, ◌<◌, true, ◌&&◌, length, if◌then◌else◌, None, Decides, nat_lt, slice_index};
ghost use Rattle.places.specs.Sets.{member};
ghost use Rattle.chains.specs.Search.{stands as stands_on, least_chain};
ghost use Rattle.chains.specs.Laws.{recorded};
ghost use Rattle.search.specs.Records.{is_record, at};
ghost use Rattle.search.specs.Asked.{Planned, Linked, OneHook, Reached, ReachedAt, DecidedTo};
ghost use Rattle.search.specs.Answers.{named, Answered, entry, entries};

use crate::named::Named;
use crate::record::Record;
use chains::chain::{Draw, Which, is_person};
use conditions::language::Language;
use grants::Grant;
use paths::plan::Plan;
use paths::route::Route;
use places::{select, with_place, without};

/// Whether a chain of at most seven grants leads from the owner to the person.
fn is_reached(plan: &Plan, owner: u8, person: u8, allowed: u128) -> bool
    ensures { Decides result (Reached plan.now.links owner person allowed) }
{
    is_person(owner) && plan.best(owner, person, allowed, 7).is_some()
}

/// The owner of the hook, or 0.
pub fn owner_of(owners: &[u8], hook: u8) -> u8
    ensures { result ≡ slice_index owners.now hook }
{
    owners.get(hook as usize).copied().unwrap_or(0)
}

impl Record<'_> {
    /// The number of the grant at a place, or 0 behind the last one.
    fn number(&self, place: u8) -> u32
        ensures { result ≡ (at self.now.grants.now place).number }
    {
        match self.grants.get(place as usize) {
            Some(grant) => grant.number,
            None => 0,
        }
    }

    /// The number at place `k` of the route, or 0 behind it.
    fn number_at(&self, route: &Route, k: usize) -> u32
        requires { k < 8 }
        ensures { result ≡ entry self.now.grants.now route.now k }
    {
        if k < route.length {
            self.number(route.places[k])
        } else {
            0
        }
    }

    /// The numbers of the route's grants.
    fn named(&self, route: &Route) -> Named
        ensures { result ≡ entries self.now.grants.now route.now }
    {
        let mut numbers = [0; 8];
        for (k, number) in numbers.iter_mut().enumerate() {
            *number = self.number_at(route, k);
        }
        Named {
            numbers,
            length: route.length,
        }
    }

    /// The links of the grants, with rows for the places of `among`, made ready.
    fn plan<L: Language>(&self, language: &L, among: u128) -> Plan
        ensures { Planned (L.Language.says language.now) self.now.grants.now among result }
    {
        Plan::new(self.links(&self.columns(language, among)))
    }

    /// The chain that justifies a draw.
    fn chain_for<L: Language>(&self, language: &L, draw: &Draw) -> Option<Named>
        ensures { Answered (L.Language.says language.now) self.now.grants.now draw.now.hook draw.now.owner draw.now.person draw.now.state result }
    {
        if !is_person(draw.owner) {
            return None;
        }
        let allowed = self.passing(language, draw.hook, Which::Execute, &draw.state);
        let plan = self.plan(language, allowed);
        match plan.best(draw.owner, draw.person, allowed, 8) {
            Some(route) => Some(self.named(&route)),
            None => None,
        }
    }

    /// Whether the grant, on record or not, stands.
    fn stands<L: Language>(&self, language: &L, owner: u8, grant: &Grant) -> bool
        ensures { result ≡ stands_on (L.Language.says language.now) recorded self.now.grants.now (λ _. owner) grant.now }
    {
        let allowed = self.passing(language, grant.hook, Which::Onward, &grant.state);
        let plan = self.plan(language, allowed);
        is_reached(&plan, owner, grant.grantor, allowed)
    }

    /// The places from whose grantor a chain leads back to the owner of the hook, over the places of
    /// their columns. A place that was found not to be one of them is in no such chain, and is left
    /// out from then on.
    fn reached_places(&self, plan: &Plan, columns: &[u128; 96], owners: &[u8]) -> u128
        requires linked { Linked self.now.grants.now columns.now plan.now.links }
        requires hooks { OneHook self.now.grants.now columns.now }
        ensures { DecidedTo (ReachedAt plan.now.links self.now.grants.now columns.now owners.now) result (length self.now.grants.now) }
    {
        let mut set = 0u128;
        let mut resting = 0u128;
        for (i, grant) in self.grants.iter().enumerate() {
            let usable = without(columns[i], resting);
            if is_reached(plan, owner_of(owners, grant.hook), grant.grantor, usable) {
                set = with_place(set, i);
            } else {
                resting = with_place(resting, i);
            }
        }
        set
    }

    /// The places of all grants.
    fn all(&self) -> u128
        ensures { (i : ℕ) → i < length self.now.grants.now → member result i ≡ true }
    {
        select(self.grants, |_| true)
    }

    /// The places of the grants that stand.
    fn standing<L: Language>(&self, language: &L, owners: &[u8]) -> u128
        ensures { (i : ℕ) → member result i ≡ (nat_lt i (length self.now.grants.now) && stands_on (L.Language.says language.now) recorded self.now.grants.now (λ h. slice_index owners.now h) (at self.now.grants.now i)) }
    {
        let columns = self.columns(language, self.all());
        let plan = Plan::new(self.links(&columns));
        self.reached_places(&plan, &columns, owners)
    }
}

/// The chain that justifies a draw: the one of fewest grants, then the one with the lower number at
/// the first difference. Over anything but a record (more than 96 grants, or numbers that do not
/// rise) it answers none.
pub fn chain_for<L: Language>(language: &L, grants: &[Grant], draw: &Draw) -> Option<Named>
    ensures is { result ≡ (if is_record grants.now then named (least_chain (L.Language.says language.now) recorded grants.now draw.now.hook draw.now.owner draw.now.person draw.now.state) else None) }
    ensures law { is_record grants.now ≡ true → Answered (L.Language.says language.now) grants.now draw.now.hook draw.now.owner draw.now.person draw.now.state result }
{
    match Record::of(grants) {
        Some(record) => record.chain_for(language, draw),
        None => None,
    }
}

/// Whether the grant, on record or not, stands over the record. Over anything but a record nothing
/// stands.
pub fn stands<L: Language>(language: &L, grants: &[Grant], owner: u8, grant: &Grant) -> bool
    ensures { result ≡ (is_record grants.now && stands_on (L.Language.says language.now) recorded grants.now (λ _. owner) grant.now) }
{
    match Record::of(grants) {
        Some(record) => record.stands(language, owner, grant),
        None => false,
    }
}

/// The places of the grants that stand. `owners` has the owner of each hook.
pub fn standing<L: Language>(language: &L, grants: &[Grant], owners: &[u8]) -> u128
    ensures { (i : ℕ) → member result i ≡ (nat_lt i (length grants.now) && (is_record grants.now && stands_on (L.Language.says language.now) recorded grants.now (λ h. slice_index owners.now h) (at grants.now i))) }
{
    match Record::of(grants) {
        Some(record) => record.standing(language, owners),
        None => 0,
    }
}
