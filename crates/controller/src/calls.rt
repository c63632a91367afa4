//! The calls on a cabinet.
ghost use Rattle.std.specs.Prelude.{◌≡◌, ◌≤◌};
ghost use Rattle.plain.specs.Record.{Fit as fitting, Issue as issuing, Amend as amending, Withdraw as withdrawing, Draw as drawing, Take as taking, Leave as leaving, Return as returning, new as unfitted};
ghost use Rattle.ledger.specs.Answers.{told, done};
ghost use Rattle.ledger.specs.Ledgers.{standing_of};
ghost use Rattle.controller.specs.Cabinets.{world, reply, Follows, slip_of, listed, spent};

use crate::cabinet::Cabinet;
use crate::slip::{RefusedSlip, Slip};
use conditions::language::Language;
use faults::Fault;
use grants::terms::Terms;
use ledger::held::Ledger;
use loans::state::Event;
use loans::table::Loans;
use search::named::Named;
use states::report::Report;

/// The slip of a draw that is accepted; the numbers of its chain go into the caller's list.
fn hand_out(hook: u8, person: u8, named: &Named, chain: &mut [u32; 8]) -> Slip
    requires { named.now.length ≤ 8 }
    ensures is { result ≡ record { hook = hook; person = person; length = named.now.length } }
    ensures list { chain.new ≡ named.now.numbers }
{
    let numbers = named.numbers;
    *chain = numbers;
    Slip {
        hook,
        person,
        length: named.length as u8,
    }
}

impl<L: Language> Cabinet<L> {
    /// A new cabinet: unfitted, without a grant, every key in.
    pub fn new(language: L) -> Cabinet<L>
        ensures language { result.language ≡ language }
        ensures held { world result ≡ unfitted }
    {
        Cabinet {
            language,
            ledger: Ledger::new(),
            loans: Loans::new(),
        }
    }

    /// Names the owners of the 32 hooks (0 means no hook) and the kept variables, one bit for each.
    pub fn fit(&mut self, owners: &[u8], kept: u8) -> Result<(), Fault>
        ensures is { result ≡ done (reply L.size L.says self.old (fitting owners.now kept)) }
        ensures after { Follows L.size L.says self.old (fitting owners.now kept) self.new }
    {
        self.ledger.fit(owners, kept)
    }

    /// Records a grant by the caller, if a chain justifies it, and answers its number.
    pub fn issue(&mut self, caller: u8, hook: u8, grantee: u8, terms: &Terms) -> Result<u32, Fault>
        ensures is { result ≡ told (reply L.size L.says self.old (issuing caller hook grantee terms.now)) }
        ensures after { Follows L.size L.says self.old (issuing caller hook grantee terms.now) self.new }
    {
        self.ledger
            .issue(&self.language, caller, hook, grantee, terms)
    }

    /// Replaces the caller's own grant under new terms and a new number, which is the answer.
    pub fn amend(&mut self, caller: u8, number: u32, terms: &Terms) -> Result<u32, Fault>
        ensures is { result ≡ told (reply L.size L.says self.old (amending caller number terms.now)) }
        ensures after { Follows L.size L.says self.old (amending caller number terms.now) self.new }
    {
        self.ledger.amend(&self.language, caller, number, terms)
    }

    /// Takes out the caller's own grant; answers how many others stood before and do not after.
    pub fn withdraw(&mut self, caller: u8, number: u32) -> Result<u32, Fault>
        ensures is { result ≡ told (reply L.size L.says self.old (withdrawing caller number)) }
        ensures after { Follows L.size L.says self.old (withdrawing caller number) self.new }
    {
        self.ledger.withdraw(&self.language, caller, number)
    }

    /// Promises the key of `hook` to the caller, if a chain justifies it and the key is in. Writes the
    /// numbers of the chain's grants into `chain`, zeros behind.
    pub fn draw(
        &mut self,
        caller: u8,
        hook: u8,
        report: &Report,
        chain: &mut [u32; 8],
    ) -> Result<Slip, Fault>
        ensures is { result ≡ slip_of (reply L.size L.says self.old (drawing caller hook report.now)) }
        ensures list { chain.new ≡ listed chain.old (reply L.size L.says self.old (drawing caller hook report.now)) }
        ensures after { Follows L.size L.says self.old (drawing caller hook report.now) self.new }
    {
        let named = self.ledger.chain_for(&self.language, caller, hook, report)?;
        self.loans.happen(hook, Event::Draw(caller))?;
        Ok(hand_out(hook, caller, &named, chain))
    }

    // stays: taking and leaving are two calls, as in the loans, one line each over what they share
    /// The promised key goes out.
    fn take_key(&mut self, hook: u8, person: u8) -> Result<(), Fault>
        ensures is { result ≡ done (reply L.size L.says self.old (taking hook person)) }
        ensures after { Follows L.size L.says self.old (taking hook person) self.new }
    {
        self.loans.happen(hook, Event::Take(person))
    }

    /// The promised key stays in.
    fn leave_key(&mut self, hook: u8, person: u8) -> Result<(), Fault>
        ensures is { result ≡ done (reply L.size L.says self.old (leaving hook person)) }
        ensures after { Follows L.size L.says self.old (leaving hook person) self.new }
    {
        self.loans.happen(hook, Event::Leave(person))
    }

    /// Spends a slip: the key is out.
    pub fn take(&mut self, slip: Slip) -> Result<(), RefusedSlip>
        ensures is { result ≡ spent slip (reply L.size L.says self.old (taking slip.hook slip.person)) }
        ensures after { Follows L.size L.says self.old (taking slip.hook slip.person) self.new }
    {
        let happened = self.take_key(slip.hook, slip.person);
        slip.spend(happened)
    }

    /// Spends a slip: the key is in again.
    pub fn leave(&mut self, slip: Slip) -> Result<(), RefusedSlip>
        ensures is { result ≡ spent slip (reply L.size L.says self.old (leaving slip.hook slip.person)) }
        ensures after { Follows L.size L.says self.old (leaving slip.hook slip.person) self.new }
    {
        let happened = self.leave_key(slip.hook, slip.person);
        slip.spend(happened)
    }

    /// Brings the key of `hook`, which is out, in again.
    pub fn give_back(&mut self, caller: u8, hook: u8) -> Result<(), Fault>
        ensures is { result ≡ done (reply L.size L.says self.old (returning caller hook)) }
        ensures after { Follows L.size L.says self.old (returning caller hook) self.new }
    {
        self.ledger.check_return(caller, hook)?;
        self.loans.happen(hook, Event::Return)
    }

    /// Whether the grant numbered `number` stands; refused where there is none.
    pub fn stands(&self, number: u32) -> Result<bool, Fault>
        ensures { result ≡ standing_of (L.size self.now.language) (L.says self.now.language) self.now.ledger number }
    {
        self.ledger.stands(&self.language, number)
    }
}
