//! The keys that are not in: promised to a person, or out. And the slip, the promise of a key.
#![tactic(auto)]

ghost use Rattle.std.specs.Prelude.{◌≡◌, ℕ, ◌<◌, true, replicate, IfSome, is_ok, Ok, slice_index_or};
ghost use Rattle.numbered.specs.Rows.{place_of};
ghost use Rattle.loans.specs.declared.state.HookState.TheVariants.{In, Promised, Out};
ghost use Rattle.loans.specs.declared.state.Event.TheVariants.{Draw, Take, Leave, Return};
ghost use Rattle.loans.specs.Events.{judged, Allowed};
ghost use Rattle.loans.specs.Hooks.{EventLaw, DrawLaw, SpendLaw, ReturnLaw, Promises, hook_of, loans_in, state_of, where_lent, hooks, Leaves, Only, gone_out, went_out, answered, drawn, spent, spent_by};

use faults::{Fault, Refusal};

pub mod slip;
pub mod state;
pub mod table;

use slip::{RefusedSlip, Slip};
use state::{Event, HookState};
use table::{Lent, Loan, Loans};

/// The state of `hook` after an event, by its state before; or the refusal.
fn judge(hook: u8, state: HookState, event: Event) -> Result<HookState, Fault>
    ensures { result ≡ judged hook state event }
{
    let place = hook as usize;
    match (state, event) {
        (HookState::In, Event::Draw(person)) if hook < 32 => Ok(HookState::Promised(person)),
        (HookState::In, Event::Draw(_)) => Err(Refusal::NoSuchHook.at(place)),
        (_, Event::Draw(_)) => Err(Refusal::KeyNotIn.at(place)),
        (HookState::Promised(p), Event::Take(q)) if p == q => Ok(HookState::Out),
        (HookState::Promised(p), Event::Leave(q)) if p == q => Ok(HookState::In),
        (_, Event::Take(_)) => Err(Refusal::NotPromised.at(place)),
        (_, Event::Leave(_)) => Err(Refusal::NotPromised.at(place)),
        (HookState::Out, Event::Return) => Ok(HookState::In),
        (_, Event::Return) => Err(Refusal::KeyNotOut.at(place)),
    }
}

/// Where a lent key is.
impl From<Lent> for HookState {
    ghost from_gives = { λ l s. s ≡ where_lent l };

    fn from(lent: Lent) -> HookState {
        match lent {
            Lent::Promised(person) => HookState::Promised(person),
            Lent::Out => HookState::Out,
        }
    }
}

impl Loan {
    /// The key goes out.
    fn go_out(&mut self)
        ensures { self.new ≡ went_out self.old }
    {
        self.lent = Lent::Out;
    }
}

impl Loans {
    /// Every key is in.
    pub fn new() -> Loans
        ensures is { hooks result ≡ replicate 32 In }
        ensures all { (h : ℕ) → state_of result h ≡ In }
    {
        let blank = Loan {
            hook: 0,
            lent: Lent::Out,
        };
        Loans {
            rows: [blank; 32],
            count: 0,
        }
    }

    /// The place of the loan of `hook`.
    fn place(&self, hook: u8) -> Option<usize>
        ensures is { result ≡ place_of hook_of hook (loans_in self.now) }
        ensures within { IfSome result (λ i. i < self.now.count) }
    {
        numbered::find(&self.rows[0..self.count], hook as u32)
    }

    /// Where the key of `hook` is; at a number that no hook has, no key is promised or out.
    pub fn state(&self, hook: u8) -> HookState
        ensures is { result ≡ state_of self.now hook }
        ensures listed { result ≡ slice_index_or (hooks self.now) hook In }
    {
        match self.place(hook) {
            Some(i) => HookState::from(self.rows[i].lent),
            None => HookState::In,
        }
    }

    /// The loan of `hook` ends.
    fn end(&mut self, hook: u8)
        ensures { Only self.old hook In self.new }
    {
        let _ = numbered::remove(&mut self.rows, &mut self.count, hook as u32);
    }

    /// A loan begins, at a hook that is in.
    fn promise(&mut self, hook: u8, person: u8)
        requires real { hook < 32 }
        requires free { state_of self.old hook ≡ In }
        ensures { Only self.old hook (Promised person) self.new }
    {
        let loan = Loan {
            hook,
            lent: Lent::Promised(person),
        };
        let _ = numbered::insert(&mut self.rows, &mut self.count, loan);
    }

    /// The promised key of `hook` goes out.
    fn hand_out(&mut self, hook: u8)
        ensures { Only self.old hook (gone_out (state_of self.old hook)) self.new }
    {
        if let Some(i) = self.place(hook) {
            self.rows[i].go_out();
        }
    }

    /// Lets an event happen to the key of `hook`, or refuses it.
    pub fn happen(&mut self, hook: u8, event: Event) -> Result<(), Fault>
        ensures is { result ≡ answered (judged hook (state_of self.old hook) event) }
        ensures leaves { Leaves self.old hook (judged hook (state_of self.old hook) event) self.new }
        ensures allowed { Allowed hook (state_of self.old hook) event → result ≡ Ok tt }
        ensures law { EventLaw self.old hook event self.new result }
    {
        match judge(hook, self.state(hook), event)? {
            HookState::In => self.end(hook),
            HookState::Promised(person) => self.promise(hook, person),
            HookState::Out => self.hand_out(hook),
        }
        Ok(())
    }

    /// Promises the key of `hook` to `person`, who reached it by a chain of `length` grants.
    pub fn draw(&mut self, hook: u8, person: u8, length: u8) -> Result<Slip, Fault>
        ensures is { result ≡ drawn hook person length (judged hook (state_of self.old hook) (Draw person)) }
        ensures leaves { Leaves self.old hook (judged hook (state_of self.old hook) (Draw person)) self.new }
        ensures law { DrawLaw self.old hook person length self.new result }
        ensures allowed { state_of self.old hook ≡ In → hook < 32 → is_ok result ≡ true }
    {
        self.happen(hook, Event::Draw(person))?;
        Ok(Slip {
            hook,
            person,
            length,
        })
    }

    // stays: taking and leaving are two calls, one line each over what they share
    /// Spends a slip: the key is out.
    pub fn take(&mut self, slip: Slip) -> Result<(), RefusedSlip>
        ensures is { result ≡ spent slip (judged slip.hook (state_of self.old slip.hook) (Take slip.person)) }
        ensures leaves { Leaves self.old slip.hook (judged slip.hook (state_of self.old slip.hook) (Take slip.person)) self.new }
        ensures law { SpendLaw self.old slip Out self.new result }
        ensures allowed { Promises self.old slip → result ≡ Ok tt }
    {
        let happened = self.happen(slip.hook, Event::Take(slip.person));
        slip.spend(happened)
    }

    /// Spends a slip: the key is in again.
    pub fn leave(&mut self, slip: Slip) -> Result<(), RefusedSlip>
        ensures is { result ≡ spent slip (judged slip.hook (state_of self.old slip.hook) (Leave slip.person)) }
        ensures leaves { Leaves self.old slip.hook (judged slip.hook (state_of self.old slip.hook) (Leave slip.person)) self.new }
        ensures law { SpendLaw self.old slip In self.new result }
        ensures allowed { Promises self.old slip → result ≡ Ok tt }
    {
        let happened = self.happen(slip.hook, Event::Leave(slip.person));
        slip.spend(happened)
    }

    /// Brings the key of `hook`, which is out, in again.
    pub fn give_back(&mut self, hook: u8) -> Result<(), Fault>
        ensures is { result ≡ answered (judged hook (state_of self.old hook) Return) }
        ensures leaves { Leaves self.old hook (judged hook (state_of self.old hook) Return) self.new }
        ensures law { ReturnLaw self.old hook self.new result }
        ensures allowed { state_of self.old hook ≡ Out → result ≡ Ok tt }
    {
        self.happen(hook, Event::Return)
    }
}

impl Slip {
    /// The slip is spent where the event was accepted, and comes back whole where it was refused.
    fn spend(self, happened: Result<(), Fault>) -> Result<(), RefusedSlip>
        ensures { result ≡ spent_by self happened }
    {
        match happened {
            Ok(()) => {
                let Slip {
                    hook: _,
                    person: _,
                    length: _,
                } = self;
                Ok(())
            }
            Err(fault) => Err(RefusedSlip { fault, slip: self }),
        }
    }
}
