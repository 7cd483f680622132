// A call as a value, and the calls of a list one after the other.
ghost use Rattle.std.specs.Prelude.{◌≡◌, ◌∷◌};
ghost use Rattle.enquiry.specs.Histories.{History};
ghost use Rattle.enquiry.specs.RunLaw.{called, Holds};
ghost use Rattle.enquiry.specs.States.{step, unasked};
ghost use Rattle.enquiry.specs.Views.{done_view, opening_of, state_of};

use super::Enquiry;
use calls::{Call, CallRefusal, Reply};
use ruleset::RuleSet;

impl<R: RuleSet> Enquiry<R> {
    /// Answers any call. Whatever was called before, it is answered as the history of all calls says, and the builds given
    /// since the listing began are the first of all that fit.
    pub fn answer(&mut self, call: Call) -> Reply
        ensures reply { result ≡ (step (opening_of (R.RuleSet.meaning self.old.rules) self.old) (state_of self.old) call).reply }
        ensures state { state_of self.new ≡ (step (opening_of (R.RuleSet.meaning self.old.rules) self.old) (state_of self.old) call).state }
        ensures same { opening_of (R.RuleSet.meaning self.new.rules) self.new ≡ opening_of (R.RuleSet.meaning self.old.rules) self.old }
        ensures rules { unasked call (self.new.rules ≡ self.old.rules) }
        ensures law { (h : History) → Holds (opening_of (R.RuleSet.meaning self.old.rules) self.old) (record { history = h; state = state_of self.old }) → Holds (opening_of (R.RuleSet.meaning self.new.rules) self.new) (record { history = record { call = call; reply = result } ∷ h; state = state_of self.new }) }
    {
        self.act(call)
    }

    // Does what is called.
    fn act(&mut self, call: Call) -> Reply
        ensures reply { result ≡ (step (opening_of (R.RuleSet.meaning self.old.rules) self.old) (state_of self.old) call).reply }
        ensures state { state_of self.new ≡ (step (opening_of (R.RuleSet.meaning self.old.rules) self.old) (state_of self.old) call).state }
        ensures same { opening_of (R.RuleSet.meaning self.new.rules) self.new ≡ opening_of (R.RuleSet.meaning self.old.rules) self.old }
        ensures rules { unasked call (self.new.rules ≡ self.old.rules) }
    {
        match call {
            Call::Settle { option, value } => done_or_refused(self.settle(option, value)),
            Call::Back => done_or_refused(self.back()),
            Call::Again => {
                self.again();
                Reply::Done
            }
            Call::Look => match self.look() {
                None => Reply::Dead,
                Some(known) => Reply::Known(known),
            },
            Call::Next { budget } => Reply::Listed(self.next(budget)),
        }
    }
}

// The reply where a call may be refused.
fn done_or_refused(done: Result<(), CallRefusal>) -> Reply
    ensures { result ≡ done_view done }
{
    match done {
        Ok(()) => Reply::Done,
        Err(refusal) => Reply::Refused(refusal),
    }
}
