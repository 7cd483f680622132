// The calls of a list, one after the other.
ghost use Rattle.std.specs.Prelude.{◌≡◌, [], Ok, Err, IfOk, MatchResult, length, min, take};
ghost use Rattle.enquiry.specs.Openings.{opening_verdict};
ghost use Rattle.enquiry.specs.RunLaw.{Holds, replied_over, sent_on, sent_to, Sound};
ghost use Rattle.enquiry.specs.Views.{opening_of, state_of};
ghost use Rattle.listing.specs.SellingOrder.{selling_order};

use super::{Enquiry, NotOpened};
use assignment::Assignment;
use calls::{Call, Reply};
use ruleset::RuleSet;

impl<R: RuleSet> Enquiry<R> {
    /// Opens an enquiry and sends it calls, one after the other, as many as there is room for replies. The replies are
    /// those of the law, whatever is called, and the enquiry is given as the calls have left it; where none is opened, no
    /// reply is written.
    pub fn run(
        rules: R,
        options: u32,
        start: Assignment,
        rule: u32,
        calls: &[Call],
        replies: &mut [Reply],
    ) -> Result<Enquiry<R>, NotOpened<R>>
        ensures refusal { MatchResult result (λ q. opening_verdict options start rule (R.RuleSet.meaning rules).count ≡ Ok tt) (λ e. opening_verdict options start rule (R.RuleSet.meaning rules).count ≡ Err e.refusal) }
        ensures opening { MatchResult result (λ q. opening_of (R.RuleSet.meaning q.rules) q ≡ record { options = options; start = start; rule = rule; rules = R.RuleSet.meaning rules; order = selling_order }) (λ e. e.rules ≡ rules) }
        ensures replies { MatchResult result (λ q. replies.new ≡ replied_over (sent_to (opening_of (R.RuleSet.meaning q.rules) q) (take (min (length calls.now) (length replies.old)) calls.now)).history replies.old) (λ e. replies.new ≡ replies.old) }
        ensures state { IfOk result (λ q. state_of q ≡ (sent_to (opening_of (R.RuleSet.meaning q.rules) q) (take (min (length calls.now) (length replies.old)) calls.now)).state) }
        ensures sound { IfOk result (λ q. Sound (opening_of (R.RuleSet.meaning q.rules) q)) }
        ensures law { IfOk result (λ q. Holds (opening_of (R.RuleSet.meaning q.rules) q) (sent_to (opening_of (R.RuleSet.meaning q.rules) q) (take (min (length calls.now) (length replies.old)) calls.now))) }
    {
        let mut enquiry = match Enquiry::open(rules, options, start, rule) {
            Ok(enquiry) => enquiry,
            Err(refused) => return Err(refused),
        };
        enquiry.answer_each(calls, replies);
        Ok(enquiry)
    }

    // Answers the calls in their order.
    fn answer_each(&mut self, calls: &[Call], replies: &mut [Reply])
        ensures replies { replies.new ≡ replied_over (sent_on (opening_of (R.RuleSet.meaning self.old.rules) self.old) (record { history = []; state = state_of self.old }) (take (min (length calls.now) (length replies.old)) calls.now)).history replies.old }
        ensures state { state_of self.new ≡ (sent_on (opening_of (R.RuleSet.meaning self.old.rules) self.old) (record { history = []; state = state_of self.old }) (take (min (length calls.now) (length replies.old)) calls.now)).state }
        ensures same { opening_of (R.RuleSet.meaning self.new.rules) self.new ≡ opening_of (R.RuleSet.meaning self.old.rules) self.old }
    {
        for i in 0..calls.len().min(replies.len()) {
            let call = calls[i];
            replies[i] = self.answer(call);
        }
    }
}
