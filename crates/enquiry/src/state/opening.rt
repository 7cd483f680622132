// Opening an enquiry, what it has been opened with, and closing it.
ghost use Rattle.std.specs.Prelude.{◌≡◌, [], Ok, Err, IfOk, MatchResult, Some};
ghost use Rattle.enquiry.specs.Fitting.{Fitting};
ghost use Rattle.enquiry.specs.Histories.{given, History};
ghost use Rattle.enquiry.specs.Openings.{opening_verdict, Opens};
ghost use Rattle.enquiry.specs.RunLaw.{Holds, Sound};
ghost use Rattle.enquiry.specs.States.{begun_with, last_of};
ghost use Rattle.enquiry.specs.Views.{opening_of, state_of};
ghost use Rattle.listing.specs.SellingOrder.{selling_order};
ghost use Rattle.listing.specs.declared.build.Build.{Build as BuildValue};

use super::Enquiry;
use crate::walk::Listing;
use arrayvec::ArrayVec;
use assignment::{Assignment, has_bit_from};
use listing::Build;
use refusals::Refusal;
use ruleset::RuleSet;

const MAX_OPTIONS: u32 = 64;

/// Why no enquiry was opened, with the rule set as it was.
#[derive(Drop)]
pub struct NotOpened<R> {
    pub rules: R,
    pub refusal: Refusal,
}

/// What an enquiry had given last since its listing began, and its rule set.
#[derive(Drop)]
pub struct Closed<R> {
    pub rules: R,
    pub last: Option<Build>,
}

impl<R: RuleSet> Enquiry<R> {
    /// Opens an enquiry on a rule, with so many options and what is known at the start. It has no settlement and nothing
    /// is listed. The checks only read; a rule set that passes is taken over.
    pub fn open(
        rules: R,
        options: u32,
        start: Assignment,
        rule: u32,
    ) -> Result<Enquiry<R>, NotOpened<R>>
        ensures refusal { MatchResult result (λ q. opening_verdict options start rule (R.RuleSet.meaning rules).count ≡ Ok tt) (λ e. opening_verdict options start rule (R.RuleSet.meaning rules).count ≡ Err e.refusal) }
        ensures opens { MatchResult result (λ q. Opens options start rule (R.RuleSet.meaning rules).count) (λ e. Opens options start rule (R.RuleSet.meaning rules).count → ⊥) }
        ensures rules { MatchResult result (λ q. q.rules ≡ rules) (λ e. e.rules ≡ rules) }
        ensures opening { IfOk result (λ q. opening_of (R.RuleSet.meaning q.rules) q ≡ record { options = options; start = start; rule = rule; rules = R.RuleSet.meaning rules; order = selling_order }) }
        ensures state { IfOk result (λ q. state_of q ≡ begun_with []) }
        ensures sound { IfOk result (λ q. Sound (opening_of (R.RuleSet.meaning q.rules) q)) }
        ensures law { IfOk result (λ q. Holds (opening_of (R.RuleSet.meaning q.rules) q) (record { history = []; state = state_of q })) }
    {
        match check(options, start, rule, rules.count()) {
            Err(refusal) => Err(NotOpened { rules, refusal }),
            Ok(()) => Ok(Enquiry {
                rules,
                rule,
                options,
                start,
                settlements: ArrayVec::new(),
                last: None,
                listing: Listing::new(),
            }),
        }
    }

    /// How many options there are.
    pub fn options(&self) -> u32
        ensures { result ≡ (opening_of (R.RuleSet.meaning self.now.rules) self.now).options }
    {
        self.options
    }

    /// Closes the enquiry: the last build that was given since the listing began, and the rule set.
    pub fn close(self) -> Closed<R>
        ensures last { result.last ≡ (state_of self).last }
        ensures rules { result.rules ≡ self.rules }
        ensures given { (h : History) → Holds (opening_of (R.RuleSet.meaning self.rules) self) (record { history = h; state = state_of self }) → result.last ≡ last_of (given h) }
        ensures fits { (h : History) (b : BuildValue) → Holds (opening_of (R.RuleSet.meaning self.rules) self) (record { history = h; state = state_of self }) → result.last ≡ Some b → Fitting (opening_of (R.RuleSet.meaning self.rules) self) h b }
    {
        let last = self.last();
        Closed {
            rules: self.rules,
            last,
        }
    }

    // The last build that was given since the listing began.
    fn last(&self) -> Option<Build>
        ensures { result ≡ (state_of self.now).last }
    {
        self.last
    }
}

// The number of options, then the start, then the rule.
fn check(options: u32, start: Assignment, rule: u32, count: u32) -> Result<(), Refusal>
    ensures { result ≡ opening_verdict options start rule count }
{
    if options == 0 {
        return Err(Refusal::OutOfRange);
    }
    if options > MAX_OPTIONS {
        return Err(Refusal::OutOfRange);
    }
    if has_bit_from(start.yes_mask(), options) {
        return Err(Refusal::BeyondOptions);
    }
    if has_bit_from(start.no_mask(), options) {
        return Err(Refusal::BeyondOptions);
    }
    if start.is_inconsistent() {
        return Err(Refusal::Conflict);
    }
    if rule >= count {
        return Err(Refusal::NoSuchRule);
    }
    Ok(())
}
