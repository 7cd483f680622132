// Asking the first rule of a set one question after the other.
ghost use Rattle.std.specs.Prelude.{◌≡◌};
ghost use Rattle.facade.specs.Questions.{answered};

use assignment::Assignment;
use ruleset::RuleSet;

// A question is two numbers, the mask of the options known yes and that of those known no; the reply's masks take their
// place.
pub(crate) fn answer_all<R: RuleSet>(rules: &mut R, masks: &mut [u64])
    ensures { masks.new ≡ answered ((R.RuleSet.meaning rules.old).reply 0) masks.old }
{
    for i in 0..masks.len() / 2 {
        let question = Assignment::new(masks[2 * i], masks[2 * i + 1]);
        let reply = rules.propagate(0, question);
        masks[2 * i] = reply.yes_mask();
        masks[2 * i + 1] = reply.no_mask();
    }
}
