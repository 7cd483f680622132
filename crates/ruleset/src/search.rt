// The search for a build that a rule allows.
ghost use Rattle.std.specs.Prelude.{◌≡◌, position, Decides};
ghost use Rattle.ruleset.specs.Closure.{closure as closed};
ghost use Rattle.ruleset.specs.Fillings.{fills as fillings, FillsBuilds, SearchFills};
ghost use Rattle.ruleset.specs.Tree.{Below, Covers, finds, Fits, tree, TreeLaw, TreeLists, unknown};

use crate::closing::closure;
use crate::rules::RuleSet;
use assignment::Assignment;

/// Whether the search tree at the closure of what is known has a leaf: options are chosen in the order of the list, yes
/// before no. Where each option of the list is below 64, and the list has every option of which nothing is known, this
/// says whether some build that refines what is known is allowed by the rule.
pub fn finds_build<R: RuleSet>(rules: &mut R, rule: u32, options: &[u8], known: Assignment) -> bool
    ensures answer { result ≡ finds (tree ((R.RuleSet.meaning rules.old).reply rule) options.now (closed ((R.RuleSet.meaning rules.old).reply rule) known)) }
    ensures fills { Below options.now → Covers options.now known → result ≡ fillings ((R.RuleSet.meaning rules.old).reply rule) options.now known }
    ensures builds { Below options.now → Covers options.now known → Decides result ((b : Assignment) × Fits ((R.RuleSet.meaning rules.old).reply rule) known b) }
    ensures same { R.RuleSet.meaning rules.new ≡ R.RuleSet.meaning rules.old }
{
    has_leaf(rules, rule, options, known)
}

// Whether that tree has a leaf.
#[tactic(auto, using(crate::proofs::Finding::finds_dead, crate::proofs::Finding::finds_leaf, crate::proofs::Finding::finds_yes, crate::proofs::Finding::finds_no))]
fn has_leaf<R: RuleSet>(rules: &mut R, rule: u32, options: &[u8], known: Assignment) -> bool
    ensures answer { result ≡ finds (tree ((R.RuleSet.meaning rules.old).reply rule) options.now (closed ((R.RuleSet.meaning rules.old).reply rule) known)) }
    ensures same { R.RuleSet.meaning rules.new ≡ R.RuleSet.meaning rules.old }
{
    let settled = closure(rules, rule, known);
    if settled.is_inconsistent() {
        return false;
    }
    let Some(next) = first_unknown(options, settled) else {
        return true;
    };
    let option = u32::from(options[next]);
    let rest = &options[next + 1..];
    has_leaf(rules, rule, rest, settled.with(option, true))
        || has_leaf(rules, rule, rest, settled.with(option, false))
}

// The place of the first option of the list of which nothing is known.
fn first_unknown(options: &[u8], settled: Assignment) -> Option<usize>
    ensures { result ≡ position (unknown settled) options.now }
{
    options
        .iter()
        .position(|&option| !settled.is_known(u32::from(option)))
}

/// The laws of the search tree: how it branches; and where each listed option is below 64 and the list has every unknown
/// option, that it lists just the builds that refine what is known and that the rule allows, in order, and that it finds
/// one where some filling of the listed options is one.
pub fn tree_laws()
    ensures branches { TreeLaw }
    ensures lists { TreeLists }
    ensures fills { FillsBuilds }
    ensures finds { SearchFills }
{}
