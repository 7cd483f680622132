// A folder as a set of rules over the one below.
ghost use Rattle.std.specs.Prelude.{◌≡◌, List, [], ◌∷◌, ◌++◌, slice_index_or};
ghost use Rattle.entries.specs.Drafts.{drafted};
ghost use Rattle.entries.specs.declared.entry.Entry.TheVariants.{None as no_entry};
ghost use Rattle.folders.specs.Entries.{entry_reply};
ghost use Rattle.folders.specs.Folders.{folder, stack};
ghost use Rattle.ruleset.specs.Meaning.{Meaning};
ghost use Rattle.folders.specs.Lawful.{folder_lawful};

use super::Folder;
use crate::reply::reply;
use assignment::Assignment;
use entries::{Draft, Entry};
use ruleset::RuleSet;

impl<R: RuleSet> Folder<R> {
    /// Lays a draft on a set of rules, whatever the draft was told of it. Laid on folders it is one more in their stack.
    #[tactic(auto, using(crate::proofs::Stacks::stack_more))]
    pub fn lay(draft: Draft, below: R) -> Folder<R>
        ensures draft { result.draft ≡ draft }
        ensures below { result.below ≡ below }
        ensures nested { (fs : List (List Entry)) (m : Meaning) → R.RuleSet.meaning below ≡ stack fs m → ⟦<Folder<R> as RuleSet>⟧.meaning result ≡ stack (fs ++ drafted draft ∷ []) m }
    {
        Folder { draft, below }
    }

    // The entry of a rule; the entry that allows nothing where there is no such rule.
    fn entry(&self, rule: u32) -> Entry
        ensures { result ≡ slice_index_or (drafted self.now.draft) rule no_entry }
    {
        self.draft
            .entries()
            .get(rule as usize)
            .copied()
            .unwrap_or(Entry::None)
    }
}

impl<R: RuleSet> RuleSet for Folder<R> {
    ghost meaning = { λ f. folder (drafted f.draft) (R.RuleSet.meaning f.below) };

    ghost lawful = { λ f. folder_lawful (drafted f.draft) (R.RuleSet.meaning f.below) (R.RuleSet.lawful f.below) };

    fn count(&self) -> u32 {
        self.draft.entries().len() as u32
    }

    #[tactic(auto, using(crate::proofs::Stacks::few_reply))]
    fn propagate(&mut self, rule: u32, question: Assignment) -> Assignment
        ensures answer { result ≡ (⟦<Folder<R> as RuleSet>⟧.meaning self.old).reply rule question }
        ensures same { ⟦<Folder<R> as RuleSet>⟧.meaning self.new ≡ ⟦<Folder<R> as RuleSet>⟧.meaning self.old }
        ensures table { result ≡ entry_reply (slice_index_or (drafted self.old.draft) rule no_entry) (R.RuleSet.meaning self.old.below).reply question }
        ensures below { R.RuleSet.meaning self.new.below ≡ R.RuleSet.meaning self.old.below }
    {
        let entry = self.entry(rule);
        reply(&mut self.below, entry, question)
    }
}
