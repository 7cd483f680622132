// A draft that carries the rules below as they are.
ghost use Rattle.std.specs.Prelude.{◌≡◌, ◌<◌, min};
ghost use Rattle.entries.specs.Drafts.{carries};
ghost use Rattle.entries.specs.declared.entry.Entry.TheVariants.{Carry};

use super::Draft;
use crate::entry::Entry;
use crate::space::{EntrySpace, MAX_ENTRIES};

impl Draft {
    /// A draft that carries each rule below under its own number, the first 32 of them.
    #[tactic(auto, unfolding(crate::specs::Drafts::carries))]
    pub fn carrying(space: EntrySpace, options: u32, below: u32) -> Draft
        ensures options { result.options ≡ options }
        ensures below { result.below ≡ below }
        ensures entries { result.entries.items ≡ carries (min below 32) }
    {
        let EntrySpace { mut entries } = space;
        for rule in 0..below.min(MAX_ENTRIES as u32) {
            entries.push_reserved(carry(rule));
        }
        Draft {
            options,
            below,
            entries,
        }
    }
}

// The entry that carries a rule with a number below 256.
fn carry(rule: u32) -> Entry
    requires { rule < 256 }
    ensures { result ≡ Carry rule }
{
    Entry::Carry { rule: rule as u8 }
}
