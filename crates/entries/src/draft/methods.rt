// Filling a draft, and reading what it holds.
ghost use Rattle.std.specs.Prelude.{◌≡◌, [], ◌∷◌, ◌++◌, ◌<◌, Decides, is_ok, IfOk, OnOk, vec_len, if◌then◌else◌};
ghost use Rattle.refusals.specs.Checks.{judged};
ghost use Rattle.entries.specs.Accepts.{Accepts, StandFor};
ghost use Rattle.entries.specs.Fields.{entry_of};
ghost use Rattle.entries.specs.Drafts.{draft_checks};
ghost use Rattle.entries.specs.declared.entry.Entry.{Entry};

use super::Draft;
use crate::entry::Entry;
use crate::fields::EntryFields;
use crate::space::{EntrySpace, MAX_ENTRIES};
use refusals::Refusal;

const MAX_OPTIONS: u32 = 64;

impl Draft {
    /// A draft with no entry, told the number of options and of the rules below; any numbers may be told.
    pub fn new(space: EntrySpace, options: u32, below: u32) -> Draft
        ensures options { result.options ≡ options }
        ensures below { result.below ≡ below }
        ensures entries { result.entries.items ≡ [] }
    {
        let EntrySpace { entries } = space;
        Draft {
            options,
            below,
            entries,
        }
    }

    /// Adds the entry that the fields stand for, or refuses it and stays as it was. It is added exactly if there is room for
    /// it, the draft was told 1 to 64 options, and the entry fits these and the rules below.
    pub fn add(&mut self, fields: EntryFields) -> Result<(), Refusal>
        ensures answer { result ≡ judged (draft_checks self.old fields) tt }
        ensures accepted { Decides (is_ok result) (Accepts self.old fields) }
        ensures added { OnOk result ((entry : Entry) → StandFor self.old fields entry → self.new.entries.items ≡ self.old.entries.items ++ entry ∷ []) }
        ensures entries { self.new.entries.items ≡ (if is_ok result then self.old.entries.items ++ entry_of fields ∷ [] else self.old.entries.items) }
        ensures options { self.new.options ≡ self.old.options }
        ensures below { self.new.below ≡ self.old.below }
    {
        let entry = self.check(fields)?;
        self.entries.push_reserved(entry);
        Ok(())
    }

    // The entry that may be added, or the first refusal that applies.
    fn check(&self, fields: EntryFields) -> Result<Entry, Refusal>
        ensures answer { result ≡ judged (draft_checks self.now fields) (entry_of fields) }
        ensures room { OnOk result (vec_len self.now.entries < 32) }
        ensures value { IfOk result (λ entry. entry ≡ entry_of fields) }
    {
        if self.entries.len() >= MAX_ENTRIES {
            return Err(Refusal::TooMany);
        }
        if self.options == 0 || self.options > MAX_OPTIONS {
            return Err(Refusal::OutOfRange);
        }
        fields.entry(self.options, self.below)
    }

    /// The number of options that the draft was told.
    pub fn options(&self) -> u32
        ensures { result ≡ self.now.options }
    {
        self.options
    }

    /// The number of rules below that the draft was told.
    pub fn below(&self) -> u32
        ensures { result ≡ self.now.below }
    {
        self.below
    }

    /// The entries, in the order in which they were added: entry k is rule k.
    pub fn entries(&self) -> &[Entry]
        ensures { result.now ≡ self.now.entries.items }
    {
        self.entries.as_slice()
    }
}
