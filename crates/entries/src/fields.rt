// The five fields of an entry as a rule file has them, and the entry that they stand for.
ghost use Rattle.std.specs.Prelude.{◌≡◌, IfOk};
ghost use Rattle.entries.specs.Fields.{entry_of, entry_checks};
ghost use Rattle.refusals.specs.Checks.{judged};

use crate::entry::Entry;
use crate::known_fields::KnownFields;
use crate::op::Op;
use refusals::Refusal;

/// What the fields mean depends on `op`, the code of an `Op`; a field that an op does not use is 0.
#[derive(Clone, Copy, Debug, PartialEq, Eq)]
pub struct EntryFields {
    pub op: u8,
    pub first: u8,
    pub second: u8,
    pub third: u8,
    pub word: u64,
}

impl EntryFields {
    // The entry that these fields stand for, with `options` options over `below` rules,
    // or the first refusal that applies.
    pub(crate) fn entry(self, options: u32, below: u32) -> Result<Entry, Refusal>
        ensures answer { result ≡ judged (entry_checks options below self) (entry_of self) }
        ensures value { IfOk result (λ entry. entry ≡ entry_of self) }
    {
        let op = Op::try_from(self.op)?;
        let known = KnownFields { op, fields: self };
        if known.sets_unused() {
            return Err(Refusal::OutOfRange);
        }
        if known.names_unknown_rule(below) {
            return Err(Refusal::NoSuchRule);
        }
        if known.has_bad_width() {
            return Err(Refusal::OutOfRange);
        }
        if known.reaches_beyond(options) {
            return Err(Refusal::BeyondOptions);
        }
        if known.overlaps() {
            return Err(Refusal::Conflict);
        }
        if known.hides_too_many() {
            return Err(Refusal::TooManyHidden);
        }
        Ok(known.to_entry())
    }
}
