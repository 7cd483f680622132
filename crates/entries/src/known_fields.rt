// The fields of an entry whose op is known, and the tests on them.
ghost use Rattle.std.specs.Prelude.{◌≡◌};
ghost use Rattle.entries.specs.Fields.{entry_of, sets_unused, unknown_rule, bad_width, beyond, overlap, hides_many};
ghost use Rattle.entries.specs.Ops.{code_of};

use crate::entry::Entry;
use crate::fields::EntryFields;
use crate::op::Op;
use assignment::has_bit_from;

const MAX_WIDTH: u64 = 32;

const MAX_HIDDEN: u32 = 16;

// The fields, and the op that their code stands for.
#[derive(Clone, Copy)]
pub(crate) struct KnownFields {
    pub(crate) op: Op,
    pub(crate) fields: EntryFields,
    ghost coded: { code_of op ≡ fields.op },
}

impl KnownFields {
    // Whether a field is set that the op does not use.
    pub(crate) fn sets_unused(self) -> bool
        ensures { result ≡ sets_unused self.fields }
    {
        let EntryFields {
            first,
            second,
            third,
            word,
            ..
        } = self.fields;
        match self.op {
            Op::Carry | Op::Complement => second != 0 || third != 0 || word != 0,
            Op::Product | Op::Either => third != 0 || word != 0,
            Op::Selection => false,
            Op::Projection => second != 0 || third != 0,
            Op::None => first != 0 || second != 0 || third != 0 || word != 0,
        }
    }

    // Whether a rule is named that is not among the rules below.
    pub(crate) fn names_unknown_rule(self, below: u32) -> bool
        ensures { result ≡ unknown_rule below self.fields }
    {
        let first = u32::from(self.fields.first);
        let second = u32::from(self.fields.second);
        match self.op {
            Op::Product | Op::Either => first >= below || second >= below,
            Op::Carry | Op::Selection | Op::Projection | Op::Complement => first >= below,
            Op::None => false,
        }
    }

    // Whether this is a selection whose width is out of range.
    pub(crate) fn has_bad_width(self) -> bool
        ensures { result ≡ bad_width self.fields }
    {
        self.op == Op::Selection && !(1..=MAX_WIDTH).contains(&self.fields.word)
    }

    // Whether a selection's range or a projection's mask reaches past the options.
    pub(crate) fn reaches_beyond(self, options: u32) -> bool
        ensures { result ≡ beyond options self.fields }
    {
        let EntryFields {
            second,
            third,
            word,
            ..
        } = self.fields;
        match self.op {
            Op::Selection => {
                let last = u64::from(options);
                u64::from(second).saturating_add(word) > last
                    || u64::from(third).saturating_add(word) > last
            }
            Op::Projection => has_bit_from(word, options),
            Op::Carry | Op::Product | Op::Either | Op::Complement | Op::None => false,
        }
    }

    // Whether the two ranges of a selection share an option.
    pub(crate) fn overlaps(self) -> bool
        ensures { result ≡ overlap self.fields }
    {
        let apart = self.fields.second.abs_diff(self.fields.third);
        self.op == Op::Selection && u64::from(apart) < self.fields.word
    }

    // Whether a projection hides more options than it may.
    pub(crate) fn hides_too_many(self) -> bool
        ensures { result ≡ hides_many self.fields }
    {
        self.op == Op::Projection && self.fields.word.count_ones() > MAX_HIDDEN
    }

    // The entry that the fields stand for once they are checked.
    pub(crate) fn to_entry(self) -> Entry
        ensures { result ≡ entry_of self.fields }
    {
        let EntryFields {
            first,
            second,
            third,
            word,
            ..
        } = self.fields;
        match self.op {
            Op::Carry => Entry::Carry { rule: first },
            Op::Product => Entry::Product { first, second },
            Op::Either => Entry::Either { first, second },
            Op::Selection => Entry::Selection {
                rule: first,
                left: second,
                right: third,
                width: (word % 256) as u8,
            },
            Op::Projection => Entry::Projection {
                rule: first,
                hidden: word,
            },
            Op::Complement => Entry::Complement { rule: first },
            Op::None => Entry::None,
        }
    }
}
