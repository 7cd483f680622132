// What a rule file holds and what a rule replies, in words.
use assignment::{Assignment, has_bit};
use entries::Entry;
use std::fmt;

// The options of a mask, each after a space.
#[derive(Clone, Copy)]
pub(crate) struct Options(pub(crate) u64);

impl fmt::Display for Options {
    fn fmt<W: fmt::Write>(&self, f: &mut fmt::Formatter<W>) -> fmt::Result {
        for option in 0..64 {
            if has_bit(self.0, option) {
                write!(f, " {option}")?;
            }
        }
        Ok(())
    }
}

// A folder's entry in words.
#[derive(Clone, Copy)]
pub(crate) struct InWords(pub(crate) Entry);

impl fmt::Display for InWords {
    fn fmt<W: fmt::Write>(&self, f: &mut fmt::Formatter<W>) -> fmt::Result {
        match self.0 {
            Entry::Carry { rule } => write!(f, "carry of rule {rule}"),
            Entry::Product { first, second } => write!(f, "product of rules {first} and {second}"),
            Entry::Either { first, second } => write!(f, "either of rules {first} and {second}"),
            Entry::Selection {
                rule,
                left,
                right,
                width,
            } => {
                let more = u32::from(width).saturating_sub(1);
                let left_end = u32::from(left) + more;
                let right_end = u32::from(right) + more;
                write!(
                    f,
                    "selection of rule {rule} with options {left} to {left_end} equal to {right} to {right_end}"
                )
            }
            Entry::Projection { rule, hidden: 0 } => {
                write!(f, "projection of rule {rule} hiding nothing")
            }
            Entry::Projection { rule, hidden } => {
                let hidden = Options(hidden);
                write!(f, "projection of rule {rule} hiding{hidden}")
            }
            Entry::Complement { rule } => write!(f, "complement of rule {rule}"),
            Entry::None => write!(f, "none"),
        }
    }
}

// Of the first so many options those that a reply has as yes, as no, as unknown and as inconsistent; each word only
// where there is such an option.
#[derive(Clone, Copy)]
pub(crate) struct Known {
    pub(crate) reply: Assignment,
    pub(crate) options: u32,
}

impl fmt::Display for Known {
    fn fmt<W: fmt::Write>(&self, f: &mut fmt::Formatter<W>) -> fmt::Result {
        let yes = self.reply.yes_mask();
        let no = self.reply.no_mask();
        let used = !u64::MAX.checked_shl(self.options).unwrap_or(0);
        let kinds = [
            ("yes", yes & !no),
            ("no", no & !yes),
            ("unknown", !(yes | no)),
            ("inconsistent", yes & no),
        ];
        for (word, mask) in kinds {
            if mask & used != 0 {
                let options = Options(mask & used);
                write!(f, " {word}{options}")?;
            }
        }
        Ok(())
    }
}
