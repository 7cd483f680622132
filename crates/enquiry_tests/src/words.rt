// Calls and replies as words.
use crate::build::bit;
use assignment::{Assignment, Value};
use calls::{Call, Reply};
use listing::Progress;
use std::fmt;

// All options, to be shown.
pub(crate) const EVERY_OPTION: &[u32; 64] = &[
    0, 1, 2, 3, 4, 5, 6, 7, 8, 9, 10, 11, 12, 13, 14, 15, 16, 17, 18, 19, 20, 21, 22, 23, 24, 25,
    26, 27, 28, 29, 30, 31, 32, 33, 34, 35, 36, 37, 38, 39, 40, 41, 42, 43, 44, 45, 46, 47, 48, 49,
    50, 51, 52, 53, 54, 55, 56, 57, 58, 59, 60, 61, 62, 63,
];

// The call of a line, and the reply that is wanted, in words.
pub(crate) fn line_of(line: &str) -> Option<(Call, &str)> {
    let (call, wanted) = line.split_once('|')?;
    Some((call_of(call.trim())?, wanted.trim()))
}

// A call, as `settle 3 yes`, `back`, `again`, `look` or `next 2`.
fn call_of(call: &str) -> Option<Call> {
    match call.split_once(' ') {
        None => call_of_one_word(call),
        Some(("next", budget)) => Some(Call::Next {
            budget: number_of(budget)?,
        }),
        Some(("settle", settlement)) => {
            let (option, value) = settlement.split_once(' ')?;
            Some(Call::Settle {
                option: number_of(option)?,
                value: value_of(value)?,
            })
        }
        Some(_) => None,
    }
}

fn call_of_one_word(call: &str) -> Option<Call> {
    match call {
        "back" => Some(Call::Back),
        "again" => Some(Call::Again),
        "look" => Some(Call::Look),
        _ => None,
    }
}

fn number_of(word: &str) -> Option<u32> {
    word.parse::<u32>().ok()
}

fn value_of(word: &str) -> Option<bool> {
    match word {
        "yes" => Some(true),
        "no" => Some(false),
        _ => None,
    }
}

// A reply, as `done`, `refused 22`, `known y?n`, `dead`, `built yyn 2`, `stopped 2` or `end 0`. A letter stands for
// each option that is shown, and the number at the end is that of the choices that were opened.
#[derive(Clone, Copy)]
pub(crate) struct InWords<'a> {
    pub(crate) reply: Reply,
    pub(crate) shown: &'a [u32],
}

impl fmt::Display for InWords<'_> {
    fn fmt<W: fmt::Write>(&self, f: &mut fmt::Formatter<W>) -> fmt::Result {
        let parts = parts_of(self.reply);
        f.write_str(parts.word)?;
        if let Some(known) = parts.known {
            write_letters(f, known, self.shown)?;
        }
        match parts.number {
            Some(number) => write!(f, " {number}"),
            None => Ok(()),
        }
    }
}

// The parts of a reply in words: its first word, what is known in it, and its number.
#[derive(Clone, Copy)]
struct Parts {
    word: &'static str,
    known: Option<Assignment>,
    number: Option<u32>,
}

fn parts_of(reply: Reply) -> Parts {
    let (word, known, number) = match reply {
        Reply::Done => ("done", None, None),
        Reply::Refused(refusal) => ("refused", None, Some(u32::from(refusal.number()))),
        Reply::Known(known) => ("known ", Some(known), None),
        Reply::Dead => ("dead", None, None),
        Reply::Listed(Progress::Built { build, opened }) => {
            let known = Assignment::new(build.yes, !build.yes);
            ("built ", Some(known), Some(opened))
        }
        Reply::Listed(Progress::Stopped { opened }) => ("stopped", None, Some(opened)),
        Reply::Listed(Progress::End { opened }) => ("end", None, Some(opened)),
    };
    Parts {
        word,
        known,
        number,
    }
}

// The letters `y`, `n`, `?` for unknown and `!` for inconsistent. All options that are not shown should be no; where
// one is not, a `+` is put behind.
fn write_letters<W: fmt::Write>(
    f: &mut fmt::Formatter<W>,
    known: Assignment,
    shown: &[u32],
) -> fmt::Result {
    let mut others = u64::MAX;
    for option in shown {
        f.write_str(letter_of(known.value(*option)))?;
        others &= !bit(*option);
    }
    if known.yes_mask() & others != 0 || known.no_mask() & others != others {
        f.write_str("+")?;
    }
    Ok(())
}

fn letter_of(value: Value) -> &'static str {
    match value {
        Value::Yes => "y",
        Value::No => "n",
        Value::Unknown => "?",
        Value::Inconsistent => "!",
    }
}
