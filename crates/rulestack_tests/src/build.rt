// Assignments, sheets and folders written as words.
use assignment::Assignment;
use entries::{Draft, EntryFields, EntrySpace, Op};
use folders::Folder;
use refusals::{Body, SheetFault};
use ruleset::{RuleSet, SideBySide};
use sheet_rules::{SheetRule, SheetRules};
use sheets::Sheet;
use std::alloc::Global;
use std::test::Fail;

// What is known, as `yes 0 2 no 3-7 both 8`: the options behind each word have its value, and those before any word are
// yes. Of an option that is named twice the last value counts. All others are unknown. `contradiction` and `nothing` need
// no option.
pub(crate) fn known(words: &str) -> Result<Assignment, Fail> {
    let mut yes = 0;
    let mut no = 0;
    let mut value = (true, false);
    for word in words.split_whitespace() {
        match word {
            "nothing" => {}
            "contradiction" => {
                yes = u64::MAX;
                no = u64::MAX;
            }
            "yes" => value = (true, false),
            "no" => value = (false, true),
            "both" => value = (true, true),
            "unknown" => value = (false, false),
            _ => {
                let options = mask_of(word)?;
                yes = put(yes, options, value.0);
                no = put(no, options, value.1);
            }
        }
    }
    Ok(Assignment::new(yes, no))
}

fn put(mask: u64, options: u64, set: bool) -> u64 {
    if set { mask | options } else { mask & !options }
}

// The mask of one option, as `3`, or of a range with both its ends, as `3-7`.
fn mask_of(word: &str) -> Result<u64, Fail> {
    let (low, high) = word.split_once('-').unwrap_or((word, word));
    let mut mask = 0;
    for option in low.parse::<u32>()?..=high.parse::<u32>()? {
        mask |= 1u64.checked_shl(option).ok_or("an option past 63")?;
    }
    Ok(mask)
}

// What is known, from letters for the options from 0 on: `y`, `n`, `?` for unknown and `*` for both. Every option behind
// them is no. `contradiction` is no letters.
pub(crate) fn in_letters(letters: &str) -> Result<Assignment, Fail> {
    if letters == "contradiction" {
        return Ok(Assignment::contradiction());
    }
    let mut yes = 0;
    let mut no = u64::MAX;
    for letter in letters.as_bytes().iter().rev() {
        let (yes_bit, no_bit) = match letter {
            b'y' => (1, 0),
            b'n' => (0, 1),
            b'?' => (0, 0),
            b'*' => (1, 1),
            _ => return Err(Fail::new("no such letter")),
        };
        yes = yes << 1 | yes_bit;
        no = no << 1 | no_bit;
    }
    Ok(Assignment::new(yes, no))
}

// The bodies of sheets with `/` between them. A table is written as `0 1: nn ny yy`: the columns, and the rows. A clause
// sheet is written as `2 3; 1 -2`: in each clause the options that are wanted yes, and behind a minus those that are
// wanted no. The sheet without clauses is written `no clauses`.
pub(crate) fn bodies(heap: Global, text: &str) -> Result<Vec<Vec<u8>>, Fail> {
    let mut bodies = Vec::new(heap);
    for sheet in text.split_terminator('/') {
        let mut body = Vec::new(heap);
        add_sheet(&mut body, sheet.trim())?;
        bodies.push(body)?;
    }
    Ok(bodies)
}

// A table is a list of columns with rows behind it, and a clause sheet has lists alone.
pub(crate) fn add_sheet(body: &mut Vec<u8>, sheet: &str) -> Result<(), Fail> {
    if sheet == "no clauses" {
        return Ok(());
    }
    for list in sheet.split(';') {
        let (options, rows) = list.split_once(':').unwrap_or((list, ""));
        add_list(body, options)?;
        add_rows(body, rows)?;
    }
    Ok(())
}

fn add_rows(body: &mut Vec<u8>, rows: &str) -> Result<(), Fail> {
    for row in rows.split_whitespace() {
        let bits = in_letters(row)?.yes_mask();
        body.extend_from_slice(&u16::try_from(bits)?.to_le_bytes())?;
    }
    Ok(())
}

// How many options a list has, and each of them in a byte. Its highest bit is set behind a minus.
fn add_list(body: &mut Vec<u8>, options: &str) -> Result<(), Fail> {
    body.push(u8::try_from(options.split_whitespace().count())?)?;
    for option in options.split_whitespace() {
        body.push(option_byte(option)?)?;
    }
    Ok(())
}

fn option_byte(option: &str) -> Result<u8, Fail> {
    match option.strip_prefix('-') {
        Some(negated) => Ok(negated.parse::<u8>()? | 128),
        None => Ok(option.parse::<u8>()?),
    }
}

// Sheets of one kind in a file with so many options.
pub(crate) fn sheet_rules<'a, S: Sheet<'a> + SheetRule>(
    heap: Global,
    bodies: &'a [Vec<u8>],
    options: u32,
) -> Result<SheetRules<S>, Fail> {
    let mut sheets = Vec::new(heap);
    for body in bodies {
        let bytes = body.as_slice();
        sheets.push(S::read(Body { bytes, place: 0 }, options)?)?;
    }
    Ok(SheetRules::new(sheets))
}

// The sheets of one kind beside those of another: so many of the bodies, and the others.
pub(crate) fn beside<'a, A: Sheet<'a> + SheetRule, B: Sheet<'a> + SheetRule>(
    heap: Global,
    bodies: &'a [Vec<u8>],
    count: usize,
) -> Result<SideBySide<SheetRules<A>, SheetRules<B>>, Fail> {
    let (first, second) = bodies.split_at_checked(count).ok_or("too few sheets")?;
    let first = sheet_rules(heap, first, 64)?;
    let second = sheet_rules(heap, second, 64)?;
    Ok(SideBySide::new(first, second))
}

// How many tables are among the sheets in a text.
pub(crate) fn tables_in(text: &str) -> usize {
    text.split(':').count().saturating_sub(1)
}

// A draft with these entries, told 64 options and so many rules below. Another number of rules to be told stands before
// the entries, as `40: carry 7`. The entries `carried` are those that a draft has which carries the rules below.
fn draft(heap: Global, below: u32, entries: &str) -> Result<Draft, Fail> {
    let entries = entries.trim();
    if entries == "carried" {
        return Ok(Draft::carrying(EntrySpace::reserve(heap)?, 64, below));
    }
    match entries.split_once(':') {
        Some((told, entries)) => draft_of(heap, told.parse::<u32>()?, entries),
        None => draft_of(heap, below, entries),
    }
}

fn draft_of(heap: Global, told: u32, entries: &str) -> Result<Draft, Fail> {
    let mut draft = Draft::new(EntrySpace::reserve(heap)?, 64, told);
    for entry in entries.split_terminator(';') {
        draft.add(fields_of(entry)?)?;
    }
    Ok(draft)
}

// A folder with these entries on other rules.
pub(crate) fn lay<R: RuleSet + Drop>(
    heap: Global,
    below: R,
    entries: &str,
) -> Result<Folder<R>, Fail> {
    let draft = draft(heap, below.count(), entries)?;
    Ok(Folder::lay(draft, below))
}

// The fields of an entry, as `carry 0`, `product 0 and 1`, `selection 0 left 2 right 4 width 1`, `projection 0 hides 3-7 9`
// or `none`: the op, up to four numbers with a word between them, and the options that are hidden.
pub(crate) fn fields_of(entry: &str) -> Result<EntryFields, Fail> {
    let (shown, hidden) = entry.split_once("hides").unwrap_or((entry, ""));
    let mut words = shown.split_whitespace();
    let op = op_of(words.next().unwrap_or(""))?;
    let first = number(words.next());
    let second = number(words.nth(1));
    let third = number(words.nth(1));
    let width = number(words.nth(1));
    Ok(EntryFields {
        op: op.code(),
        first,
        second,
        third,
        word: u64::from(width) | known(hidden)?.yes_mask(),
    })
}

// A number, or 0 where there is none. What is no number at all is 255, a rule or an option that no draft takes.
fn number(word: Option<&str>) -> u8 {
    word.unwrap_or("0").parse::<u8>().unwrap_or(u8::MAX)
}

fn op_of(name: &str) -> Result<Op, Fail> {
    match name {
        "carry" => Ok(Op::Carry),
        "product" => Ok(Op::Product),
        "either" => Ok(Op::Either),
        "selection" => Ok(Op::Selection),
        "projection" => Ok(Op::Projection),
        "complement" => Ok(Op::Complement),
        "none" => Ok(Op::None),
        _ => Err(Fail::new("no such op")),
    }
}
