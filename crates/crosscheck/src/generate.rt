// Rule files, made pseudo-randomly.
use crate::contents::{Contents, Start};
use crate::masks::first;
use crate::random::Random;
use std::alloc::{AllocError, Global};

mod choose;
mod made_folders;
mod made_sheets;

use choose::Theme;

/// All kinds of sheets and entries, with at most twelve options open.
pub(crate) fn generate(heap: Global, random: &mut Random) -> Result<Contents, AllocError> {
    let start = make_start(random);
    let theme = Theme::new(random, start);
    let table_count = random.below(6);
    let tables = made_sheets::make_tables(heap, random, &theme, table_count)?;
    let clause_count = clause_sheets(random, table_count);
    let clauses = made_sheets::make_clause_sheets(heap, random, &theme, clause_count)?;
    let sheets = byte(table_count).wrapping_add(byte(clause_count));
    let folder_count = folders_over(random, sheets);
    let (folders, topmost) = made_folders::make_folders(
        heap,
        random,
        &theme,
        folder_count,
        sheets,
    )?;
    Ok(Contents {
        start,
        tables,
        clauses,
        folders,
        asked: random.byte_below(topmost),
    })
}

fn make_start(random: &mut Random) -> Start {
    let options = make_options(random);
    let most = if random.chance(20) {
        random.below(5)
    } else {
        random.below(9).wrapping_add(4)
    };
    let mut free = 0;
    for _ in 0..most {
        free |= crate::masks::one(random.byte_below(options));
    }
    let fixed = first(options) & !free;
    let values = random.word();
    Start {
        options,
        yes: fixed & values,
        no: fixed & !values,
    }
}

// Mostly so many that all four blocks of the selling order are there, sometimes few.
fn make_options(random: &mut Random) -> u8 {
    match random.below(10) {
        0..=4 => 64,
        5..=6 => random.byte_below(16).wrapping_add(49),
        7..=8 => random.byte_below(64).wrapping_add(1),
        _ => random.byte_below(12).wrapping_add(1),
    }
}

// A file without tables mostly has clauses.
fn clause_sheets(random: &mut Random, tables: u32) -> u32 {
    let count = random.below(5);
    if tables == 0 && count == 0 && random.chance(90) {
        return 1;
    }
    count
}

// Where there is no sheet there is a folder, so that there is a rule to ask.
fn folders_over(random: &mut Random, sheets: u8) -> u32 {
    let count = random.below(5);
    if sheets == 0 { count.max(1) } else { count }
}

fn byte(count: u32) -> u8 {
    u8::try_from(count).unwrap_or(u8::MAX)
}
