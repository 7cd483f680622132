// Tables and clause sheets.
use super::choose::Theme;
use crate::contents::{Clause, ClauseSheet, Table, Wanted};
use crate::masks::{fillings, has, rising};
use crate::random::Random;
use std::alloc::{AllocError, Global};

const MOST_COLUMNS: u32 = 6;

const MOST_ROWS: u32 = 24;

const MOST_CLAUSES: u32 = 6;

const MOST_WANTED: u32 = 4;

pub(crate) fn make_tables(
    heap: Global,
    random: &mut Random,
    theme: &Theme,
    count: u32,
) -> Result<Vec<Table>, AllocError> {
    let mut tables = Vec::new(heap);
    for _ in 0..count {
        tables.push(make_table(heap, random, theme)?)?;
    }
    Ok(tables)
}

// A few tables have no rows.
fn make_table(heap: Global, random: &mut Random, theme: &Theme) -> Result<Table, AllocError> {
    let count = random.below(MOST_COLUMNS).wrapping_add(1);
    let mask = theme.options(random, count);
    let columns = rising(heap, mask)?;
    let most = u32::try_from(fillings(mask)).unwrap_or(MOST_ROWS);
    let row_count = if random.chance(4) {
        0
    } else {
        random.below(most.min(MOST_ROWS)).wrapping_add(1)
    };
    let mut rows = Vec::new(heap);
    for index in 0..row_count {
        let likely = index == 0 && random.chance(90);
        let build = if likely {
            theme.sample
        } else {
            theme.build(random)
        };
        rows.push(row_of(&columns, build))?;
    }
    Ok(Table { columns, rows })
}

// The values of a build in the columns.
fn row_of(columns: &[u8], build: u64) -> u16 {
    let mut row = 0u16;
    let mut bit = 1u16;
    for column in columns {
        if has(build, *column) {
            row |= bit;
        }
        bit = bit.wrapping_mul(2);
    }
    row
}

pub(crate) fn make_clause_sheets(
    heap: Global,
    random: &mut Random,
    theme: &Theme,
    count: u32,
) -> Result<Vec<ClauseSheet>, AllocError> {
    let mut sheets = Vec::new(heap);
    for _ in 0..count {
        sheets.push(make_clause_sheet(heap, random, theme)?)?;
    }
    Ok(sheets)
}

fn make_clause_sheet(
    heap: Global,
    random: &mut Random,
    theme: &Theme,
) -> Result<ClauseSheet, AllocError> {
    let count = random.below(MOST_CLAUSES.wrapping_add(1));
    let mut sheet = Vec::new(heap);
    for _ in 0..count {
        sheet.push(make_clause(heap, random, theme)?)?;
    }
    Ok(sheet)
}

fn make_clause(heap: Global, random: &mut Random, theme: &Theme) -> Result<Clause, AllocError> {
    let count = random.below(MOST_WANTED).wrapping_add(1);
    let mask = theme.options(random, count);
    let mut clause = Vec::new(heap);
    for option in 0..64u8 {
        if has(mask, option) {
            let likely = random.chance(80);
            let value = has(theme.sample, option) == likely;
            clause.push(Wanted { option, value })?;
        }
    }
    Ok(clause)
}
