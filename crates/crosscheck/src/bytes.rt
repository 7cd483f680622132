// The bytes of a rule file.
use crate::contents::{Clause, Contents, Entry, Folder, Start, Table};
use std::alloc::{AllocError, Global};

const START: u16 = 1;

const TABLE: u16 = 2;

const CLAUSES: u16 = 3;

const FOLDER: u16 = 4;

const QUESTION: u16 = 5;

const NO_IS_WANTED: u8 = 128;

pub(crate) fn encode(heap: Global, contents: &Contents) -> Result<Vec<u8>, AllocError> {
    let mut file = Vec::new(heap);
    add_records(&mut file, &mut Vec::new(heap), contents)?;
    Ok(file)
}

// Each body is made by itself, since its length stands before it.
fn add_records(
    file: &mut Vec<u8>,
    body: &mut Vec<u8>,
    contents: &Contents,
) -> Result<(), AllocError> {
    make_start(body, contents.start)?;
    add_record(file, START, body)?;
    for table in &contents.tables {
        make_table(body, table)?;
        add_record(file, TABLE, body)?;
    }
    for sheet in &contents.clauses {
        make_clauses(body, sheet)?;
        add_record(file, CLAUSES, body)?;
    }
    for folder in &contents.folders {
        make_folder(body, folder)?;
        add_record(file, FOLDER, body)?;
    }
    body.push(contents.asked)?;
    add_record(file, QUESTION, body)
}

// Adds a record with this body, which is then empty.
fn add_record(file: &mut Vec<u8>, kind: u16, body: &mut Vec<u8>) -> Result<(), AllocError> {
    let length = u16::try_from(body.len()).unwrap_or(u16::MAX);
    file.extend_from_slice(&length.to_le_bytes())?;
    file.extend_from_slice(&kind.to_le_bytes())?;
    file.extend_from_slice(body)?;
    body.clear();
    Ok(())
}

fn make_start(body: &mut Vec<u8>, start: Start) -> Result<(), AllocError> {
    body.push(start.options)?;
    body.extend_from_slice(&start.yes.to_le_bytes())?;
    body.extend_from_slice(&start.no.to_le_bytes())
}

fn make_table(body: &mut Vec<u8>, table: &Table) -> Result<(), AllocError> {
    body.push(byte_count(table.columns.len()))?;
    body.extend_from_slice(&table.columns)?;
    for row in &table.rows {
        body.extend_from_slice(&row.to_le_bytes())?;
    }
    Ok(())
}

fn make_clauses(body: &mut Vec<u8>, clauses: &[Clause]) -> Result<(), AllocError> {
    for clause in clauses {
        body.push(byte_count(clause.len()))?;
        for wanted in clause {
            let sign = if wanted.value { 0 } else { NO_IS_WANTED };
            body.push(wanted.option | sign)?;
        }
    }
    Ok(())
}

fn make_folder(body: &mut Vec<u8>, folder: &Folder) -> Result<(), AllocError> {
    for entry in folder {
        let (small, word) = fields(*entry);
        body.extend_from_slice(&small)?;
        body.extend_from_slice(&word.to_le_bytes())?;
    }
    Ok(())
}

// The op, its three fields of a byte, and its word.
fn fields(entry: Entry) -> ([u8; 4], u64) {
    match entry {
        Entry::Carry { rule } => ([0, rule, 0, 0], 0),
        Entry::Product { first, second } => ([1, first, second, 0], 0),
        Entry::Either { first, second } => ([2, first, second, 0], 0),
        Entry::Selection {
            rule,
            left,
            right,
            width,
        } => ([3, rule, left, right], u64::from(width)),
        Entry::Projection { rule, hidden } => ([4, rule, 0, 0], hidden),
        Entry::Complement { rule } => ([5, rule, 0, 0], 0),
        Entry::None => ([6, 0, 0, 0], 0),
    }
}

// A count that is known to be small.
fn byte_count(count: usize) -> u8 {
    u8::try_from(count).unwrap_or(u8::MAX)
}
