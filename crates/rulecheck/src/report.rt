// What an accepted rule file holds, in aligned text.
use crate::words::{InWords, Known, Options};
use assignment::Assignment;
use entries::Entry;
use rulefile::RuleFile;
use sheets::{Clause, ClauseSheet, TableSheet};
use std::io;
use std::io::Write;

pub(crate) fn report<W: Write>(out: &mut W, file: &RuleFile) -> io::Result<()> {
    let options = file.options();
    writeln!(out, "options {options}")?;
    write_start(out, file.start())?;
    for (rule, sheet) in file.tables().iter().enumerate() {
        write_table(out, rule, sheet)?;
    }
    let tables = file.tables().len();
    for (index, sheet) in file.clauses().iter().enumerate() {
        write_clauses(out, tables + index, sheet)?;
    }
    for (index, folder) in file.folders().iter().enumerate() {
        writeln!(out, "\nfolder {}", index + 1)?;
        write_entries(out, folder.entries())?;
    }
    let asked = file.asked();
    writeln!(out, "\nasked: rule {asked}")
}

fn write_start<W: Write>(out: &mut W, start: Assignment) -> io::Result<()> {
    let yes = Options(start.yes_mask());
    let no = Options(start.no_mask());
    writeln!(out, "\nstart\n  yes:{yes}\n  no: {no}")
}

fn write_table<W: Write>(out: &mut W, rule: usize, sheet: &TableSheet) -> io::Result<()> {
    writeln!(out, "\nsheet {rule}: table")?;
    let columns = sheet.columns();
    write!(out, "  option")?;
    for column in columns {
        write!(out, "{column:>4}")?;
    }
    writeln!(out)?;
    for (number, row) in sheet.rows().enumerate() {
        write!(out, "  row {number:>3}")?;
        write_row(out, row, columns.len())?;
    }
    Ok(())
}

fn write_row<W: Write>(out: &mut W, row: u16, columns: usize) -> io::Result<()> {
    let mut bits = row;
    for _ in 0..columns {
        let letter = if bits % 2 == 1 { "y" } else { "n" };
        write!(out, "{letter:>4}")?;
        bits /= 2;
    }
    writeln!(out)
}

fn write_clauses<W: Write>(out: &mut W, rule: usize, sheet: &ClauseSheet) -> io::Result<()> {
    writeln!(out, "\nsheet {rule}: clauses")?;
    for (number, clause) in sheet.clauses().enumerate() {
        write!(out, "  clause {number:>3}: ")?;
        write_clause(out, clause)?;
    }
    Ok(())
}

fn write_clause<W: Write>(out: &mut W, clause: Clause) -> io::Result<()> {
    for (index, wanted) in clause.enumerate() {
        let or = if index == 0 { "" } else { " or " };
        let not = if wanted.negated { "not " } else { "" };
        let option = wanted.option;
        write!(out, "{or}{not}{option}")?;
    }
    writeln!(out)
}

fn write_entries<W: Write>(out: &mut W, entries: &[Entry]) -> io::Result<()> {
    for (rule, entry) in entries.iter().enumerate() {
        let indent = if rule < 10 { "   " } else { "  " };
        let entry = InWords(*entry);
        writeln!(out, "{indent}rule {rule}: {entry}")?;
    }
    Ok(())
}

// One line with what a reply knows of each of the file's options.
pub(crate) fn write_reply<W: Write>(
    out: &mut W,
    reply: Assignment,
    options: u32,
) -> io::Result<()> {
    let known = Known { reply, options };
    writeln!(out, "reply to the start:{known}")
}
