// What an accepted file or a draft holds, as text.
use assignment::{Assignment, Value};
use entries::Draft;
use rulefile::RuleFile;
use sheets::{Clause, ClauseSheet, TableSheet};
use std::alloc::{AllocError, Global};

// The start and the asked rule, then the tables, the clauses records and the folders, each with a semicolon behind it.
pub(crate) fn write_file(text: &mut String, file: &RuleFile) -> Result<(), AllocError> {
    write_start(text, file)?;
    write_known(text, file.start())?;
    for table in file.tables() {
        write_table(text, table)?;
    }
    for sheet in file.clauses() {
        write_clauses(text, sheet)?;
    }
    write_folders(text, file)
}

// The number of options, the two masks of the start, and the asked rule.
fn write_start(text: &mut String, file: &RuleFile) -> Result<(), AllocError> {
    let options = file.options();
    let yes = file.start().yes_mask();
    let no = file.start().no_mask();
    let asked = file.asked();
    write!(
        text,
        "options {options}, yes {yes:x}, no {no:x}, asked {asked}"
    )
}

// Each option that is known, with its value.
fn write_known(text: &mut String, start: Assignment) -> Result<(), AllocError> {
    for option in 0..64 {
        let value = start.value(option);
        if value != Value::Unknown {
            write!(text, ", {option} {value:?}")?;
        }
    }
    text.push_str("; ")
}

// The columns, and the rows as numbers.
fn write_table(text: &mut String, table: &TableSheet) -> Result<(), AllocError> {
    let columns = table.columns();
    write!(text, "table {columns:?}")?;
    for row in table.rows() {
        write!(text, " {row}")?;
    }
    text.push_str("; ")
}

// The clauses, each with the options that are wanted and whether they are wanted no.
fn write_clauses(text: &mut String, sheet: &ClauseSheet) -> Result<(), AllocError> {
    text.push_str("clauses")?;
    for clause in sheet.clauses() {
        write_clause(text, clause)?;
    }
    text.push_str("; ")
}

fn write_clause(text: &mut String, clause: Clause) -> Result<(), AllocError> {
    text.push_str(" [")?;
    for wanted in clause {
        let value = (wanted.option, wanted.negated);
        write!(text, "{value:?}")?;
    }
    text.push_str("]")
}

// What there is for each folder's number, and for the number past the last.
fn write_folders(text: &mut String, file: &RuleFile) -> Result<(), AllocError> {
    for index in 0..=file.folder_count() {
        let folder = file.folder(index);
        write!(text, "folder {index} {folder:?}; ")?;
    }
    Ok(())
}

// The numbers that a draft was told, and its entries.
pub(crate) fn show_draft(heap: Global, draft: &Draft) -> Result<String, AllocError> {
    let options = draft.options();
    let below = draft.below();
    let entries = draft.entries();
    format!(in heap; "{options} over {below}: {entries:?}")
}
