// Sheets, projections over them and whole rule files, as functions that Rust or C can call: the former answer a list of
// questions, and of a file all builds are listed. Uses all the libraries up to `file_enquiry`.
#![tactic(auto)]

mod asking;
mod builds;
mod clauses;
mod failure;
mod hiding;
mod sheet;
mod tables;
mod tally;

pub use builds::list_builds;
pub use clauses::{answer_clauses, answer_clauses_hiding};
pub use tables::{answer_table, answer_table_hiding};
