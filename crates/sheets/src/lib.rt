// Table sheets and clause sheets over the part of a rule file that is their body. Uses `assignment`, `refusals` and
// `ruleformat`.
#![tactic(auto)]

mod checks;
mod clauses;
mod counted;
mod sheet;
mod table;
mod walk;

pub use clauses::ClauseSheet;
pub use sheet::{Sheet, SheetBody};
pub use table::TableSheet;
pub use walk::{Clause, Clauses, Rows, Wanted};
