// Table sheets and clause sheets as rules. Uses `assignment`, `ruleset`, `ruleformat`, `refusals` and `sheets`.
#![tactic(auto)]

mod clause;
mod common;
mod known;
mod laws;
mod rule;
mod rules;
mod table;

pub use laws::sheet_laws;
pub use rule::SheetRule;
pub use rules::{ClauseSheets, SheetRules, TableSheets};
