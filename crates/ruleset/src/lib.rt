// Sets of rules: what they promise, and what they make of an assignment. Uses `assignment`.
#![tactic(auto)]

mod closing;
mod rules;
mod search;
mod side_by_side;

pub use closing::{closure, closure_laws};
pub use rules::RuleSet;
pub use search::{finds_build, tree_laws};
pub use side_by_side::{SideBySide, side_by_side_laws};
