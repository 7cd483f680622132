// Reading a rule file: its records, its contents, and the fault where it is refused. Uses `assignment`, `refusals`,
// `entries`, `ruleformat` and `sheets`.
#![tactic(auto)]

mod bytes;
mod file;
mod folder;
mod kind;
mod reader;
mod record;
mod space;
mod start;

pub use file::{FileParts, RuleFile};
pub use reader::read;
pub use record::{Before, Record, next_record};
pub use space::Space;
