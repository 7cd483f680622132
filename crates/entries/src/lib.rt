// Folder entries, and the draft that checks and keeps them. Uses `assignment` and `refusals`.
#![tactic(auto)]

mod draft;
mod entry;
mod fields;
mod known_fields;
mod op;
mod space;

pub use draft::Draft;
pub use entry::Entry;
pub use fields::EntryFields;
pub use op::{Op, UnknownOp};
pub use space::EntrySpace;
