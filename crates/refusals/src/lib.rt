// Why something is refused, by number, the faults of a rule file, layer in layer, and the body of a record, at whose
// place a fault is. Uses no other crate.
#![tactic(auto)]

mod body;
mod fault;
mod layer;
mod refusal;

pub use body::Body;
pub use fault::{FileFault, FolderFault, RecordFault, SheetFault};
pub use layer::Layer;
pub use refusal::Refusal;
