// Folders: sets of rules made of the rules just below, one over the other to any height. Uses `assignment`, `refusals`,
// `entries`, `ruleset` and the kit's `arrayvec`.
#![tactic(auto)]

mod folder;
mod hidden;
mod laws;
mod reply;

pub use folder::Folder;
pub use laws::stack_laws;
