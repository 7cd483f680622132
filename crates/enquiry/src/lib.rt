// Enquiries: settlements, and the listing of all builds that fit; the laws of any list of calls. Uses `assignment`,
// `refusals`, `ruleset`, `listing`, `calls` and the kit's `arrayvec`.
#![tactic(auto)]

mod budget;
mod event;
mod laws;
mod settlement;
mod state;
mod walk;

pub use laws::run_laws;
pub use settlement::Settlement;
pub use state::{Closed, Enquiry, NotOpened};
