// What is answered.
use crate::refusal::CallRefusal;
use assignment::Assignment;
use listing::Progress;

/// A settle, a back and an again are done or refused. A look answers what is known, or that no build is left; a next, what
/// the listing came to.
#[derive(Clone, Copy)]
pub enum Reply {
    Done,
    Refused(CallRefusal),
    Known(Assignment),
    Dead,
    Listed(Progress),
}
