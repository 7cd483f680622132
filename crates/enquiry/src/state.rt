// An enquiry: a rule of a rule set is asked for the builds that fit.
ghost use Rattle.std.specs.Prelude.{◌≡◌, ◌≤◌, true, false};
ghost use Rattle.assignment.specs.Lattice.{inconsistent, no_from};
ghost use Rattle.enquiry.specs.Listings.{place_of};
ghost use Rattle.enquiry.specs.Room.{roomy};
ghost use Rattle.enquiry.specs.Settled.{well_settled};

use crate::settlement::Settlement;
use crate::walk::Listing;
use arrayvec::ArrayVec;
use assignment::Assignment;
use listing::Build;

mod answering;
mod asking;
mod opening;
mod running;
mod settling;

pub use opening::{Closed, NotOpened};

const SETTLEMENTS: usize = 64;

/// It takes its rule set over until it is closed, and keeps the settlements that stand, the oldest first, the last build
/// that it has given since its listing began, and where the listing stands.
#[derive(Drop)]
pub struct Enquiry<R> {
    rules: R,
    rule: u32,
    options: u32,
    start: Assignment,
    settlements: ArrayVec<Settlement, SETTLEMENTS>,
    last: Option<Build>,
    listing: Listing,
    ghost few: { options ≤ 64 },
    ghost calm: { inconsistent (no_from options start) ≡ false },
    ghost well: { well_settled (no_from options start) settlements.items ≡ true },
    ghost room: { roomy (place_of listing) ≡ true },
}
