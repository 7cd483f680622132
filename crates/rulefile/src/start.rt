// The start record: how many options there are, and what is known of them from the outset.
ghost use Rattle.std.specs.Prelude.{◌≡◌, length};
ghost use Rattle.refusals.specs.Checks.{judged, seen};
ghost use Rattle.ruleformat.specs.Starts.{start_checks, yes_mask, no_mask};
ghost use Rattle.rulefile.specs.Views.{start_view, start_in};

use crate::bytes::read_u64;
use assignment::{Assignment, has_bit_from};
use refusals::{Body, FileFault, Refusal};

const START_SIZE: usize = 17;

const MAX_OPTIONS: u8 = 64;

#[derive(Clone, Copy)]
pub(crate) struct Start {
    pub options: u32,
    pub known: Assignment,
}

// The start that a body holds, or why it is refused.
#[tactic(auto, unfolding(assignment::specs::Lattice::inconsistent))]
pub(crate) fn read_start(body: Body<'_>) -> Result<Start, FileFault>
    ensures { seen start_view result ≡ judged (start_checks body.entry.place body.entry.bytes.now) (start_in body.entry.bytes.now) }
{
    let Body { bytes, place } = body;
    let fault = |refusal| FileFault::Start { refusal, place };
    if bytes.len() != START_SIZE {
        return Err(FileFault::Record(body.fault(Refusal::Unfit)));
    }
    let options = bytes[0];
    if options == 0 {
        return Err(fault(Refusal::OutOfRange));
    }
    if options > MAX_OPTIONS {
        return Err(fault(Refusal::OutOfRange));
    }
    let options = u32::from(options);
    let known = read_known(bytes);
    if has_bit_from(known.yes_mask(), options) {
        return Err(fault(Refusal::BeyondOptions));
    }
    if has_bit_from(known.no_mask(), options) {
        return Err(fault(Refusal::BeyondOptions));
    }
    if known.is_inconsistent() {
        return Err(fault(Refusal::Conflict));
    }
    Ok(Start { options, known })
}

// What the two masks behind the number of options say.
fn read_known(bytes: &[u8]) -> Assignment
    requires { length bytes.now ≡ 17 }
    ensures yes { result.yes ≡ yes_mask bytes.now }
    ensures no { result.no ≡ no_mask bytes.now }
{
    Assignment::new(read_u64(&bytes[1..9]), read_u64(&bytes[9..]))
}
