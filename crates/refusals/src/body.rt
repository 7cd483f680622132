// The body of a record, which is a part of the file.
ghost use Rattle.std.specs.Prelude.{◌≡◌};

use crate::fault::RecordFault;
use crate::refusal::Refusal;

/// The bytes of a record's body, and the byte of the file at which the record begins.
#[derive(Clone, Copy, Debug)]
pub struct Body<'a> {
    pub bytes: &'a [u8],
    pub place: usize,
}

impl Body<'_> {
    /// The record's fault, for this reason.
    pub fn fault(self, refusal: Refusal) -> RecordFault
        ensures refusal { result.refusal ≡ refusal }
        ensures place { result.place ≡ self.entry.place }
    {
        RecordFault {
            refusal,
            place: self.place,
        }
    }
}
