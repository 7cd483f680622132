// Opening an enquiry on a file that has to be accepted.
use crate::buyer::Settled;
use crate::differs::{Shown, Stop, differs};
use calls::Reply;
use file_enquiry::{FileEnquiry, FileSpace, open_file};
use std::alloc::Global;

/// An enquiry that was just opened, with these settlements.
pub(crate) fn fresh<'a>(
    heap: Global,
    bytes: &'a [u8],
    settled: &[Settled],
) -> Result<FileEnquiry<'a>, Stop> {
    match open_file(FileSpace::reserve(heap)?, bytes) {
        Ok(enquiry) => settled_alike(heap, enquiry, settled),
        Err(fault) => differs(heap, "an accepted file", fault),
    }
}

fn settled_alike<'a>(
    heap: Global,
    enquiry: FileEnquiry<'a>,
    settled: &[Settled],
) -> Result<FileEnquiry<'a>, Stop> {
    let mut enquiry = enquiry;
    for settlement in settled {
        let done = enquiry.settle(u32::from(settlement.option), settlement.value);
        if let Err(refusal) = done {
            let found = Shown(Reply::Refused(refusal));
            return differs(heap, "settled in a fresh enquiry", found);
        }
    }
    Ok(enquiry)
}
