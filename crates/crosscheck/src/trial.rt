// One file tried: what its enquiry answers is held against what the words promise.
use crate::buyer::Buyer;
use crate::contents::Start;
use crate::differs::{Shown, Stop, differs};
use crate::opening::fresh;
use crate::tally::Tally;
use calls::{Call, CallRefusal, Reply};
use file_enquiry::FileEnquiry;
use listing::Progress;
use std::alloc::Global;

/// An enquiry, the buyer who calls it, and its twin: an enquiry that was opened on the same bytes when the listing
/// began and settled alike, and that never stops. `choices` counts the choices since the last build.
#[derive(Drop)]
pub(crate) struct Trial<'a> {
    heap: Global,
    bytes: &'a [u8],
    buyer: Buyer<'a>,
    enquiry: FileEnquiry<'a>,
    twin: FileEnquiry<'a>,
    choices: u32,
    ended: bool,
}

impl<'a> Trial<'a> {
    pub(crate) fn open(
        heap: Global,
        bytes: &'a [u8],
        start: Start,
        offered: &'a [u64],
    ) -> Result<Trial<'a>, Stop> {
        Ok(Trial {
            heap,
            bytes,
            buyer: Buyer::new(heap, start, offered),
            enquiry: fresh(heap, bytes, &[])?,
            twin: fresh(heap, bytes, &[])?,
            choices: 0,
            ended: false,
        })
    }

    /// Whether the listing has come to its end.
    pub(crate) fn has_ended(&self) -> bool {
        self.ended
    }

    /// How many settlements stand.
    pub(crate) fn settlements(&self) -> usize {
        self.buyer.settled().len()
    }

    /// Sends a call, counts it and judges its reply.
    pub(crate) fn send(&mut self, call: Call, counts: &mut Tally) -> Result<(), Stop> {
        let reply = self.enquiry.answer(call);
        counts.add_call();
        if let Reply::Listed(Progress::Built { .. }) = reply {
            counts.add_build();
        }
        match call {
            Call::Settle { option, value } => {
                let expected = self.buyer.settle(option, value)?;
                self.judge_done(expected, reply)
            }
            Call::Back => {
                let expected = self.buyer.back();
                self.judge_done(expected, reply)
            }
            Call::Again => {
                self.buyer.begin();
                self.judge_done(Ok(()), reply)
            }
            Call::Look => self.judge_look(reply),
            Call::Next { budget } => match reply {
                Reply::Listed(progress) => self.judge_listed(budget, progress),
                _ => differs(self.heap, "a listing", Shown(reply)),
            },
        }
    }

    fn judge_done(&mut self, expected: Result<(), CallRefusal>, reply: Reply) -> Result<(), Stop> {
        match (expected, reply) {
            (Ok(()), Reply::Done) => self.begin(),
            (Ok(()), _) => differs(self.heap, "done", Shown(reply)),
            (Err(refusal), Reply::Refused(found)) if found == refusal => Ok(()),
            (Err(refusal), _) => {
                let expected = Shown(Reply::Refused(refusal));
                differs(self.heap, expected, Shown(reply))
            }
        }
    }

    // A listing has begun.
    fn begin(&mut self) -> Result<(), Stop> {
        self.twin = fresh(self.heap, self.bytes, self.buyer.settled())?;
        self.choices = 0;
        self.ended = false;
        Ok(())
    }

    // The twin has to answer the same, whatever was called here before.
    fn judge_look(&mut self, reply: Reply) -> Result<(), Stop> {
        let twin = self.twin.answer(Call::Look);
        let promised = match reply {
            Reply::Dead => self.buyer.is_out_of_builds(),
            Reply::Known(known) => self.buyer.may_know(known.yes_mask(), known.no_mask()),
            _ => false,
        };
        if promised && known_masks(reply) == known_masks(twin) {
            return Ok(());
        }
        let fresh = Shown(twin);
        let expected = format_args!("a look true of the builds, as the fresh {fresh}");
        differs(self.heap, expected, Shown(reply))
    }

    fn judge_listed(&mut self, budget: u32, progress: Progress) -> Result<(), Stop> {
        if !self.may_come_to(budget, progress) {
            let upcoming = self.buyer.upcoming();
            let expected = format_args!("{upcoming:?} next, or a stop at {budget}");
            return differs(self.heap, expected, format_args!("{progress:?}"));
        }
        match progress {
            Progress::Stopped { opened } => {
                self.choices = self.choices.saturating_add(opened);
                Ok(())
            }
            Progress::Built { build, opened } => {
                self.buyer.give();
                let opened = self.choices.saturating_add(opened);
                self.judge_choices(Progress::Built { build, opened })
            }
            Progress::End { opened } => {
                self.ended = true;
                let opened = self.choices.saturating_add(opened);
                self.judge_choices(Progress::End { opened })
            }
        }
    }

    // Whether a portion may come to this: the next build, the end where there is none, or a stop with the portion used
    // up.
    fn may_come_to(&self, budget: u32, progress: Progress) -> bool {
        let upcoming = self.buyer.upcoming();
        match progress {
            Progress::Stopped { opened } => opened == budget && !self.ended,
            Progress::Built { build, opened } => opened <= budget && upcoming == Some(build.yes),
            Progress::End { opened } => opened <= budget && upcoming.is_none(),
        }
    }

    // What the portions come to together has to be what the twin comes to at once.
    fn judge_choices(&mut self, together: Progress) -> Result<(), Stop> {
        self.choices = 0;
        let at_once = self.twin.next(u32::MAX);
        if at_once == together {
            return Ok(());
        }
        let expected = format_args!("{at_once:?} as at once");
        differs(
            self.heap,
            expected,
            format_args!("{together:?} in portions"),
        )
    }

    /// Closes the enquiry, which gives the last build that was listed.
    pub(crate) fn close(self) -> Result<(), Stop> {
        let expected = self.buyer.last();
        let heap = self.heap;
        let last = self.enquiry.close().last;
        judge_last(heap, expected, last.map(|build| build.yes))
    }
}

fn judge_last(heap: Global, expected: Option<u64>, last: Option<u64>) -> Result<(), Stop> {
    if last == expected {
        return Ok(());
    }
    let expected = format_args!("{expected:?} as the last build");
    differs(heap, expected, format_args!("{last:?}"))
}

// The masks of what is known; nothing where no build is left.
fn known_masks(look: Reply) -> Option<(u64, u64)> {
    match look {
        Reply::Known(known) => Some((known.yes_mask(), known.no_mask())),
        _ => None,
    }
}
