// A buyer's settlements, and what the words promise the buyer. It goes by builds alone.
use crate::contents::Start;
use crate::masks::{first, has, one};
use calls::CallRefusal;
use std::alloc::{AllocError, Global};

/// The settlements that stand, the builds that a file offers, and those of them that are still to be looked through for
/// the listing.
#[derive(Drop)]
pub(crate) struct Buyer<'a> {
    start: Start,
    settled: Vec<Settled>,
    yes: u64,
    no: u64,
    offered: &'a [u64],
    rest: &'a [u64],
    last: Option<u64>,
}

#[derive(Clone, Copy)]
pub(crate) struct Settled {
    pub(crate) option: u8,
    pub(crate) value: bool,
}

impl<'a> Buyer<'a> {
    pub(crate) fn new(heap: Global, start: Start, offered: &'a [u64]) -> Buyer<'a> {
        Buyer {
            start,
            settled: Vec::new(heap),
            yes: start.yes,
            no: start.no | !first(start.options),
            offered,
            rest: offered,
            last: None,
        }
    }

    /// Refused where the option is not there, or where the start or a settlement fixes it.
    pub(crate) fn settle(
        &mut self,
        option: u32,
        value: bool,
    ) -> Result<Result<(), CallRefusal>, AllocError> {
        let option = u8::try_from(option).unwrap_or(u8::MAX);
        if option >= self.start.options {
            return Ok(Err(CallRefusal::NoOption));
        }
        if has(self.yes | self.no, option) {
            return Ok(Err(CallRefusal::Fixed));
        }
        self.settled.push(Settled { option, value })?;
        if value {
            self.yes |= one(option);
        } else {
            self.no |= one(option);
        }
        self.begin();
        Ok(Ok(()))
    }

    /// The newest settlement falls.
    pub(crate) fn back(&mut self) -> Result<(), CallRefusal> {
        let Some(newest) = self.settled.pop() else {
            return Err(CallRefusal::NothingSettled);
        };
        self.yes &= !one(newest.option);
        self.no &= !one(newest.option);
        self.begin();
        Ok(())
    }

    /// The listing begins anew.
    pub(crate) fn begin(&mut self) {
        self.rest = self.offered;
        self.last = None;
    }

    /// The build that comes next in the listing.
    pub(crate) fn upcoming(&self) -> Option<u64> {
        self.rest.iter().copied().find(|build| self.fits(*build))
    }

    /// The next build has been given.
    pub(crate) fn give(&mut self) {
        let Some(place) = self.rest.iter().position(|build| self.fits(*build)) else {
            return;
        };
        self.last = self.rest.get(place).copied();
        self.rest = self.rest.get(place.saturating_add(1)..).unwrap_or(&[]);
    }

    /// The build given last since the listing began.
    pub(crate) fn last(&self) -> Option<u64> {
        self.last
    }

    pub(crate) fn settled(&self) -> &[Settled] {
        self.settled.as_slice()
    }

    /// Whether a look may say that no build is left.
    pub(crate) fn is_out_of_builds(&self) -> bool {
        !self.offered.iter().any(|build| self.fits(*build))
    }

    /// Whether a look may say that this is known: it keeps what is settled, each build that fits agrees with it, and
    /// if it leaves nothing open it is a build that fits.
    pub(crate) fn may_know(&self, yes: u64, no: u64) -> bool {
        let consistent = (yes & no) == 0;
        let kept = (self.yes & !yes) == 0 && (self.no & !no) == 0;
        let agreed = self
            .offered
            .iter()
            .all(|build| !self.fits(*build) || has_values(*build, yes, no));
        let open = (yes | no) != u64::MAX;
        consistent && kept && agreed && (open || self.offered.contains(&yes))
    }

    fn fits(&self, build: u64) -> bool {
        has_values(build, self.yes, self.no)
    }
}

fn has_values(build: u64, yes: u64, no: u64) -> bool {
    (build & yes) == yes && (build & no) == 0
}
