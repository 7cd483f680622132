// Choices that leave most files some builds.
use crate::builds::free_mask;
use crate::contents::Start;
use crate::masks::{first, has, one};
use crate::random::Random;

/// The start of a file, and a build of it that most of the sheets allow.
#[derive(Clone, Copy)]
pub(crate) struct Theme {
    pub(crate) start: Start,
    pub(crate) sample: u64,
    free: u64,
}

impl Theme {
    pub(crate) fn new(random: &mut Random, start: Start) -> Theme {
        let free = free_mask(start);
        Theme {
            start,
            sample: start.yes | (random.word() & free),
            free,
        }
    }

    /// An option, mostly one that the start leaves open.
    pub(crate) fn option(&self, random: &mut Random) -> u8 {
        if random.chance(75) {
            if let Some(option) = pick(random, self.free) {
                return option;
            }
        }
        random.byte_below(self.start.options)
    }

    /// A mask of so many options, or fewer where one was chosen twice.
    pub(crate) fn options(&self, random: &mut Random, count: u32) -> u64 {
        let mut mask = 0;
        for _ in 0..count {
            mask |= one(self.option(random));
        }
        mask
    }

    /// A build, mostly one that has the start's values.
    pub(crate) fn build(&self, random: &mut Random) -> u64 {
        let word = random.word();
        if random.chance(85) {
            self.start.yes | (word & self.free)
        } else {
            word & first(self.start.options)
        }
    }
}

// An option of a mask.
fn pick(random: &mut Random, mask: u64) -> Option<u8> {
    let mut before = random.below(mask.count_ones());
    for option in 0..64u8 {
        if has(mask, option) {
            if before == 0 {
                return Some(option);
            }
            before = before.saturating_sub(1);
        }
    }
    None
}
