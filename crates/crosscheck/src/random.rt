// Pseudo-random numbers, the same in every run.

const SPREAD: u64 = 0x9E37_79B9_7F4A_7C15;

const MIX: u64 = 0x2545_F491_4F6C_DD1D;

const WARM_UP: u32 = 4;

/// A shift register; its state is never 0.
#[derive(Drop)]
pub(crate) struct Random {
    state: u64,
}

impl Random {
    pub(crate) fn new(seed: u64) -> Random {
        let state = seed.wrapping_add(1).wrapping_mul(SPREAD) | 1;
        let mut random = Random { state };
        for _ in 0..WARM_UP {
            let _ = random.word();
        }
        random
    }

    /// Any word.
    pub(crate) fn word(&mut self) -> u64 {
        let mut word = self.state;
        word ^= word << 13;
        word ^= word >> 7;
        word ^= word << 17;
        self.state = word;
        word.wrapping_mul(MIX)
    }

    /// A number below the count; 0 where the count is 0.
    pub(crate) fn below(&mut self, count: u32) -> u32 {
        let high = self.word() >> 32;
        let number = high.checked_rem(u64::from(count)).unwrap_or(0);
        u32::try_from(number).unwrap_or(0)
    }

    /// The same as a byte.
    pub(crate) fn byte_below(&mut self, count: u8) -> u8 {
        u8::try_from(self.below(u32::from(count))).unwrap_or(0)
    }

    /// True so many times out of a hundred.
    pub(crate) fn chance(&mut self, percent: u32) -> bool {
        self.below(100) < percent
    }
}
