// Calls, made pseudo-randomly.
use crate::builds::free_mask;
use crate::contents::Start;
use crate::masks::has;
use crate::random::Random;
use calls::Call;

pub(crate) fn make_call(random: &mut Random, start: Start) -> Call {
    match random.below(100) {
        0..=34 => {
            let option = make_option(random, start);
            let value = random.chance(50);
            Call::Settle { option, value }
        }
        35..=49 => Call::Back,
        50..=56 => Call::Again,
        57..=69 => Call::Look,
        _ => make_next(random),
    }
}

/// A next with a portion of any size.
pub(crate) fn make_next(random: &mut Random) -> Call {
    let budget = match random.below(10) {
        0 => 0,
        1..=5 => random.below(4).wrapping_add(1),
        6..=8 => random.below(100),
        _ => u32::MAX,
    };
    Call::Next { budget }
}

// Mostly an option that the start leaves open, sometimes one that is not there.
fn make_option(random: &mut Random, start: Start) -> u32 {
    let options = start.options;
    match random.below(20) {
        0..=14 => {
            let from = random.byte_below(options);
            u32::from(open_from(start, from))
        }
        15..=17 => u32::from(random.byte_below(options)),
        18 => u32::from(options).wrapping_add(random.below(4)),
        _ => random.below(u32::MAX),
    }
}

// The first option at or after another, going round, that the start leaves open; that one if it leaves none open.
fn open_from(start: Start, from: u8) -> u8 {
    let free = free_mask(start);
    (from..64)
        .chain(0..from)
        .find(|option| has(free, *option))
        .unwrap_or(from)
}
