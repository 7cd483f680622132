// One file from its number to its closing: calls of all kinds, a listing to its end, and sometimes calls after it.
use crate::builds::offered;
use crate::bytes::encode;
use crate::calling::{make_call, make_next};
use crate::contents::{Contents, Start};
use crate::differs::{Stop, differs};
use crate::generate::generate;
use crate::random::Random;
use crate::tally::Tally;
use crate::trial::Trial;
use calls::Call;
use std::alloc::Global;

const FEWEST_CALLS: u32 = 8;

const MORE_CALLS: u32 = 25;

const MOST_NEXTS: u32 = 100_000;

pub(crate) fn try_file(heap: Global, number: u64, counts: &mut Tally) -> Result<(), Stop> {
    let mut random = Random::new(number);
    let contents = generate(heap, &mut random)?;
    try_contents(heap, &mut random, &contents, counts)
}

fn try_contents(
    heap: Global,
    random: &mut Random,
    contents: &Contents,
    counts: &mut Tally,
) -> Result<(), Stop> {
    let bytes = encode(heap, contents)?;
    let builds = offered(heap, contents)?;
    counts.add_file(builds.len());
    let mut trial = Trial::open(heap, &bytes, contents.start, &builds)?;
    call_and_list(heap, random, &mut trial, contents.start, counts)?;
    trial.close()
}

// All calls of one trial.
fn call_and_list(
    heap: Global,
    random: &mut Random,
    trial: &mut Trial,
    start: Start,
    counts: &mut Tally,
) -> Result<(), Stop> {
    call_around(random, trial, start, counts)?;
    if random.chance(50) {
        take_all_back(trial, counts)?;
    }
    list_to_end(heap, random, trial, counts)?;
    if random.chance(30) {
        call_around(random, trial, start, counts)?;
    }
    Ok(())
}

// Calls of all kinds.
fn call_around(
    random: &mut Random,
    trial: &mut Trial,
    start: Start,
    counts: &mut Tally,
) -> Result<(), Stop> {
    let count = random.below(MORE_CALLS).wrapping_add(FEWEST_CALLS);
    for _ in 0..count {
        trial.send(make_call(random, start), counts)?;
    }
    Ok(())
}

// Until no settlement stands.
fn take_all_back(trial: &mut Trial, counts: &mut Tally) -> Result<(), Stop> {
    for _ in 0..trial.settlements() {
        trial.send(Call::Back, counts)?;
    }
    Ok(())
}

// The listing to its end, and once beyond.
fn list_to_end(
    heap: Global,
    random: &mut Random,
    trial: &mut Trial,
    counts: &mut Tally,
) -> Result<(), Stop> {
    for _ in 0..MOST_NEXTS {
        let ended = trial.has_ended();
        trial.send(make_next(random), counts)?;
        if ended {
            return Ok(());
        }
    }
    let found = format_args!("none after {MOST_NEXTS} calls");
    differs(heap, "an end of the listing", found)
}
