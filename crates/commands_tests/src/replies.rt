// The lines of the replies, as text.
use crate::expect::expect_same;
use assignment::Assignment;
use calls::{CallRefusal, Reply};
use commands::{LINE, write_letters, write_options, write_refused, write_reply};
use listing::{Build, Progress};
use std::test::Fail;

// What is in each byte of a buffer before a line is written.
const BEFORE: u8 = b'#';

// What is known of 64 options if it is nothing, a build of 64 options, and the letters of 64 that are yes.
const NOTHING: &str = "known ????????????????????????????????????????????????????????????????";

const BUILD: &str =
    "build ynnnnnnnnnnnnnnnnnnnnnnnnnnnnnnyynnnnnnnnnnnnnnnnnnnnnnnnnnnnnny 4294967295";

const YES: &str = "yyyyyyyyyyyyyyyyyyyyyyyyyyyyyyyyyyyyyyyyyyyyyyyyyyyyyyyyyyyyyyyy";

// The words of the line in the first bytes of the buffer, if it has an end and the bytes behind it are as they were.
fn words_of(buffer: &[u8; LINE], count: usize) -> Option<&[u8]> {
    let (line, behind) = buffer.split_at_checked(count)?;
    for byte in behind {
        if *byte != BEFORE {
            return None;
        }
    }
    line.strip_suffix(b"\n")
}

fn expect_line(buffer: &[u8; LINE], count: usize, words: &str) -> Result<(), Fail> {
    expect_same(words_of(buffer, count), Some(words.as_bytes()), words)
}

fn expect_reply(reply: Reply, options: u32, words: &str) -> Result<(), Fail> {
    let mut buffer = [BEFORE; LINE];
    let count = write_reply(reply, options, &mut buffer);
    expect_line(&buffer, count, words)
}

#[test]
fn done_and_dead() -> Result<(), Fail> {
    for options in &[0, 1, 64, 4294967295] {
        expect_reply(Reply::Done, *options, "ok")?;
        expect_reply(Reply::Dead, *options, "dead")?;
    }
    Ok(())
}

const REFUSED: [(CallRefusal, &str); 4] = [
    (CallRefusal::NoOption, "refused 21"),
    (CallRefusal::Fixed, "refused 22"),
    (CallRefusal::NothingSettled, "refused 23"),
    (CallRefusal::NoCommand, "refused 24"),
];

#[test]
fn refused() -> Result<(), Fail> {
    for (refusal, words) in &REFUSED {
        expect_reply(Reply::Refused(*refusal), 4, words)?;
        let mut buffer = [BEFORE; LINE];
        let count = write_refused(*refusal, &mut buffer);
        expect_line(&buffer, count, words)?;
    }
    Ok(())
}

// The masks of what is known, how many options there are, and the line.
const KNOWN: [(u64, u64, u32, &str); 12] = [
    (0, 0, 1, "known ?"),
    (1, 0, 1, "known y"),
    (0, 1, 1, "known n"),
    (0, 0, 4, "known ????"),
    (0x8, 0x7, 4, "known nnny"),
    (0x1, 0x4, 4, "known y?n?"),
    (0xFFFF_FFFF_FFFF_FFF0, 0, 4, "known ????"),
    (0x2, 0, 0, "known "),
    (0, 0, 64, NOTHING),
    (0, 0, 65, NOTHING),
    (0, 0, 4294967295, NOTHING),
    (
        0x8000_0000_0000_0001,
        0x4000_0001_8000_0002,
        64,
        "known yn?????????????????????????????nn?????????????????????????????ny",
    ),
];

#[test]
fn known() -> Result<(), Fail> {
    for (yes, no, options, words) in &KNOWN {
        expect_reply(Reply::Known(Assignment::new(*yes, *no)), *options, words)?;
    }
    Ok(())
}

// A build, how many forks were opened, how many options there are, and the line.
const BUILDS: [(u64, u32, u32, &str); 10] = [
    (0xF, 1, 4, "build yyyy 1"),
    (0x8, 0, 4, "build nnny 0"),
    (0x5, 305, 4, "build ynyn 305"),
    (0xF0, 2, 4, "build nnnn 2"),
    (1, 4294967295, 1, "build y 4294967295"),
    (0, 10, 1, "build n 10"),
    (1, 3, 0, "build  3"),
    (0x8000_0001_8000_0001, 4294967295, 64, BUILD),
    (0x8000_0001_8000_0001, 4294967295, 65, BUILD),
    (0x8000_0001_8000_0001, 4294967295, 4294967295, BUILD),
];

#[test]
fn builds() -> Result<(), Fail> {
    for (yes, opened, options, words) in &BUILDS {
        let build = Build { yes: *yes };
        let opened = *opened;
        let reply = Reply::Listed(Progress::Built { build, opened });
        expect_reply(reply, *options, words)?;
    }
    Ok(())
}

// How many forks were opened, and the lines of a listing that stopped and of one at its end.
const STOPPED_AND_END: [(u32, &str, &str); 4] = [
    (0, "stopped 0", "end 0"),
    (2, "stopped 2", "end 2"),
    (305, "stopped 305", "end 305"),
    (4294967295, "stopped 4294967295", "end 4294967295"),
];

#[test]
fn stopped_and_end() -> Result<(), Fail> {
    for (opened, stopped, end) in &STOPPED_AND_END {
        let opened = *opened;
        expect_reply(Reply::Listed(Progress::Stopped { opened }), 4, stopped)?;
        expect_reply(Reply::Listed(Progress::End { opened }), 64, end)?;
    }
    Ok(())
}

const OPTIONS: [(u32, &str); 6] = [
    (0, "options 0"),
    (1, "options 1"),
    (4, "options 4"),
    (64, "options 64"),
    (65, "options 65"),
    (4294967295, "options 4294967295"),
];

#[test]
fn options() -> Result<(), Fail> {
    for (options, words) in &OPTIONS {
        let mut buffer = [BEFORE; LINE];
        let count = write_options(*options, &mut buffer);
        expect_line(&buffer, count, words)?;
    }
    Ok(())
}

const LETTERS: [(u64, u32, &str); 10] = [
    (0xF, 4, "yyyy"),
    (0x7, 4, "yyyn"),
    (0xE, 4, "nyyy"),
    (0x8, 4, "nnny"),
    (0xF0, 4, "nnnn"),
    (1, 1, "y"),
    (1, 0, ""),
    (0xFFFF_FFFF_FFFF_FFFF, 64, YES),
    (0xFFFF_FFFF_FFFF_FFFF, 65, YES),
    (0xFFFF_FFFF_FFFF_FFFF, 4294967295, YES),
];

#[test]
fn letters() -> Result<(), Fail> {
    for (yes, options, words) in &LETTERS {
        let mut buffer = [BEFORE; LINE];
        let count = write_letters(Build { yes: *yes }, *options, &mut buffer);
        expect_line(&buffer, count, words)?;
    }
    Ok(())
}

// A short line over a longer one leaves the rest of that as it was.
#[test]
fn a_line_over_another() -> Result<(), Fail> {
    let mut buffer = [BEFORE; LINE];
    let first = write_options(4294967295, &mut buffer);
    let second = write_reply(Reply::Done, 64, &mut buffer);
    expect_same((first, second), (19, 3), "the sizes of both lines")?;
    let both = b"ok\nions 4294967295\n#".as_slice();
    expect_same(buffer.get(..20), Some(both), "both lines")
}
