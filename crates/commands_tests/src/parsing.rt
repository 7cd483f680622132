// Lines that are commands, and lines that are none.
use crate::expect::expect_same;
use calls::{Call, CallRefusal};
use commands::parse_command;
use std::test::Fail;

// The line orders the call.
fn expect_call(line: &str, call: Call) -> Result<(), Fail> {
    expect_same(parse_command(line.as_bytes()), Ok(call), line)
}

// The bytes are no command.
fn expect_none(about: &str, line: &[u8]) -> Result<(), Fail> {
    expect_same(parse_command(line), Err(CallRefusal::NoCommand), about)
}

// None of the lines is a command.
fn expect_none_of(lines: &[&str]) -> Result<(), Fail> {
    for line in lines {
        expect_none(line, line.as_bytes())?;
    }
    Ok(())
}

// None of the lines, each behind what it is about, is a command.
fn expect_none_of_bytes(lines: &[(&str, &[u8])]) -> Result<(), Fail> {
    for (about, line) in lines {
        expect_none(about, line)?;
    }
    Ok(())
}

// Lines that settle, with the option and the value.
const SETTLES: [(&str, u32, bool); 11] = [
    ("settle 0 no", 0, false),
    ("settle 63 no", 63, false),
    ("settle 4294967295 no", 4294967295, false),
    ("settle 0 yes", 0, true),
    ("settle 1 yes", 1, true),
    ("settle 9 yes", 9, true),
    ("settle 10 yes", 10, true),
    ("settle 64 yes", 64, true),
    ("settle 1000000000 yes", 1000000000, true),
    ("settle 1234567890 yes", 1234567890, true),
    ("settle 4294967295 yes", 4294967295, true),
];

#[test]
fn settle() -> Result<(), Fail> {
    for (line, option, value) in &SETTLES {
        let call = Call::Settle {
            option: *option,
            value: *value,
        };
        expect_call(line, call)?;
    }
    Ok(())
}

// The other commands, with their calls.
const OTHERS: [(&str, Call); 11] = [
    ("back", Call::Back),
    ("again", Call::Again),
    ("look", Call::Look),
    ("next 0", Call::Next { budget: 0 }),
    ("next 1", Call::Next { budget: 1 }),
    ("next 9", Call::Next { budget: 9 }),
    ("next 10", Call::Next { budget: 10 }),
    ("next 64", Call::Next { budget: 64 }),
    ("next 1000000000", Call::Next { budget: 1000000000 }),
    ("next 1234567890", Call::Next { budget: 1234567890 }),
    ("next 4294967295", Call::Next { budget: 4294967295 }),
];

#[test]
fn other_commands() -> Result<(), Fail> {
    for (line, call) in &OTHERS {
        expect_call(line, *call)?;
    }
    Ok(())
}

#[test]
fn other_words() -> Result<(), Fail> {
    expect_none_of(&[
        "",
        "Back",
        "LOOK",
        "aGain",
        "Settle 0 yes",
        "settle 0 Yes",
        "settle 0 NO",
        "NEXT 1",
        "bac",
        "backs",
        "ack",
        "agai",
        "againn",
        "loo",
        "lookk",
        "nex 1",
        "nextt 1",
        "settl 1 yes",
        "settles 1 yes",
        "settle 1 ye",
        "settle 1 yess",
        "settle 1 n",
        "settle 1 not",
        "settle 1 maybe",
        "settle 99 maybe",
        "settle 1 y",
        "settle 1 true",
        "end",
        "ok",
        "options 4",
        "0",
        "1 yes",
        "yes",
    ])
}

#[test]
fn words_too_many_or_too_few() -> Result<(), Fail> {
    expect_none_of(&[
        "settle",
        "settle 1",
        "settle yes",
        "settle yes 1",
        "settle 1 2",
        "settle 1 2 yes",
        "settle 1 yes no",
        "settle 1 yes yes",
        "1 settle yes",
        "next",
        "next yes",
        "next 1 2",
        "next 1 yes",
        "next next 1",
        "1 next",
        "back 1",
        "back back",
        "again 0",
        "look 1",
        "look again",
    ])
}

#[test]
fn spaces() -> Result<(), Fail> {
    expect_none_of(&[
        " ",
        " back",
        "back ",
        " settle 1 yes",
        "settle 1 yes ",
        "settle  1 yes",
        "settle 1  yes",
        "settle  yes",
        "settle 1yes",
        "settle1 yes",
        "settle ",
        "settle 1 ",
        " next 1",
        "next 1 ",
        "next  1",
        "next ",
        "next1",
        "lo ok",
    ])
}

#[test]
fn tabs_ends_and_zeros() -> Result<(), Fail> {
    expect_none_of(&[
        "\tback",
        "back\t",
        "next\t1",
        "settle\t1 yes",
        "settle 1\tyes",
        "back\r",
        "next 1\r",
        "settle 1 yes\r",
        "\r",
        "\rback",
        "back\n",
        "\nback",
        "next 1\n",
        "back\nback",
        "back\0",
        "\0back",
        "next 1\0",
        "next \0",
        "settle 1\0 yes",
        "settle 1 yes\0",
        "\0",
        "look\u{b}",
        "look\u{c}",
        "look\u{a0}",
    ])
}

#[test]
fn numbers() -> Result<(), Fail> {
    expect_none_of(&[
        "settle 01 yes",
        "settle 00 no",
        "settle +1 yes",
        "settle -1 yes",
        "settle -0 no",
        "settle 4294967296 no",
        "settle 99999999999999999999 yes",
        "settle 1x yes",
        "settle x yes",
        "settle 0x1 yes",
        "settle 1.0 yes",
        "next 00",
        "next 01",
        "next 0000000001",
        "next +1",
        "next -1",
        "next -0",
        "next 4294967296",
        "next 4294967300",
        "next 9999999999",
        "next 10000000000",
        "next 18446744073709551616",
        "next 18446744073709551617",
        "next 99999999999999999999",
        "next 1_000",
        "next 1,000",
        "next 1e3",
        "next 1a",
        "next a1",
        "next 1/",
        "next 1:",
        "next /",
        "next :",
        "next \u{661}",
        "next 1\u{b2}",
        "next \u{ff11}",
        "settle \u{966} yes",
    ])
}

#[test]
fn no_text() -> Result<(), Fail> {
    expect_none_of_bytes(&[
        ("byte FF", b"\xFF"),
        ("FF before", b"\xFFback"),
        ("FF after", b"back\xFF"),
        ("FF in a number", b"next 1\xFF"),
        ("FF for a number", b"settle \xFF yes"),
        ("half a letter", b"look\xC3"),
        ("a digit with its high bit set", b"next \xB1"),
        ("a letter with its high bit set", b"bac\xEB"),
        ("a space with its high bit set", b"next\xA01"),
    ])
}

const LONG_LINES: [(&str, &[u8]); 6] = [
    ("22 bytes", b"settle 42949672950 yes"),
    ("22 bytes, the last a space", b"settle 4294967295 yes "),
    (
        "22 bytes, the last one more letter",
        b"settle 4294967295 yess",
    ),
    ("1000 letters", &[b'x'; 1000]),
    ("1000 spaces", &[b' '; 1000]),
    ("1000 zeros", &[b'0'; 1000]),
];

#[test]
fn long_lines() -> Result<(), Fail> {
    expect_none_of_bytes(&LONG_LINES)?;
    let mut line = [b'0'; 1000];
    let (front, _) = line.split_at_mut(5);
    front.copy_from_slice(b"next ");
    expect_none("next and 995 zeros", &line)
}
