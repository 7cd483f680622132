// Bytes cut into lines, in whatever pieces they come.
use crate::expect::expect_same;
use calls::{Call, CallRefusal};
use commands::Splitter;
use std::alloc::{AllocError, Global};
use std::test::Fail;

type Verdict = Result<Call, CallRefusal>;

const NONE: Verdict = Err(CallRefusal::NoCommand);

const BACK: Verdict = Ok(Call::Back);

const AGAIN: Verdict = Ok(Call::Again);

const LOOK: Verdict = Ok(Call::Look);

// On the longest command, `settle 4294967295 yes`.
const LONGEST: Verdict = Ok(Call::Settle {
    option: 4294967295,
    value: true,
});

// Feeds a piece until it is used up, and keeps the verdicts. No more lines end in it than it has bytes.
fn feed(
    splitter: &mut Splitter,
    piece: &[u8],
    verdicts: &mut Vec<Verdict>,
) -> Result<(), AllocError> {
    let mut rest = piece;
    for _ in piece {
        let Some(verdict) = splitter.next_line(&mut rest) else {
            break;
        };
        verdicts.push(verdict)?;
    }
    Ok(())
}

// Keeps the verdict on a last line without an end.
fn finish(splitter: &mut Splitter, verdicts: &mut Vec<Verdict>) -> Result<(), AllocError> {
    if let Some(verdict) = splitter.finish() {
        verdicts.push(verdict)?;
    }
    Ok(())
}

// The pieces, fed one after the other, get these verdicts.
fn expect_pieces(
    heap: Global,
    pieces: &[&[u8]],
    wanted: &[Verdict],
    case: &str,
) -> Result<(), Fail> {
    let mut splitter = Splitter::new();
    let mut verdicts = Vec::new(heap);
    for piece in pieces {
        feed(&mut splitter, piece, &mut verdicts)?;
    }
    finish(&mut splitter, &mut verdicts)?;
    expect_same(verdicts.as_slice(), wanted, case)
}

// The bytes, fed one by one, get these verdicts.
fn expect_single(heap: Global, text: &[u8], wanted: &[Verdict], case: &str) -> Result<(), Fail> {
    let mut splitter = Splitter::new();
    let mut verdicts = Vec::new(heap);
    for byte in text {
        feed(&mut splitter, &[*byte], &mut verdicts)?;
    }
    finish(&mut splitter, &mut verdicts)?;
    expect_same(verdicts.as_slice(), wanted, case)
}

// The text, cut there, gets these verdicts, with empty pieces around its two pieces too.
fn expect_cut(heap: Global, text: &str, at: usize, wanted: &[Verdict]) -> Result<(), Fail> {
    let (front, back) = text.as_bytes().split_at_checked(at).ok_or("no such place")?;
    expect_pieces(heap, &[front, back], wanted, text)?;
    expect_pieces(heap, &[b"", front, b"", back, b""], wanted, text)
}

// The text gets these verdicts whole, in any two pieces, and byte by byte.
fn expect_cuts(heap: Global, text: &str, wanted: &[Verdict]) -> Result<(), Fail> {
    for at in 0..=text.len() {
        expect_cut(heap, text, at, wanted)?;
    }
    expect_pieces(heap, &[text.as_bytes()], wanted, text)?;
    expect_single(heap, text.as_bytes(), wanted, text)
}

fn expect_all_cuts(heap: Global, cases: &[(&str, &[Verdict])]) -> Result<(), Fail> {
    for (text, wanted) in cases {
        expect_cuts(heap, text, wanted)?;
    }
    Ok(())
}

const MANY_LINES: &str =
    "settle 0 yes\n\nback\nback\r\nlook\nnext 12\nsettle 63 no maybe\nsettle 4294967295 no\nagain";

const ZERO: Verdict = Ok(Call::Settle {
    option: 0,
    value: true,
});

const TWELVE: Verdict = Ok(Call::Next { budget: 12 });

const LAST: Verdict = Ok(Call::Settle {
    option: 4294967295,
    value: false,
});

#[test]
fn any_two_pieces(rt: HostRuntime) -> Result<(), Fail> {
    expect_cuts(
        rt.alloc(),
        MANY_LINES,
        &[ZERO, NONE, BACK, NONE, LOOK, TWELVE, NONE, LAST, AGAIN],
    )
}

const ENDS_AND_EMPTY_LINES: [(&str, &[Verdict]); 13] = [
    ("", &[]),
    ("\n", &[NONE]),
    ("\n\n\n", &[NONE, NONE, NONE]),
    ("look", &[LOOK]),
    ("look\n", &[LOOK]),
    ("look\n\n", &[LOOK, NONE]),
    ("\nlook", &[NONE, LOOK]),
    ("back\nlook\nagain\n", &[BACK, LOOK, AGAIN]),
    ("back\nloo", &[BACK, NONE]),
    ("look ", &[NONE]),
    ("look\r\nback\r", &[NONE, NONE]),
    ("\r\nlook\rback\nlook", &[NONE, NONE, LOOK]),
    ("look\0\nback", &[NONE, BACK]),
];

#[test]
fn ends_and_empty_lines(rt: HostRuntime) -> Result<(), Fail> {
    expect_all_cuts(rt.alloc(), &ENDS_AND_EMPTY_LINES)
}

const ABOUT_THE_LONGEST: [(&str, &[Verdict]); 7] = [
    ("settle 4294967295 yes\nback", &[LONGEST, BACK]),
    ("back\nsettle 4294967295 yes", &[BACK, LONGEST]),
    ("settle 4294967295 yes \nback", &[NONE, BACK]),
    ("settle 4294967295 yess\nback", &[NONE, BACK]),
    (
        "settle 4294967295 yes  \nsettle 4294967295 yes",
        &[NONE, LONGEST],
    ),
    ("backbackbackbackback.back\nback", &[NONE, BACK]),
    (
        "settle 4294967295 yessettle 4294967295 yes\nlook",
        &[NONE, LOOK],
    ),
];

#[test]
fn about_the_longest(rt: HostRuntime) -> Result<(), Fail> {
    expect_all_cuts(rt.alloc(), &ABOUT_THE_LONGEST)
}

// A verdict of a call, and the bytes that it leaves.
type Outcome = (Option<Verdict>, &'static str);

// What is done with a splitter, and what comes of it.
enum Step {
    // Calls with a piece, each with what the one before it left.
    Piece(&'static [u8], &'static [Outcome]),
    // So many pieces of 1024 letters, which get no verdict.
    Letters(u32),
    Finish(Option<Verdict>),
}

fn expect_call(
    splitter: &mut Splitter,
    rest: &mut &[u8],
    (wanted, left): Outcome,
    case: &str,
) -> Result<(), Fail> {
    expect_same(splitter.next_line(rest), wanted, case)?;
    expect_same(*rest, left.as_bytes(), case)
}

fn expect_calls(
    splitter: &mut Splitter,
    piece: &[u8],
    outcomes: &[Outcome],
    case: &str,
) -> Result<(), Fail> {
    let mut rest = piece;
    for outcome in outcomes {
        expect_call(splitter, &mut rest, *outcome, case)?;
    }
    Ok(())
}

fn expect_letters(splitter: &mut Splitter, count: u32, case: &str) -> Result<(), Fail> {
    for _ in 0..count {
        expect_calls(splitter, &[b'x'; 1024], &[(None, "")], case)?;
    }
    Ok(())
}

fn expect_step(splitter: &mut Splitter, step: &Step, case: &str) -> Result<(), Fail> {
    match step {
        Step::Piece(piece, outcomes) => expect_calls(splitter, piece, outcomes, case),
        Step::Letters(count) => expect_letters(splitter, *count, case),
        Step::Finish(wanted) => expect_same(splitter.finish(), *wanted, case),
    }
}

// The steps, each behind what it is about, with one splitter.
fn expect_steps(steps: &[(&str, Step)]) -> Result<(), Fail> {
    let mut splitter = Splitter::new();
    for (case, step) in steps {
        expect_step(&mut splitter, step, case)?;
    }
    Ok(())
}

const ONE_LINE_A_CALL: [(&str, Step); 7] = [
    (
        "look, back, ag",
        Step::Piece(
            b"look\nback\nag",
            &[
                (Some(LOOK), "back\nag"),
                (Some(BACK), "ag"),
                (None, ""),
                (None, ""),
            ],
        ),
    ),
    (
        "ain, ba",
        Step::Piece(b"ain\nba", &[(Some(AGAIN), "ba"), (None, "")]),
    ),
    ("finish behind ba", Step::Finish(Some(NONE))),
    ("finish once more", Step::Finish(None)),
    ("look", Step::Piece(b"look", &[(None, "")])),
    ("finish behind look", Step::Finish(Some(LOOK))),
    ("finish at the end", Step::Finish(None)),
];

// Each call takes the bytes of one line; at the finish the next one begins.
#[test]
fn one_line_a_call() -> Result<(), Fail> {
    expect_steps(&ONE_LINE_A_CALL)
}

const SEVEN: Verdict = Ok(Call::Next { budget: 7 });

// Two lines of more than 100,000 bytes. The first begins as the longest command and goes on with a multiple of 65,536
// bytes; the second has no end.
const VERY_LONG_LINES: [(&str, Step); 7] = [
    (
        "the longest command",
        Step::Piece(b"settle 4294967295 yes", &[(None, "")]),
    ),
    ("letters behind it", Step::Letters(128)),
    (
        "the end of the long line, look, next 7",
        Step::Piece(
            b"\nlook\nnext 7\n",
            &[
                (Some(NONE), "look\nnext 7\n"),
                (Some(LOOK), "next 7\n"),
                (Some(SEVEN), ""),
                (None, ""),
            ],
        ),
    ),
    ("letters without an end", Step::Letters(100)),
    ("finish behind letters", Step::Finish(Some(NONE))),
    ("finish once more", Step::Finish(None)),
    (
        "back",
        Step::Piece(b"back\n", &[(Some(BACK), ""), (None, "")]),
    ),
];

#[test]
fn very_long_lines() -> Result<(), Fail> {
    expect_steps(&VERY_LONG_LINES)
}
