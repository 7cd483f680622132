// Lists of calls, answered from the opening on.
use crate::build::{bit, known};
use crate::expect::{FOUR, Run, Then, expect_run, expect_same, expect_words};
use crate::steps::sample_steps;
use crate::words::InWords;
use assignment::Assignment;
use calls::{Call, Reply};
use enquiry::{Enquiry, NotOpened};
use ruleset::RuleSet;
use std::alloc::Global;
use std::fmt;
use std::test::Fail;

// Calls, for how many replies there is room, all replies that then stand there, and calls that are made after that.
struct List {
    about: &'static str,
    calls: &'static [Call],
    room: usize,
    replies: &'static str,
    then: &'static str,
}

// Every reply was `dead` before. Option 3 is yes at the start, and a letter stands for each of the four options.
fn expect_list(heap: Global, list: &List) -> Result<(), Fail> {
    let mut replies = [Reply::Dead; 6];
    let replies = replies.get_mut(..list.room).ok_or("no such room")?;
    let then = Run {
        about: list.about,
        shown: FOUR,
        calls: list.then,
    };
    let start = Assignment::new(bit(3), 0);
    match Enquiry::run(sample_steps(), 4, start, 1, list.calls, replies) {
        Ok(enquiry) => expect_run(heap, enquiry, then, Then::Nothing)?,
        Err(_) => return Err(Fail::new("the enquiry is not opened")),
    }
    expect_words(heap, AllReplies { replies }, list.replies, list.about, 0)
}

// Replies in words, with a comma behind each.
#[derive(Clone, Copy)]
struct AllReplies<'a> {
    replies: &'a [Reply],
}

impl fmt::Display for AllReplies<'_> {
    fn fmt<W: fmt::Write>(&self, f: &mut fmt::Formatter<W>) -> fmt::Result {
        for reply in self.replies {
            let (reply, shown) = (*reply, FOUR);
            write!(f, "{},", InWords { reply, shown })?;
        }
        Ok(())
    }
}

const SIX_CALLS: &[Call] = &[
    Call::Next { budget: 2 },
    Call::Settle {
        option: 1,
        value: false,
    },
    Call::Look,
    Call::Next { budget: 9 },
    Call::Back,
    Call::Back,
];

const LISTS: [List; 5] = [
    List {
        about: "as many replies as calls",
        calls: &[
            Call::Next { budget: 2 },
            Call::Next { budget: 9 },
            Call::Settle {
                option: 3,
                value: false,
            },
            Call::Settle {
                option: 0,
                value: false,
            },
            Call::Look,
            Call::Next { budget: 1 },
        ],
        room: 6,
        replies: "stopped 2,built yyny 1,refused 22,done,known n??y,stopped 1,",
        then: "next 9 | built nyny 1",
    },
    List {
        about: "room for two more replies",
        calls: &[Call::Back, Call::Next { budget: 9 }],
        room: 4,
        replies: "refused 23,built yyny 3,dead,dead,",
        then: "next 9 | built ynny 1",
    },
    List {
        about: "one call",
        calls: &[Call::Next { budget: 2 }],
        room: 1,
        replies: "stopped 2,",
        then: "next 9 | built yyny 1",
    },
    // The calls past the room are not made.
    List {
        about: "room for two replies",
        calls: SIX_CALLS,
        room: 2,
        replies: "stopped 2,done,",
        then: "look | known ?n?y\nback | done\nback | refused 23",
    },
    List {
        about: "room for one reply",
        calls: SIX_CALLS,
        room: 1,
        replies: "stopped 2,",
        then: "next 9 | built yyny 1",
    },
];

#[test]
fn calls_and_room(rt: HostRuntime) -> Result<(), Fail> {
    for list in &LISTS {
        expect_list(rt.alloc(), list)?;
    }
    Ok(())
}

fn expect_refused(
    heap: Global,
    options: u32,
    start: &str,
    rule: u32,
    number: u8,
) -> Result<(), Fail> {
    let mut replies = [Reply::Done, Reply::Dead];
    let calls = &[Call::Next { budget: 2 }, Call::Look];
    let run = Enquiry::run(
        sample_steps(),
        options,
        known(start)?,
        rule,
        calls,
        &mut replies,
    );
    let Err(NotOpened { rules, refusal }) = run else {
        return Err(Fail::new("the enquiry is opened"));
    };
    expect_words(
        heap,
        AllReplies { replies: &replies },
        "done,dead,",
        start,
        0,
    )?;
    expect_same(
        (refusal.number(), rules.count(), rules.notes.asked),
        (number, 2, 0),
        start,
    )
}

// The options, the start, the rule, and the number of the refusal.
const NOT_OPENED: [(u32, &str, u32, u8); 4] = [
    (65, "both 0", 2, 9),
    (4, "both 4", 2, 7),
    (4, "both 0", 2, 8),
    (4, "yes 0", 2, 10),
];

#[test]
fn not_opened(rt: HostRuntime) -> Result<(), Fail> {
    for (options, start, rule, number) in &NOT_OPENED {
        expect_refused(rt.alloc(), *options, start, *rule, *number)?;
    }
    Ok(())
}
