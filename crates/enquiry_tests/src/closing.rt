// Closing an enquiry: the last build that was given since the listing began, and the rule set.
use crate::build::SAMPLE;
use crate::expect::{FOUR, Run, Then, expect_of_file};
use std::alloc::Global;
use std::test::Fail;

// Closed after these calls on the sample, an enquiry gives this build, or none.
fn expect_last(heap: Global, calls: &str, yes: Option<u64>) -> Result<(), Fail> {
    let run = Run {
        about: calls,
        shown: FOUR,
        calls,
    };
    expect_of_file(heap, SAMPLE, run, Then::Last(yes))
}

// Calls on the sample, and the last build if there is one.
const LAST: [(&str, Option<u64>); 19] = [
    ("", None),
    ("look | known ????", None),
    ("next 2 | stopped 2", None),
    ("settle 1 no | done\nlook | known nnny", None),
    (
        "settle 0 yes | done\nsettle 1 no | done\nnext 9 | end 0",
        None,
    ),
    ("next 9 | built yyyy 3\nagain | done", None),
    ("next 9 | built yyyy 3\nsettle 3 yes | done", None),
    (
        "settle 3 yes | done\nnext 9 | built yyyy 2\nback | done",
        None,
    ),
    (
        "next 9 | built yyyy 3\nagain | done\nnext 2 | stopped 2",
        None,
    ),
    (
        "settle 1 no | done\nnext 0 | built nnny 0\nnext 0 | end 0\nagain | done",
        None,
    ),
    (
        "next 9 | built yyyy 3\nsettle 0 yes | done\nsettle 1 no | done\nnext 9 | end 0",
        None,
    ),
    ("next 9 | built yyyy 3", Some(0b1111)),
    ("next 9 | built yyyy 3\nnext 9 | built yyyn 0", Some(0b0111)),
    (
        "next 2 | stopped 2\nnext 1 | built yyyy 1\nlook | known ????",
        Some(0b1111),
    ),
    (
        "settle 3 yes | done\nnext 9 | built yyyy 2\nsettle 3 no | refused 22",
        Some(0b1111),
    ),
    (
        "next 9 | built yyyy 3\nback | refused 23\nsettle 4 yes | refused 21",
        Some(0b1111),
    ),
    (
        "next 3 | built yyyy 3\nnext 0 | built yyyn 0\nnext 0 | built yyny 0\nnext 0 | stopped 0",
        Some(0b1011),
    ),
    (
        "settle 1 no | done\nnext 0 | built nnny 0\nnext 0 | end 0\nnext 0 | end 0",
        Some(0b1000),
    ),
    (
        "settle 1 no | done\nnext 0 | built nnny 0\nback | done\nnext 9 | built yyyy 3",
        Some(0b1111),
    ),
];

// Closed after the calls, an enquiry gives back the last build, or none.
#[test]
fn last_build(rt: HostRuntime) -> Result<(), Fail> {
    for (calls, yes) in &LAST {
        expect_last(rt.alloc(), calls, *yes)?;
    }
    Ok(())
}
