// Whole runs on files: the recorded run, and whole listings with their choices.
use crate::expect::{FOUR, Run, Then, expect_of_file, expect_runs};
use std::test::Fail;

const RECORDED: &[&str] = &[
    "recorded run
    next 2 | stopped 2
    next 2 | built yyyy 1
    settle 1 no | done
    look | known nnny
    next 0 | built nnny 0
    next 0 | end 0
    settle 1 yes | refused 22
    back | done
    back | refused 23
    look | known ????
    ",
    "whole listing
    next 6 | built yyyy 3
    next 6 | built yyyn 0
    next 6 | built yyny 0
    next 6 | built nyyy 3
    next 6 | built nyyn 0
    next 6 | built nyny 0
    next 6 | built nnny 0
    next 6 | end 0
    next 6 | end 0
    ",
    "no budget at each position
    next 0 | stopped 0
    next 0 | stopped 0
    next 0 | stopped 0
    next 1 | stopped 1
    next 0 | stopped 0
    next 0 | stopped 0
    next 2 | built yyyy 2
    next 0 | built yyyn 0
    next 0 | built yyny 0
    next 0 | stopped 0
    next 0 | stopped 0
    next 3 | built nyyy 3
    next 0 | built nyyn 0
    next 0 | built nyny 0
    next 0 | built nnny 0
    next 0 | end 0
    next 0 | end 0
    next 0 | end 0
    next 4294967295 | end 0
    ",
    "after the end
    settle 2 no | done
    next 9 | built yyny 1
    next 9 | built nyny 1
    next 9 | built nnny 0
    next 9 | end 0
    next 9 | end 0
    look | known ??ny
    again | done
    next 0 | stopped 0
    next 9 | built yyny 1
    next 1 | built nyny 1
    next 0 | built nnny 0
    next 0 | end 0
    settle 0 no | done
    next 9 | built nyny 1
    next 9 | built nnny 0
    next 9 | end 0
    back | done
    next 9 | built yyny 1
    next 9 | built nyny 1
    next 9 | built nnny 0
    next 9 | end 0
    back | done
    next 2 | stopped 2
    next 1 | built yyyy 1
    ",
];

#[test]
fn runs_on_the_sample(rt: HostRuntime) -> Result<(), Fail> {
    expect_runs(rt.alloc(), RECORDED)
}

// The table and the clauses of the example, with option 3 yes at the start. The asked rule is the clauses alone.
const CLAUSES_ASKED: &[u8; 49] = b"\x11\0\x01\0\x04\x08\0\0\0\0\0\0\0\0\0\0\0\0\0\0\0\
    \x09\0\x02\0\x02\0\x01\0\0\x02\0\x03\0\
    \x06\0\x03\0\x02\x02\x03\x02\x01\x82\
    \x01\0\x05\0\x01";

#[test]
fn start_and_asked_rule(rt: HostRuntime) -> Result<(), Fail> {
    expect_of_file(
        rt.alloc(),
        CLAUSES_ASKED,
        Run {
            about: "the clauses asked",
            shown: FOUR,
            calls: "
                look | known ???y
                settle 3 no | refused 22
                settle 3 yes | refused 22
                next 9 | built yyyy 3
                next 9 | built yyny 0
                next 9 | built ynny 0
                next 9 | built nyyy 2
                next 9 | built nyny 0
                next 9 | built nnny 0
                next 9 | end 0
                ",
        },
        Then::Nothing,
    )
}
