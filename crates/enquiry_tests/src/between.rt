// What is called between the portions of a listing: a refused call or a look lets it go on where it stood, any other
// begins it anew.
use crate::expect::expect_runs;
use std::test::Fail;

// Each run is of a new enquiry on the sample. Its first line says what it is about.
const BETWEEN: &[&str] = &[
    "goes on where it halted
    settle 4 yes | refused 21
    back | refused 23
    next 2 | stopped 2
    settle 4 yes | refused 21
    settle 63 no | refused 21
    settle 64 yes | refused 21
    settle 4294967295 no | refused 21
    back | refused 23
    look | known ????
    look | known ????
    next 1 | built yyyy 1
    ",
    "goes on from a build
    next 3 | built yyyy 3
    settle 4 yes | refused 21
    next 0 | built yyyn 0
    back | refused 23
    next 0 | built yyny 0
    look | known ????
    next 0 | stopped 0
    look | known ????
    next 9 | built nyyy 3
    ",
    "goes on with a settlement
    settle 3 yes | done
    next 1 | stopped 1
    settle 3 yes | refused 22
    settle 3 no | refused 22
    settle 4 no | refused 21
    look | known ???y
    next 1 | built yyyy 1
    settle 3 no | refused 22
    next 0 | built yyny 0
    look | known ???y
    next 9 | built nyyy 2
    settle 3 yes | refused 22
    next 0 | built nyny 0
    next 0 | built nnny 0
    next 0 | end 0
    settle 3 yes | refused 22
    settle 3 no | refused 22
    settle 4 no | refused 21
    look | known ???y
    next 9 | end 0
    ",
    "stays ended
    next 9 | built yyyy 3
    next 9 | built yyyn 0
    next 9 | built yyny 0
    next 9 | built nyyy 3
    next 9 | built nyyn 0
    next 9 | built nyny 0
    next 9 | built nnny 0
    next 9 | end 0
    back | refused 23
    settle 4 yes | refused 21
    look | known ????
    next 9 | end 0
    ",
    "begins anew
    next 2 | stopped 2
    again | done
    next 1 | stopped 1
    again | done
    again | done
    next 3 | built yyyy 3
    next 0 | built yyyn 0
    again | done
    next 0 | stopped 0
    next 3 | built yyyy 3
    settle 3 yes | done
    next 1 | stopped 1
    settle 2 no | done
    next 0 | stopped 0
    back | done
    next 1 | stopped 1
    next 1 | built yyyy 1
    settle 0 no | done
    next 0 | stopped 0
    next 2 | built nyyy 2
    next 0 | built nyny 0
    back | done
    next 2 | built yyyy 2
    back | done
    next 2 | stopped 2
    next 1 | built yyyy 1
    ",
];

#[test]
fn between_the_portions(rt: HostRuntime) -> Result<(), Fail> {
    expect_runs(rt.alloc(), BETWEEN)
}
