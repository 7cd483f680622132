// The worked examples of replies in docs/PROOFS.md, run.
use crate::expect::{Asked, expect_each};
use std::test::Fail;

const CASES: &str = "
    each kind of rule | 0 1: nn ny yy / 2 3; 1 -2 / 0; -0 / 1; -1 | carry 0; carry 1; either 2 or 3; complement 0; \
            projection 0 hides 0; carry 2; carry 3
        the table adds | 0 | yes 0 | yes 0 1
        the table contradicts | 0 | yes 0 no 1 | contradiction
        the clauses add | 1 | no 1 | no 1 2
        an either contradicts | 2 | nothing | contradiction
        a complement keeps | 3 | yes 0 no 1-63 | same
        a projection keeps | 4 | yes 0 no 1-63 | same
        what the first of the either replies | 5 | nothing | both 0
        what the second of the either replies | 6 | nothing | both 1

    product | 0 1: nn ny yy / 2 3; 1 -2 | product 0 and 1
        both at once | 0 | no 1 | no 0 1 2
";

#[test]
fn worked_examples(rt: HostRuntime) -> Result<(), Fail> {
    expect_each(rt.alloc(), Asked::Folders, CASES)
}
