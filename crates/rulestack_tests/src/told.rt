// Drafts that were told another number of rules than the rule set has on which they are laid. The clause sheet `4` adds that
// option 4 is yes.
use crate::build::{bodies, sheet_rules};
use crate::expect::{Asked, expect_each, expect_laid};
use sheet_rules::ClauseSheets;
use std::test::Fail;

const CASES: &str = "
    rules that are not there | 4 | 40: carry 7; product 0 and 7; product 7 and 0; selection 7 left 0 right 1 width 1; \
            carry 1; carry 39; carry 0
        count | 7
        carry | 0 | nothing | contradiction
        carry, a build | 0 | yes 0-63 | contradiction
        product | 1 | nothing | contradiction
        product, a build | 1 | yes 0-63 | contradiction
        product, turned round | 2 | nothing | contradiction
        selection | 3 | nothing | contradiction
        selection, a build | 3 | yes 0-63 | contradiction
        just past the count | 4 | nothing | contradiction
        the last one told | 5 | nothing | contradiction
        the rule that is there | 6 | nothing | yes 4
        absent | 7 40 63 64 4294967295

    either and complement | 4 | 40: either 0 or 7; either 7 or 0; either 7 or 8; complement 7
        count | 4
        either | 0 | yes 2 no 3 | yes 2 4 no 3
        either, the rule refuses | 0 | no 4 | contradiction
        either, a build | 0 | yes 0-63 | same
        either, turned round | 1 | yes 2 no 3 | yes 2 4 no 3
        either of two that are not there | 2 | nothing | contradiction
        complement, nothing known | 3 | nothing | same
        complement, partly known | 3 | yes 2 no 4 | same
        complement, a build | 3 | no 0-63 | same
        complement, another build | 3 | yes 0-63 | same
        complement, inconsistent | 3 | both 9 | contradiction
        absent | 4 40 63 64 4294967295

    projection | 4 | 40: projection 7 hides 3 5; projection 7 hides
        count | 2
        nothing known | 0 | nothing | both 0-63 unknown 3 5
        hidden options known | 0 | yes 3 no 5 | both 0-63 yes 3 no 5
        shown options known too | 0 | yes 3 0 no 9 | both 0-63 yes 3 unknown 5
        one shown option unknown | 0 | no 0-62 unknown 3 | both 0-63 unknown 3 no 5
        all shown options known | 0 | no 0-63 unknown 3 5 | contradiction
        a build | 0 | no 0-63 | contradiction
        inconsistent | 0 | both 3 | contradiction
        nothing hidden | 1 | nothing | contradiction
        absent | 2 40 63 64 4294967295

    no rule told | 4 | 0: none; none
        count | 2
        none | 1 | nothing | contradiction
        absent | 2 40 63 64 4294967295

    no entry, one rule told | 4 | 1:
        count | 0
        no entry | 0 | nothing | contradiction
        absent | 0 40 63 64 4294967295

    no entry, 40 rules told | 4 | 40:
        count | 0
        no entry | 0 | no 0-63 | contradiction
        absent | 0 40 63 64 4294967295

    more rules than told | 1 / 2 / 3 | 1: carry 0; complement 0
        count | 2
        the rule that was told | 0 | nothing | yes 1
        the complement of it | 1 | no 0-63 | same
        absent | 2 3
";

#[test]
fn another_number_told(rt: HostRuntime) -> Result<(), Fail> {
    expect_each(rt.alloc(), Asked::Folders, CASES)
}

const ON_CLAUSE_SHEETS: &str = "
    count | 2
    the rule that was told | 0 | nothing | yes 1
    the complement of it | 1 | no 0-63 | same
    absent | 2 3
";

// Laid on clause sheets themselves, with no tables beside them.
#[test]
fn on_clause_sheets(rt: HostRuntime) -> Result<(), Fail> {
    let heap = rt.alloc();
    let bodies = bodies(heap, "1 / 2 / 3")?;
    let sheets: ClauseSheets<'_> = sheet_rules(heap, bodies.as_slice(), 64)?;
    expect_laid(
        heap,
        sheets,
        "1: carry 0; complement 0",
        "on clause sheets",
        ON_CLAUSE_SHEETS,
    )
}
