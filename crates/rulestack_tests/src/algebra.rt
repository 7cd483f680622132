// The worked examples of the entries in docs/PROOFS.md, asked of the code: replies, and which builds are allowed. Each is an
// entry over entries over a few small sheets.
use crate::expect::{Asked, expect_each};
use std::test::Fail;

// Rules 0 to 3: of options 0 to 2, ynn yny nyy and ynn yyn nyy; of options 0 and 1, both alike and both unlike. Rules 4 to
// 6: 1 or not 0; 0 whatever 1 is; every build.
pub(crate) const SHEETS: &str =
    "0 1 2: ynn yny nyy / 0 1 2: ynn yyn nyy / 0 1: nn yy / 0 1: yn ny / -0 1 / 0 1; 0 -1 / no clauses";

// In the first line of a block: the entries of a folder over the sheets, and of one over that. In the lines behind it: of so
// many builds, by their yeses from none on, those that its rule 0 allows; and questions to this rule with its replies. These
// are in letters, and so are the builds: `y`, `n`, `?` for unknown and `*` for both, from option 0 on. Every option behind
// the letters is no.
const EXAMPLES: &str = "
    product_joins | seven sheets | carry 0; carry 1 / product 0 and 1
        allowed | 8: ynn nyy
        letters | y?? | ynn
        letters | yy? | contradiction
        letters | ?y? | nyy

    product_with_itself | seven sheets | carry 0; carry 1 / product 0 and 0
        allowed | 8: ynn yny nyy
        letters | y?? | yn?
        letters | yy? | contradiction

    product_without_models | seven sheets | carry 2; carry 3 / product 0 and 1
        allowed | 4:
        letters | ?? | ??
        letters | y? | y*
        letters | ?n | *n

    either_meets | seven sheets | carry 0; carry 1; none / either 0 or 1
        allowed | 8: ynn yyn yny nyy
        letters | y?? | y??
        letters | ?n? | yn?
        letters | ??n | y?n

    either_one_refuses | seven sheets | carry 0; carry 1; none / either 1 or 0
        allowed | 8: ynn yyn yny nyy
        letters | yy? | yyn
        letters | y?y | yny
        letters | nn? | contradiction

    either_both_refuse | seven sheets | selection 6 left 0 right 1 width 1; selection 6 left 2 right 3 width 1 / \
            either 0 or 1
        allowed | 16: nnnn ynnn nynn yynn nnyn yyyn nnny yyny nnyy ynyy nyyy yyyy
        letters | yn?y | ynyy
        letters | ?nyn | nnyn
        letters | ynyn | contradiction

    either_with_nothing | seven sheets | carry 0; carry 1; none / either 0 or 2
        allowed | 8: ynn yny nyy
        letters | y?? | yn?
        letters | nn? | contradiction

    complement_adds_nothing | seven sheets | carry 0; complement 0; selection 4 left 0 right 2 width 1 / complement 0
        allowed | 8: nnn nyn yyn nny yyy
        letters | y?? | y??
        letters | yn? | yn?
        letters | yy? | yy?

    complement_twice | seven sheets | carry 0; complement 0; selection 4 left 0 right 2 width 1 / complement 1
        allowed | 8: ynn yny nyy
        letters | y?? | y??
        letters | yy? | yy?

    complement_of_selection | seven sheets | carry 0; complement 0; selection 4 left 0 right 2 width 1 / complement 2
        allowed | 8: ynn yyn nny yny nyy
        letters | y?n | y?n
        letters | yyn | yyn
        letters | yyy | contradiction

    de_morgan, the complement | seven sheets | either 0 or 1; complement 0; complement 1 / complement 0
        allowed | 8: nnn nyn nny yyy
        letters | nn? | nn?

    de_morgan, the product | seven sheets | either 0 or 1; complement 0; complement 1 / product 1 and 2
        allowed | 8: nnn nyn nny yyy
        letters | nn? | nn?

    projection_forgets | seven sheets | carry 0; carry 5 / projection 0 hides 1
        allowed | 8: ynn yyn nny yny nyy yyy
        letters | ??n | y?n
        letters | ?y? | ?y?
        letters | ?yn | yyn
        letters | n?n | contradiction

    projection_searches | seven sheets | carry 0; carry 5 / projection 1 hides 1
        allowed | 8: ynn yyn yny yyy
        letters | n?? | n??
        letters | n?n | contradiction
        letters | y?n | y?n

    selection_copies, one pair | seven sheets | carry 4; carry 6 / selection 0 left 0 right 2 width 1
        allowed | 8: nnn nyn yyy
        letters | y?? | yyy
        letters | ??y | y?y
        letters | ?n? | nnn
        letters | y?n | *y*

    selection_copies, two pairs | seven sheets | carry 4; carry 6 / selection 1 left 0 right 2 width 2
        allowed | 16: nnnn ynyn nyny yyyy
        letters | y??n | ynyn
        letters | ?yn? | nyny
        letters | y?nn | *n*n

    projection_of_product, the projection | seven sheets | product 2 and 3; projection 2 hides 1; projection 3 hides 1 / \
            projection 0 hides 1
        allowed | 4:
        letters | ?? | ??
        letters | y? | contradiction

    projection_of_product, the product | seven sheets | product 2 and 3; projection 2 hides 1; projection 3 hides 1 / \
            product 1 and 2
        allowed | 4: nn yn ny yy
        letters | ?? | ??
        letters | y? | y?

    projection_of_complement, the projection | seven sheets | complement 0; projection 0 hides 1 / \
            projection 0 hides 1
        allowed | 8: nnn ynn nyn yyn nny yny nyy yyy
        letters | y?n | y?n

    projection_of_complement, the complement | seven sheets | complement 0; projection 0 hides 1 / complement 1
        allowed | 8: nnn nyn
        letters | y?n | y?n
";

#[test]
fn examples_of_entries(rt: HostRuntime) -> Result<(), Fail> {
    expect_each(rt.alloc(), Asked::Folders, EXAMPLES)
}
