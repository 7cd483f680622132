// The rule of one table sheet.
ghost use Rattle.std.specs.Prelude.{◌≡◌, None};
ghost use Rattle.ruleformat.specs.Tables.{columns_of, rows_of, table_of};
ghost use Rattle.sheets.specs.Views.{table_body};
ghost use Rattle.sheet_rules.specs.Agreement.{agreeing};
ghost use Rattle.sheet_rules.specs.Gathered.{gathered};
ghost use Rattle.sheet_rules.specs.TableReply.{table_lawful, table_reply};

use crate::common::Common;
use crate::known::Known;
use crate::rule::SheetRule;
use assignment::Assignment;
use sheets::TableSheet;

impl SheetRule for TableSheet<'_> {
    ghost rule_of = { λ body. table_reply (table_of body) };

    ghost keeps_promises = { λ body. table_lawful (table_of body) };

    fn reply(&self, question: Assignment) -> Assignment {
        if question.is_inconsistent() {
            return Assignment::contradiction();
        }
        match gather(self, question) {
            None => Assignment::contradiction(),
            Some(common) => common.add_to(self.columns(), question),
        }
    }
}

// What the rows that agree have in common; nothing where no row does.
fn gather(sheet: &TableSheet, question: Assignment) -> Option<Common>
    ensures { result ≡ gathered None (agreeing (columns_of (table_body sheet.now)) (rows_of (table_body sheet.now)) question) }
{
    let known = Known::of(sheet.columns(), question);
    let mut common = None;
    for row in sheet.rows() {
        if known.agrees(row) {
            common = Some(Common::with_row(common, row));
        }
    }
    common
}
