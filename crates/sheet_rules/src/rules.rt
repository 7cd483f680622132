// Sheets as a rule set.
ghost use Rattle.std.specs.Prelude.{◌≡◌, map};
ghost use Rattle.sheet_rules.specs.SheetsHeld.{sheets_held};
ghost use Rattle.sheet_rules.specs.Replies.{rules_of, rules_lawful};

use crate::rule::SheetRule;
use assignment::Assignment;
use ruleset::RuleSet;
use sheets::{ClauseSheet, TableSheet};

/// Sheets of one kind: rule k is sheet k, of the first 64.
#[derive(Drop)]
pub struct SheetRules<S> {
    sheets: Vec<S>,
}

/// Table sheets as a rule set.
pub type TableSheets<'a> = SheetRules<TableSheet<'a>>;

/// Clause sheets as a rule set.
pub type ClauseSheets<'a> = SheetRules<ClauseSheet<'a>>;

impl<S: SheetRule> SheetRules<S> {
    /// The rule set of these sheets.
    pub fn new(sheets: Vec<S>) -> SheetRules<S>
        ensures { sheets_held result ≡ sheets.items }
    {
        SheetRules { sheets }
    }
}

impl<S: SheetRule> RuleSet for SheetRules<S> {
    ghost meaning = { λ s. rules_of S.SheetRule.rule_of (map S.SheetBody.body_of (sheets_held s)) };

    ghost lawful = { λ s. rules_lawful S.SheetRule.rule_of S.SheetRule.keeps_promises (map S.SheetBody.body_of (sheets_held s)) };

    #[tactic(auto, using(crate::proofs::OfSheets::counted))]
    fn count(&self) -> u32 {
        self.sheets.len().min(64) as u32
    }

    fn propagate(&mut self, rule: u32, question: Assignment) -> Assignment {
        if rule >= 64 {
            return Assignment::contradiction();
        }
        match self.sheets.get(rule as usize) {
            None => Assignment::contradiction(),
            Some(sheet) => sheet.reply(question),
        }
    }
}
