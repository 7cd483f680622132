// The laws of the sheets' replies.
ghost use Rattle.std.specs.Prelude.{◌≡◌};
ghost use Rattle.sheet_rules.specs.Laws.{ClausesAdd, ClausesKeepAllowed, ClausesNumbered, NotLostHad, RowAgrees, TableAdds, TableConsistent, TableKeepsAllowed, TablesNumbered};
ghost use Rattle.sheet_rules.specs.RuleSets.{clauses_held, rules_of_clauses, rules_of_tables, tables_held};
ghost use Rattle.sheet_rules.specs.declared.rules.SheetRules.{SheetRules as Held};
ghost use Rattle.sheets.specs.declared.clauses.ClauseSheet.{ClauseSheet};
ghost use Rattle.sheets.specs.declared.table.TableSheet.{TableSheet};

use crate::rules::{ClauseSheets, TableSheets};
use ruleset::RuleSet;

/// What sheets allow and what they add, as theorems; what a table of a file replies is consistent or the contradiction;
/// rule k of several tables or clause sheets is the k-th one's, of the first 64; and a rule set of sheets means the rules
/// of what its sheets hold. The function does nothing.
pub fn sheet_laws()
    ensures rows { RowAgrees }
    ensures tables_allow { TableKeepsAllowed }
    ensures tables_add { TableAdds }
    ensures tables_consistent { TableConsistent }
    ensures wanted { NotLostHad }
    ensures clauses_allow { ClausesKeepAllowed }
    ensures clauses_add { ClausesAdd }
    ensures tables_numbered { TablesNumbered }
    ensures clauses_numbered { ClausesNumbered }
    ensures tables_mean { (s : Held TableSheet) → ⟦<TableSheets<'static> as RuleSet>⟧.meaning s ≡ rules_of_tables (tables_held s) }
    ensures clauses_mean { (s : Held ClauseSheet) → ⟦<ClauseSheets<'static> as RuleSet>⟧.meaning s ≡ rules_of_clauses (clauses_held s) }
{}
