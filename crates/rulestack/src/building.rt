// Building the rules of a file.
ghost use Rattle.std.specs.Prelude.{◌≡◌, ◌≤◌};
ghost use Rattle.entries.specs.Drafts.{carries, drafted};
ghost use Rattle.folders.specs.Folders.{folder};
ghost use Rattle.rulefile.specs.Held.{contents_of};
ghost use Rattle.rulestack.specs.FileRules.{file_rules};
ghost use Rattle.rulestack.specs.Laid.{laid};

use crate::space::StackSpace;
use assignment::Assignment;
use entries::{Draft, EntrySpace};
use folders::Folder;
use rulefile::{FileParts, RuleFile};
use ruleset::{RuleSet, SideBySide};
use sheet_rules::{ClauseSheets, TableSheets};

/// Four folders over the table sheets beside the clause sheets.
pub type RuleStack<'a> = Folder<
    Folder<Folder<Folder<SideBySide<TableSheets<'a>, ClauseSheets<'a>>>>>,
>;

/// The rules of a file. A folder that the file does not have carries every rule under its own number.
pub fn build<'a>(space: StackSpace, file: RuleFile<'a>) -> RuleStack<'a>
    ensures { ⟦<RuleStack<'static> as RuleSet>⟧.meaning result ≡ file_rules (contents_of file.entry) }
{
    let FileParts {
        options,
        start: _,
        tables,
        clauses,
        folders,
        asked: _,
    } = file.into_parts();
    let [first, second, third, fourth] = space.folders;
    let mut drafts = folders.into_iter();
    let sheets = SideBySide::new(TableSheets::new(tables), ClauseSheets::new(clauses));
    let one = lay(first, drafts.next(), options, sheets);
    let two = lay(second, drafts.next(), options, one);
    let three = lay(third, drafts.next(), options, two);
    lay(fourth, drafts.next(), options, three)
}

/// The reply of a rule of a file.
pub fn ask(rules: &mut RuleStack<'_>, rule: u32, question: Assignment) -> Assignment
    ensures answer { result ≡ (⟦<RuleStack<'static> as RuleSet>⟧.meaning rules.old).reply rule question }
    ensures same { ⟦<RuleStack<'static> as RuleSet>⟧.meaning rules.new ≡ ⟦<RuleStack<'static> as RuleSet>⟧.meaning rules.old }
{
    rules.propagate(rule, question)
}

// A folder with the entries of a draft, or where there is none, with an entry to carry each rule.
fn lay<R: RuleSet>(space: EntrySpace, draft: Option<Draft>, options: u32, below: R) -> Folder<R>
    requires { (R.RuleSet.meaning below).count ≤ 32 }
    ensures { folder (drafted result.draft) (R.RuleSet.meaning result.below) ≡ laid draft (R.RuleSet.meaning below) }
{
    match draft {
        Some(draft) => Folder::lay(draft, below),
        None => {
            let carried = carry_all(space, options, &below);
            Folder::lay(carried, below)
        }
    }
}

// A draft with an entry to carry each rule below.
fn carry_all<R: RuleSet>(space: EntrySpace, options: u32, below: &R) -> Draft
    requires { (R.RuleSet.meaning below.now).count ≤ 32 }
    ensures { drafted result ≡ carries (R.RuleSet.meaning below.now).count }
{
    Draft::carrying(space, options, below.count())
}
