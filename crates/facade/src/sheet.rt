// Questions to the sheet of some kind that a body holds, and to a projection over it.
ghost use Rattle.std.specs.Prelude.{◌≡◌, true, false, ◌&&◌, [], ◌∷◌, map, MatchResult};
ghost use Rattle.folders.specs.Entries.{project};
ghost use Rattle.sheet_rules.specs.SheetsHeld.{sheets_held};
ghost use Rattle.facade.specs.Outcomes.{hides, passes, told, Answered};
ghost use Rattle.facade.specs.declared.failure.Failure.TheVariants.{Refused, NoMemory};

use crate::asking::answer_all;
use crate::failure::Failure;
use crate::hiding::hiding;
use folders::Folder;
use refusals::Body;
use sheet_rules::{SheetRule, SheetRules};
use sheets::Sheet;
use std::alloc::Global;

// Answers questions to the sheet, with so many options.
pub(crate) fn answer<'a, S: Sheet<'a> + SheetRule>(
    heap: Global,
    options: u32,
    body: &'a [u8],
    masks: &mut [u64],
) -> Result<(), Failure>
    ensures { Answered (passes (told options) && passes (S.Sheet.checks options 0 body.now)) (passes (told options) && passes (S.Sheet.checks options 0 body.now)) (S.SheetRule.rule_of body.now) masks.old result masks.new }
{
    let mut rules = rules_of::<S>(heap, options, body)?;
    answer_all(&mut rules, masks);
    Ok(())
}

// Answers questions to the projection that hides these options of the sheet.
pub(crate) fn answer_hiding<'a, S: Sheet<'a> + SheetRule>(
    heap: Global,
    options: u32,
    body: &'a [u8],
    hidden: u64,
    masks: &mut [u64],
) -> Result<(), Failure>
    ensures { Answered (passes (told options) && passes (S.Sheet.checks options 0 body.now)) (passes (told options) && passes (S.Sheet.checks options 0 body.now) && hides options hidden) (project hidden (S.SheetRule.rule_of body.now)) masks.old result masks.new }
{
    let rules = rules_of::<S>(heap, options, body)?;
    let draft = hiding(heap, options, hidden)?;
    let mut folder = Folder::lay(draft, rules);
    answer_all(&mut folder, masks);
    Ok(())
}

// The rule set of the one sheet that a body holds.
fn rules_of<'a, S: Sheet<'a> + SheetRule>(
    heap: Global,
    options: u32,
    body: &'a [u8],
) -> Result<SheetRules<S>, Failure>
    ensures { MatchResult result (λ r. (passes (told options) ≡ true) × (passes (S.Sheet.checks options 0 body.now) ≡ true) × (map S.SheetBody.body_of (sheets_held r) ≡ body.now ∷ [])) (λ e. (e ≡ Refused → (passes (told options) && passes (S.Sheet.checks options 0 body.now)) ≡ false) × (e ≡ NoMemory → (passes (told options) && passes (S.Sheet.checks options 0 body.now)) ≡ true)) }
{
    if !is_told(options) {
        return Err(Failure::Refused);
    }
    let body = Body {
        bytes: body,
        place: 0,
    };
    let sheet = S::read(body, options)?;
    let mut sheets = Vec::with_capacity(heap, 1)?;
    sheets.push_reserved(sheet);
    Ok(SheetRules::new(sheets))
}

// Whether there may be so many options.
fn is_told(options: u32) -> bool
    ensures { result ≡ passes (told options) }
{
    1 <= options && options <= 64
}
