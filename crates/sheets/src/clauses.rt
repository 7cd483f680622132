// A clause sheet: clauses, each a list of options wanted yes or no.
ghost use Rattle.std.specs.Prelude.{◌≡◌, [], ◌∷◌};
ghost use Rattle.refusals.specs.Checks.{judged, when};
ghost use Rattle.refusals.specs.declared.refusal.Refusal.TheVariants.{Unfit};
ghost use Rattle.ruleformat.specs.Records.{at};
ghost use Rattle.ruleformat.specs.Clauses.{clause_checks, clause_pieces, clauses_checks, unfit_clauses, wanted_checks};
ghost use Rattle.sheets.specs.Views.{clause_body};

use crate::checks::check_option;
use crate::counted::split_whole;
use crate::sheet::{Sheet, SheetBody};
use crate::walk::Clauses;
use refusals::{Body, RecordFault, Refusal, SheetFault};

const MAX_CLAUSES: usize = 256;

/// A clause sheet over the part of the file that is its body.
#[derive(Clone, Copy)]
pub struct ClauseSheet<'a> {
    body: &'a [u8],
}

impl SheetBody for ClauseSheet<'_> {
    ghost body_of = { clause_body };
}

impl<'a> Sheet<'a> for ClauseSheet<'a> {
    ghost checks = { clauses_checks };

    fn read(body: Body<'a>, options: u32) -> Result<ClauseSheet<'a>, SheetFault> {
        check_shape(body)?;
        check_clauses(body, options)?;
        Ok(ClauseSheet { body: body.bytes })
    }
}

impl<'a> ClauseSheet<'a> {
    /// The clauses, from the first on.
    pub fn clauses(&self) -> Clauses<'a>
        ensures { result.rest.now ≡ clause_body self.now }
    {
        Clauses { rest: self.body }
    }
}

// Each clause has its wanted values whole, and there are not too many of either.
fn check_shape(body: Body<'_>) -> Result<(), RecordFault>
    ensures { result ≡ judged (when (unfit_clauses body.entry.bytes.now) (at Unfit body.entry.place) ∷ []) tt }
{
    let unfit = body.fault(Refusal::Unfit);
    let mut rest = body.bytes;
    for _ in 0..MAX_CLAUSES {
        if rest.is_empty() {
            return Ok(());
        }
        let Some((_, next)) = split_whole(rest) else {
            return Err(unfit);
        };
        rest = next;
    }
    if !rest.is_empty() {
        return Err(unfit);
    }
    Ok(())
}

// Every clause is checked, from the first on.
fn check_clauses(body: Body<'_>, options: u32) -> Result<(), SheetFault>
    ensures { result ≡ judged (clause_checks options body.entry.place 0 (clause_pieces body.entry.bytes.now)) tt }
{
    for (item, clause) in (Clauses { rest: body.bytes }).enumerate() {
        check_wanted(clause.rest, body.place, item, options)?;
    }
    Ok(())
}

// Each wanted value names an option, above the one before it.
fn check_wanted(wanted: &[u8], place: usize, item: usize, options: u32) -> Result<(), SheetFault>
    ensures { result ≡ judged (wanted_checks options place item 0 wanted.now) tt }
{
    let fault = |refusal| SheetFault::Item {
        refusal,
        place,
        item,
    };
    let mut low = 0;
    for byte in wanted {
        if *byte / 64 % 2 == 1 {
            return Err(fault(Refusal::OutOfRange));
        }
        let option = u32::from(*byte % 64);
        check_option(option, low, options).map_err(fault)?;
        low = option + 1;
    }
    Ok(())
}
