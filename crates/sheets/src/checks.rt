// The check that the columns of a table share with the wanted values of a clause.
ghost use Rattle.std.specs.Prelude.{◌≡◌, [], ◌∷◌, nat_le, nat_lt};
ghost use Rattle.refusals.specs.Checks.{judged, when};
ghost use Rattle.refusals.specs.declared.refusal.Refusal.TheVariants.{BeyondOptions, Conflict};

use refusals::Refusal;

// An option is below the number of options, and not below the least that may come next.
pub(crate) fn check_option(option: u32, low: u32, options: u32) -> Result<(), Refusal>
    ensures { result ≡ judged (when (nat_le options option) BeyondOptions ∷ when (nat_lt option low) Conflict ∷ []) tt }
{
    if option >= options {
        return Err(Refusal::BeyondOptions);
    }
    if option < low {
        return Err(Refusal::Conflict);
    }
    Ok(())
}
