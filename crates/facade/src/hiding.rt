// The folder's draft of a projection over the first rule of a set.
ghost use Rattle.std.specs.Prelude.{◌≡◌, true, false, [], ◌∷◌, MatchResult};
ghost use Rattle.entries.specs.Drafts.{drafted};
ghost use Rattle.entries.specs.declared.entry.Entry.TheVariants.{Projection};
ghost use Rattle.facade.specs.Outcomes.{hides, passes, told};
ghost use Rattle.facade.specs.declared.failure.Failure.TheVariants.{Refused};

use crate::failure::Failure;
use entries::{Draft, EntryFields, EntrySpace, Op};
use std::alloc::Global;

// The draft of a folder whose one entry hides these options, of so many, of the one rule below.
pub(crate) fn hiding(heap: Global, options: u32, hidden: u64) -> Result<Draft, Failure>
    requires { passes (told options) ≡ true }
    ensures { MatchResult result (λ d. (hides options hidden ≡ true) × (drafted d ≡ Projection 0 hidden ∷ [])) (λ e. e ≡ Refused → hides options hidden ≡ false) }
{
    let space = EntrySpace::reserve(heap)?;
    let mut draft = Draft::new(space, options, 1);
    draft.add(EntryFields {
        op: Op::Projection.code(),
        first: 0,
        second: 0,
        third: 0,
        word: hidden,
    })?;
    Ok(draft)
}
