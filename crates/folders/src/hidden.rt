// The options that a projection hides.
ghost use Rattle.std.specs.Prelude.{◌≡◌};
ghost use Rattle.assignment.specs.Options.{options_in};

use arrayvec::ArrayVec;
use assignment::has_bit;

// The options of a mask, from the least on.
#[tactic(auto, unfolding(assignment::specs::Options::options_below))]
pub(crate) fn list_options(mask: u64) -> ArrayVec<u8, 64>
    ensures { result.items ≡ options_in mask }
{
    let mut options = ArrayVec::new();
    for option in 0..64 {
        if has_bit(mask, u32::from(option)) {
            options.push(option);
        }
    }
    options
}
