// Tests on a mask of 64 bits.
#![tactic(auto, using(crate::proofs::Shifts::shifts), unfolding(crate::specs::Masks::moved))]

ghost use Rattle.std.specs.Prelude.{◌≡◌, ◌%◌, ◌^◌, Decides, nat_le};
ghost use Rattle.assignment.specs.Knows.{has, HasFrom};
ghost use Rattle.assignment.specs.Lattice.{bits_from, one, shared as shared_bits};
ghost use Rattle.assignment.specs.Masks.{moved};

/// Whether bit `option` is set; no bit from 64 on is.
pub fn has_bit(mask: u64, option: u32) -> bool
    ensures { result ≡ has mask option }
{
    // With `&&` in place of the return, the loops that call this took up to half as long again.
    if option >= 64 {
        return false;
    }
    (mask >> option) % 2 == 1
}

/// Whether some bit at `first` or above is set.
pub fn has_bit_from(mask: u64, first: u32) -> bool
    ensures answer { result ≡ nat_le (2 ^ first) mask }
    ensures bits { Decides result (HasFrom first mask) }
{
    first < 64 && mask >= 1 << first
}

// The mask of one option; of none from 64 on.
pub(crate) fn one_bit(option: u32) -> u64
    ensures { result ≡ one option }
{
    1u64.checked_shl(option).unwrap_or(0)
}

// All bits from `first` on.
pub(crate) fn high_bits(first: u32) -> u64
    ensures { result ≡ bits_from first }
{
    u64::MAX.checked_shl(first).unwrap_or(0)
}

// Both ranges, each as wide as the width says, get the bits of the other.
pub(crate) fn shared(mask: u64, left: u32, right: u32, width: u32) -> u64
    ensures { result ≡ shared_bits left right width mask }
{
    let to_left = move_bits(mask, right, left, width);
    let to_right = move_bits(mask, left, right, width);
    mask | (to_left | to_right)
}

// The bits from `from` on, as many as the width says, at the places from `to` on; bits from 64 on are lost.
fn move_bits(mask: u64, from: u32, to: u32, width: u32) -> u64
    ensures { result ≡ moved from to width mask }
{
    let range = low_bits(mask.checked_shr(from).unwrap_or(0), width);
    range.checked_shl(to).unwrap_or(0)
}

// The lowest bits, as many as the width says.
fn low_bits(mask: u64, width: u32) -> u64
    ensures { result ≡ mask % 2 ^ width }
{
    mask & !high_bits(width)
}
