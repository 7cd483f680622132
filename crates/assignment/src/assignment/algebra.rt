// The lattice of assignments by precision, and changes of an assignment.
#![tactic(auto, using(crate::proofs::ByMasks::by_masks), unfolding(crate::specs::Knows::knows, crate::specs::Lattice::contradiction, crate::specs::Lattice::join, crate::specs::Lattice::meet, crate::specs::Lattice::put, crate::specs::Lattice::no_from, crate::specs::Lattice::outside, crate::specs::Lattice::within, crate::specs::Lattice::equate, crate::specs::Lattice::total, crate::specs::Lattice::known_outside, crate::specs::Lattice::same))]

ghost use Rattle.std.specs.Prelude.{◌≡◌, ℕ, ◌<◌, Bool, true, not, ◌&&◌, ◌||◌, Decides, ◌==◌, nat_le};
ghost use Rattle.std.specs.Bool.{beq};
ghost use Rattle.assignment.specs.Knows.{has, known, knows, Build, KnownOutside};
ghost use Rattle.assignment.specs.Lattice.{contradiction, copied, equate, inconsistent, join, known_outside, meet, no_from, outside, put, same, total, whole, within};

use super::Assignment;
use crate::mask::{has_bit, high_bits, one_bit, shared};

impl Assignment {
    /// Every option is inconsistent.
    pub fn contradiction() -> Assignment
        ensures answer { result ≡ contradiction }
        ensures options { (o : ℕ) (v : Bool) → o < 64 → knows result o v ≡ true }
    {
        Assignment::new(u64::MAX, u64::MAX)
    }

    /// All that either knows.
    pub fn join(self, other: Assignment) -> Assignment
        ensures answer { result ≡ join self other }
        ensures options { (o : ℕ) (v : Bool) → knows result o v ≡ (knows self o v || knows other o v) }
    {
        Assignment::new(self.yes | other.yes, self.no | other.no)
    }

    /// What both know.
    pub fn meet(self, other: Assignment) -> Assignment
        ensures answer { result ≡ meet self other }
        ensures options { (o : ℕ) (v : Bool) → knows result o v ≡ (knows self o v && knows other o v) }
    {
        Assignment::new(self.yes & other.yes, self.no & other.no)
    }

    /// The contradiction in place of any inconsistent assignment.
    pub fn whole(self) -> Assignment
        ensures answer { result ≡ whole self }
        ensures options { (o : ℕ) (v : Bool) → o < 64 → knows result o v ≡ (knows self o v || inconsistent self) }
    {
        if self.is_inconsistent() {
            return Assignment::contradiction();
        }
        self
    }

    /// Whether an option is known to have a value, `true` for yes; nothing is known of an option from 64 on.
    pub fn knows(self, option: u32, value: bool) -> bool
        ensures { result ≡ knows self option value }
    {
        if value {
            has_bit(self.yes, option)
        } else {
            has_bit(self.no, option)
        }
    }

    /// Whether anything is known of an option; nothing is of an option from 64 on.
    pub fn is_known(self, option: u32) -> bool
        ensures { result ≡ known self option }
    {
        has_bit(self.yes | self.no, option)
    }

    /// The same with an option known to have a value; an option from 64 on changes nothing.
    pub fn with(self, option: u32, value: bool) -> Assignment
        ensures answer { result ≡ put option value self }
        ensures options { (o : ℕ) (v : Bool) → o < 64 → knows result o v ≡ (knows self o v || (option == o && beq value v)) }
    {
        let bit = one_bit(option);
        if value {
            Assignment::new(self.yes | bit, self.no)
        } else {
            Assignment::new(self.yes, self.no | bit)
        }
    }

    /// The same with every option from `first` on known no.
    pub fn with_no_from(self, first: u32) -> Assignment
        ensures answer { result ≡ no_from first self }
        ensures options { (o : ℕ) (v : Bool) → o < 64 → knows result o v ≡ (knows self o v || (nat_le first o && not v)) }
    {
        Assignment::new(self.yes, self.no | high_bits(first))
    }

    /// The same with the options of a mask unknown.
    pub fn without(self, hidden: u64) -> Assignment
        ensures answer { result ≡ outside hidden self }
        ensures options { (o : ℕ) (v : Bool) → knows result o v ≡ (knows self o v && not (has hidden o)) }
    {
        Assignment::new(self.yes & !hidden, self.no & !hidden)
    }

    /// The same with all but the options of a mask unknown.
    pub fn only(self, shown: u64) -> Assignment
        ensures answer { result ≡ within shown self }
        ensures options { (o : ℕ) (v : Bool) → knows result o v ≡ (knows self o v && has shown o) }
    {
        Assignment::new(self.yes & shown, self.no & shown)
    }

    /// The same with options `left + i` and `right + i`, for each i below the width, both knowing what either does.
    pub fn equate(self, left: u32, right: u32, width: u32) -> Assignment
        ensures answer { result ≡ equate left right width self }
        ensures options { (o : ℕ) (v : Bool) → o < 64 → knows result o v ≡ (knows self o v || (copied right left width self o v || copied left right width self o v)) }
    {
        Assignment::new(
            shared(self.yes, left, right, width),
            shared(self.no, left, right, width),
        )
    }

    /// Whether this is a build: every option is yes or no, and none is both.
    pub fn is_total(self) -> bool
        ensures answer { result ≡ total self }
        ensures builds { Decides result (Build self) }
    {
        (self.yes ^ self.no) == u64::MAX
    }

    /// Whether something is known of each option that is not in the mask.
    pub fn is_known_without(self, hidden: u64) -> bool
        ensures answer { result ≡ known_outside hidden self }
        ensures options { Decides result (KnownOutside hidden self) }
    {
        (self.yes | self.no | hidden) == u64::MAX
    }
}

/// What `==` says of two assignments: whether both masks are the same, and with that whether the assignments are.
pub fn equality_laws()
    ensures answer { (a b : Assignment) → ⟦<Assignment as PartialEq>⟧.eq a b ≡ same a b }
    ensures equal { (a b : Assignment) → Decides (⟦<Assignment as PartialEq>⟧.eq a b) (a ≡ b) }
{}
