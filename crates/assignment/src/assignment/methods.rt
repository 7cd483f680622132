// Making an assignment, and asking what it knows.
ghost use Rattle.std.specs.Prelude.{◌≡◌, Decides};
ghost use Rattle.assignment.specs.Knows.{value_of, KnownBothWays};
ghost use Rattle.assignment.specs.Lattice.{inconsistent};

use super::Assignment;
use crate::mask::has_bit;
use crate::value::Value;

impl Assignment {
    /// The assignment with these two masks.
    pub fn new(yes: u64, no: u64) -> Assignment
        ensures yes { result.yes ≡ yes }
        ensures no { result.no ≡ no }
    {
        Assignment { yes, no }
    }

    /// The options known yes.
    pub fn yes_mask(&self) -> u64
        ensures { result ≡ self.now.yes }
    {
        self.yes
    }

    /// The options known no.
    pub fn no_mask(&self) -> u64
        ensures { result ≡ self.now.no }
    {
        self.no
    }

    /// Whether some option is known both yes and no.
    #[tactic(auto, using(crate::proofs::FirstBits::both_ways_known), unfolding(crate::specs::Lattice::inconsistent))]
    pub fn is_inconsistent(&self) -> bool
        ensures answer { result ≡ inconsistent self.now }
        ensures options { Decides result (KnownBothWays self.now) }
    {
        (self.yes & self.no) != 0
    }

    /// What is known of an option; nothing is known of an option from 64 on.
    pub fn value(&self, option: u32) -> Value
        ensures { result ≡ value_of self.now option }
    {
        let yes = has_bit(self.yes, option);
        let no = has_bit(self.no, option);
        match (yes, no) {
            (true, true) => Value::Inconsistent,
            (true, false) => Value::Yes,
            (false, true) => Value::No,
            (false, false) => Value::Unknown,
        }
    }
}
