// Going through the rows of a table sheet, the clauses of a clause sheet, and the wanted values of a clause.
ghost use Rattle.std.specs.Prelude.{◌≡◌, [], ◌∷◌, map, length, MatchOption};
ghost use Rattle.ruleformat.specs.Clauses.{clause_pieces, wanted_bytes, wanted_of};
ghost use Rattle.ruleformat.specs.Tables.{rows_in};
ghost use Rattle.sheets.specs.Views.{wanted_view};
ghost use Rattle.std.specs.Iterator.{at_most};

use crate::counted::split_counted;

/// The rows of a table from some row on: bit i of a row is set where column i is yes.
#[derive(Clone, Copy)]
pub struct Rows<'a> {
    pub(crate) rest: &'a [u8],
}

impl Iterator for Rows<'_> {
    type Item = u16;

    ghost next_gives = { λ s r t. MatchOption r ((rows_in s.rest.now ≡ []) × (t.rest.now ≡ s.rest.now)) (λ row. rows_in s.rest.now ≡ row ∷ rows_in t.rest.now) };

    ghost remaining = { λ s. at_most (length s.rest.now) };

    fn next(&mut self) -> Option<u16> {
        match self.rest {
            [] => None,
            [last] => {
                self.rest = &[];
                Some(u16::from(*last))
            }
            [low, high, rest @ ..] => {
                self.rest = rest;
                Some(u16::from_le_bytes([*low, *high]))
            }
        }
    }
}

/// The clauses of a sheet from some clause on.
#[derive(Clone, Copy)]
pub struct Clauses<'a> {
    pub(crate) rest: &'a [u8],
}

impl<'a> Iterator for Clauses<'a> {
    type Item = Clause<'a>;

    ghost next_gives = { λ s r t. MatchOption r ((clause_pieces s.rest.now ≡ []) × (t.rest.now ≡ s.rest.now)) (λ clause. (clause_pieces s.rest.now ≡ s.rest.now ∷ clause_pieces t.rest.now) × (clause.rest.now ≡ wanted_bytes s.rest.now)) };

    ghost remaining = { λ s. at_most (length s.rest.now) };

    fn next(&mut self) -> Option<Clause<'a>> {
        let (wanted, rest) = split_counted(self.rest)?;
        self.rest = rest;
        Some(Clause { rest: wanted })
    }
}

/// The wanted values of a clause from some value on.
#[derive(Clone, Copy)]
pub struct Clause<'a> {
    pub(crate) rest: &'a [u8],
}

impl Iterator for Clause<'_> {
    type Item = Wanted;

    ghost next_gives = { λ s r t. MatchOption r ((map wanted_of s.rest.now ≡ []) × (t.rest.now ≡ s.rest.now)) (λ w. map wanted_of s.rest.now ≡ wanted_view w ∷ map wanted_of t.rest.now) };

    ghost remaining = { λ s. at_most (length s.rest.now) };

    fn next(&mut self) -> Option<Wanted> {
        let (byte, rest) = self.rest.split_first()?;
        self.rest = rest;
        Some(Wanted::from(*byte))
    }
}

/// An option, and whether it is wanted no.
#[derive(Clone, Copy)]
pub struct Wanted {
    pub option: u32,
    pub negated: bool,
}

// Bits 0 to 5 are the option, and bit 7 is set where it is wanted no.
impl From<u8> for Wanted {
    ghost from_gives = { λ byte w. wanted_view w ≡ wanted_of byte };

    fn from(byte: u8) -> Wanted {
        Wanted {
            option: u32::from(byte % 64),
            negated: byte >= 128,
        }
    }
}
