// The kinds of records.
ghost use Rattle.std.specs.Prelude.{◌≡◌, [], ◌∷◌};
ghost use Rattle.refusals.specs.Checks.{judged, seen, when};
ghost use Rattle.ruleformat.specs.Kinds.{unknown};
ghost use Rattle.rulefile.specs.Codes.{code, no_kind};

// The kinds in the order in which records come, each with the number that stands in a record's head.
#[derive(Clone, Copy, Debug, PartialEq, Eq)]
pub(crate) enum Kind {
    Start = 1,
    Table = 2,
    Clauses = 3,
    Folder = 4,
    Question = 5,
}

// A number that stands for no kind.
#[derive(Clone, Copy, Debug, PartialEq, Eq)]
pub(crate) struct UnknownKind;

impl TryFrom<u16> for Kind {
    type Error = UnknownKind;

    ghost try_from_gives = { λ n r. seen code r ≡ judged (when (unknown n) no_kind ∷ []) n };

    fn try_from(number: u16) -> Result<Kind, UnknownKind> {
        match number {
            1 => Ok(Kind::Start),
            2 => Ok(Kind::Table),
            3 => Ok(Kind::Clauses),
            4 => Ok(Kind::Folder),
            5 => Ok(Kind::Question),
            _ => Err(UnknownKind),
        }
    }
}

impl From<Kind> for usize {
    ghost from_gives = { λ kind n. n ≡ code kind };

    fn from(kind: Kind) -> usize {
        kind as usize
    }
}
