// The reasons for which a rule file or a part of it, an entry for a draft, or the opening of an enquiry is refused.
ghost use Rattle.std.specs.Prelude.{◌≡◌};
ghost use Rattle.refusals.specs.Numbers.{number_of};

/// Each reason has a number that the user sees.
#[derive(Clone, Copy, Debug, PartialEq, Eq)]
pub enum Refusal {
    /// The file is longer than a rule file may be.
    TooLong = 1,
    /// Bytes are missing from a record's head or body.
    Cut = 2,
    /// The record is of no known kind.
    UnknownKind = 3,
    /// The record is not in its turn.
    OutOfTurn = 4,
    /// One sheet, folder or entry more than may be kept.
    TooMany = 5,
    /// The body does not fit its kind, or one of its counts is out of range.
    Unfit = 6,
    /// An option at or above the number of options.
    BeyondOptions = 7,
    /// Two values or places that exclude each other.
    Conflict = 8,
    /// A value outside its range, or a field or bit set that is not used.
    OutOfRange = 9,
    /// A rule that does not exist.
    NoSuchRule = 10,
    /// The file ends before its last record.
    Unfinished = 11,
    /// More options are hidden than may be.
    TooManyHidden = 12,
}

impl Refusal {
    /// The number that the user sees.
    pub fn number(self) -> u8
        ensures { result ≡ number_of self }
    {
        self as u8
    }
}
