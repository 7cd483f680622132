// Why a call is refused, and the number for it.
ghost use Rattle.std.specs.Prelude.{◌≡◌};
ghost use Rattle.calls.specs.Numbers.{number_of};

/// Each with its number.
#[derive(Clone, Copy, Debug, PartialEq, Eq)]
pub enum CallRefusal {
    /// An option with this number is not there.
    NoOption = 21,
    /// The start or a settlement fixes the option, either way.
    Fixed = 22,
    /// No settlement stands.
    NothingSettled = 23,
    /// A line is none of the commands.
    NoCommand = 24,
}

impl CallRefusal {
    /// The number that the user sees.
    pub fn number(self) -> u8
        ensures { result ≡ number_of self }
    {
        self as u8
    }
}
