// Something was found that the words do not promise.
use calls::Reply;
use std::alloc::{AllocError, AllocFailed, Global};
use std::fmt;
use std::fmt::Display;

/// Why the trial of a file ends early.
#[derive(Drop)]
pub(crate) enum Stop {
    Memory(AllocError),
    Differs { expected: String, found: String },
}

impl From<AllocError> for Stop {
    fn from(error: AllocError) -> Stop {
        Stop::Memory(error)
    }
}

impl<T: Drop> From<AllocFailed<T>> for Stop {
    fn from(failed: AllocFailed<T>) -> Stop {
        Stop::Memory(AllocError::from(failed))
    }
}

/// Something else was found than what was expected.
pub(crate) fn differs<T, E: Display + Drop, F: Display + Drop>(
    heap: Global,
    expected: E,
    found: F,
) -> Result<T, Stop> {
    let expected = format!(in heap; "{expected}")?;
    let found = format!(in heap; "{found}")?;
    Err(Stop::Differs { expected, found })
}

/// A reply in words.
#[derive(Clone, Copy)]
pub(crate) struct Shown(pub(crate) Reply);

impl Display for Shown {
    fn fmt<W: fmt::Write>(&self, f: &mut fmt::Formatter<W>) -> fmt::Result {
        match self.0 {
            Reply::Done => f.write_str("done"),
            Reply::Refused(refusal) => write!(f, "refused {refusal:?}"),
            Reply::Known(known) => {
                let yes = known.yes_mask();
                let no = known.no_mask();
                write!(f, "known yes {yes:#x} and no {no:#x}")
            }
            Reply::Dead => f.write_str("no build left"),
            Reply::Listed(progress) => write!(f, "{progress:?}"),
        }
    }
}
