// What an assignment may know of one option.

/// `Inconsistent` is yes and no together.
#[derive(Clone, Copy, Debug, PartialEq, Eq)]
pub enum Value {
    Unknown,
    Yes,
    No,
    Inconsistent,
}
