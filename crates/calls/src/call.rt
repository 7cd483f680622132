// What may be called.

/// `Next` runs the listing on, and says how many choices may be opened.
#[derive(Clone, Copy, Debug, PartialEq, Eq)]
pub enum Call {
    Settle { option: u32, value: bool },
    Back,
    Again,
    Look,
    Next { budget: u32 },
}
