// What a buyer has settled.

/// An option, and whether it is yes.
#[derive(Clone, Copy, Debug, Default, PartialEq, Eq)]
pub struct Settlement {
    pub option: u32,
    pub value: bool,
}
