// An entry of a folder: one rule, made of rules of the rule set below.

/// Rules below are named by their numbers.
#[derive(Clone, Copy, Debug, PartialEq, Eq)]
pub enum Entry {
    /// The same rule.
    Carry {
        rule: u8,
    },
    /// Both rules.
    Product {
        first: u8,
        second: u8,
    },
    /// One of the rules, or both.
    Either {
        first: u8,
        second: u8,
    },
    /// The rule, with option `left + i` equal to option `right + i` for each i below `width`.
    Selection {
        rule: u8,
        left: u8,
        right: u8,
        width: u8,
    },
    /// The rule, with the options in the mask `hidden` of no account.
    Projection {
        rule: u8,
        hidden: u64,
    },
    /// Not the rule.
    Complement {
        rule: u8,
    },
    /// A rule that allows nothing.
    None,
}
