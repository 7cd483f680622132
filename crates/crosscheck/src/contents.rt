// What a rule file says, as it was made.

#[derive(Drop)]
pub(crate) struct Contents {
    pub(crate) start: Start,
    pub(crate) tables: Vec<Table>,
    pub(crate) clauses: Vec<ClauseSheet>,
    pub(crate) folders: Vec<Folder>,
    pub(crate) asked: u8,
}

/// How many options there are, and which of them are known yes and which no.
#[derive(Clone, Copy)]
pub(crate) struct Start {
    pub(crate) options: u8,
    pub(crate) yes: u64,
    pub(crate) no: u64,
}

/// Bit i of a row is its value in column i.
#[derive(Drop)]
pub(crate) struct Table {
    pub(crate) columns: Vec<u8>,
    pub(crate) rows: Vec<u16>,
}

pub(crate) type ClauseSheet = Vec<Clause>;

pub(crate) type Clause = Vec<Wanted>;

#[derive(Clone, Copy)]
pub(crate) struct Wanted {
    pub(crate) option: u8,
    pub(crate) value: bool,
}

pub(crate) type Folder = Vec<Entry>;

#[derive(Clone, Copy)]
pub(crate) enum Entry {
    Carry {
        rule: u8,
    },
    Product {
        first: u8,
        second: u8,
    },
    Either {
        first: u8,
        second: u8,
    },
    Selection {
        rule: u8,
        left: u8,
        right: u8,
        width: u8,
    },
    Projection {
        rule: u8,
        hidden: u64,
    },
    Complement {
        rule: u8,
    },
    None,
}
