// What an accepted rule file holds.
ghost use Rattle.std.specs.Prelude.{◌≡◌, ◌+◌, ◌<◌, ◌≤◌, vec_len, MatchOption, slice_index_or};
ghost use Rattle.entries.specs.Drafts.{drafted};

use assignment::Assignment;
use entries::{Draft, Entry};
use sheets::{ClauseSheet, TableSheet};

/// The sheets are the rules 0, 1, and so on: the tables first, then the clause sheets. Each folder's entries are
/// rules over the folder before it, or over the sheets. The asked rule is one of the last folder, or of the sheets
/// where there is none.
#[derive(Drop)]
pub struct RuleFile<'a> {
    pub(crate) parts: FileParts<'a>,
    ghost few: { vec_len parts.tables + vec_len parts.clauses ≤ 32 },
    ghost low: { vec_len parts.folders ≤ 4 },
    ghost told: { parts.options ≤ 64 },
    ghost byte: { parts.asked < 256 },
}

/// The parts of a rule file, to be taken apart.
#[derive(Drop)]
pub struct FileParts<'a> {
    pub options: u32,
    pub start: Assignment,
    pub tables: Vec<TableSheet<'a>>,
    pub clauses: Vec<ClauseSheet<'a>>,
    pub folders: Vec<Draft>,
    pub asked: u32,
}

impl<'a> RuleFile<'a> {
    /// How many options there are.
    pub fn options(&self) -> u32
        ensures { result ≡ self.now.parts.options }
    {
        self.parts.options
    }

    /// What is known from the outset.
    pub fn start(&self) -> Assignment
        ensures { result ≡ self.now.parts.start }
    {
        self.parts.start
    }

    /// The table sheets, in file order.
    pub fn tables(&self) -> &[TableSheet<'a>]
        ensures { result.now ≡ self.now.parts.tables.items }
    {
        self.parts.tables.as_slice()
    }

    /// The clause sheets, in file order.
    pub fn clauses(&self) -> &[ClauseSheet<'a>]
        ensures { result.now ≡ self.now.parts.clauses.items }
    {
        self.parts.clauses.as_slice()
    }

    /// The folders, from the lowest on.
    pub fn folders(&self) -> &[Draft]
        ensures { result.now ≡ self.now.parts.folders.items }
    {
        self.parts.folders.as_slice()
    }

    /// How many folders there are.
    pub fn folder_count(&self) -> usize
        ensures { result ≡ vec_len self.now.parts.folders }
    {
        self.parts.folders.len()
    }

    /// The entries of a folder, counted from the lowest; none where there is no such folder.
    pub fn folder(&self, index: usize) -> Option<&[Entry]>
        ensures { MatchOption result (vec_len self.now.parts.folders ≤ index) (λ es. (index < vec_len self.now.parts.folders) × ((d : Draft) → es.now ≡ drafted (slice_index_or self.now.parts.folders.items index d))) }
    {
        self.parts.folders.get(index).map(Draft::entries)
    }

    /// The asked rule.
    pub fn asked(&self) -> u32
        ensures { result ≡ self.now.parts.asked }
    {
        self.parts.asked
    }

    /// The file taken apart.
    pub fn into_parts(self) -> FileParts<'a>
        ensures { result ≡ self.entry.parts }
    {
        let RuleFile { parts } = self;
        parts
    }
}
