// Memory for what a rule file holds, reserved before it is read.
ghost use Rattle.std.specs.Prelude.{IfOk};
ghost use Rattle.rulefile.specs.Room.{HasRoom, IsEmpty};

use entries::{Draft, EntrySpace};
use sheets::{ClauseSheet, TableSheet};
use std::alloc::{AllocError, Global};

const SHEETS: usize = 32;

const FOLDERS: usize = 4;

/// Room for the sheets and folders of the largest file.
#[derive(Drop)]
pub struct Space<'a> {
    pub(crate) tables: Vec<TableSheet<'a>>,
    pub(crate) clauses: Vec<ClauseSheet<'a>>,
    pub(crate) folders: Vec<Draft>,
    pub(crate) spare: [EntrySpace; 4],
    ghost empty: { IsEmpty tables clauses folders },
    ghost room: { HasRoom tables clauses folders },
}

impl<'a> Space<'a> {
    /// Reserves the room; the only call here that can fail for want of memory.
    pub fn reserve(heap: Global) -> Result<Space<'a>, AllocError>
        ensures { IfOk result (λ s. IsEmpty s.tables s.clauses s.folders × HasRoom s.tables s.clauses s.folders) }
    {
        let tables = Vec::with_capacity(heap, SHEETS)?;
        let clauses = Vec::with_capacity(heap, SHEETS)?;
        let folders = Vec::with_capacity(heap, FOLDERS)?;
        Ok(Space {
            tables,
            clauses,
            folders,
            spare: [
                EntrySpace::reserve(heap)?,
                EntrySpace::reserve(heap)?,
                EntrySpace::reserve(heap)?,
                EntrySpace::reserve(heap)?,
            ],
        })
    }
}
