// Memory for the entries of one folder, reserved before it is filled.
ghost use Rattle.std.specs.Prelude.{◌≡◌, ◌≤◌, [], IfOk, vec_len, vec_capacity};

use crate::entry::Entry;
use std::alloc::{AllocError, Global};

/// How many entries a folder has at most.
pub const MAX_ENTRIES: usize = 32;

/// Room for 32 entries.
#[derive(Drop)]
pub struct EntrySpace {
    pub(crate) entries: Vec<Entry>,
    ghost empty: { (entries.items ≡ []) × (vec_len entries ≡ 0) },
    ghost room: { 32 ≤ vec_capacity entries },
}

impl EntrySpace {
    /// Reserves the room; the only call here that can fail for want of memory.
    pub fn reserve(heap: Global) -> Result<EntrySpace, AllocError>
        ensures { IfOk result (λ s. (s.entries.items ≡ []) × (32 ≤ vec_capacity s.entries)) }
    {
        let entries = Vec::with_capacity(heap, MAX_ENTRIES)?;
        Ok(EntrySpace { entries })
    }
}
