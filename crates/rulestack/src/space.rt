// Memory for the folders that a file does not have, reserved before its rules are built.
ghost use Rattle.std.specs.Prelude.{◌≡◌, ◌≤◌, [], All, IfOk, vec_capacity};

use entries::EntrySpace;
use std::alloc::{AllocError, Global};

/// Room for the entries of four folders.
#[derive(Drop)]
pub struct StackSpace {
    pub(crate) folders: [EntrySpace; 4],
}

impl StackSpace {
    /// Reserves the room; the only call here that can fail for want of memory.
    pub fn reserve(heap: Global) -> Result<StackSpace, AllocError>
        ensures { IfOk result (λ s. All (λ e. (e.entries.items ≡ []) × (32 ≤ vec_capacity e.entries)) s.folders) }
    {
        Ok(StackSpace {
            folders: [
                EntrySpace::reserve(heap)?,
                EntrySpace::reserve(heap)?,
                EntrySpace::reserve(heap)?,
                EntrySpace::reserve(heap)?,
            ],
        })
    }
}
