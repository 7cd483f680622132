// Memory for a rule file and its rules, reserved before it is read.
ghost use Rattle.std.specs.Prelude.{◌≡◌, ◌≤◌, [], All, IfOk, vec_capacity};
ghost use Rattle.rulefile.specs.Room.{HasRoom, IsEmpty};

use rulefile::Space;
use rulestack::StackSpace;
use std::alloc::{AllocError, Global};

/// Room for what a rule file holds, and for the folders that it does not have.
#[derive(Drop)]
pub struct FileSpace<'a> {
    pub(crate) file: Space<'a>,
    pub(crate) stack: StackSpace,
}

impl<'a> FileSpace<'a> {
    /// Reserves the room; the only call here that can fail for want of memory.
    pub fn reserve(heap: Global) -> Result<FileSpace<'a>, AllocError>
        ensures file { IfOk result (λ s. IsEmpty s.file.tables s.file.clauses s.file.folders × HasRoom s.file.tables s.file.clauses s.file.folders) }
        ensures stack { IfOk result (λ s. All (λ e. (e.entries.items ≡ []) × (32 ≤ vec_capacity e.entries)) s.stack.folders) }
    {
        Ok(FileSpace {
            file: Space::reserve(heap)?,
            stack: StackSpace::reserve(heap)?,
        })
    }
}
