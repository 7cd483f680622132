// The laws of folders and of stacks of any height, as theorems.
ghost use Rattle.folders.specs.Statements.{FolderReplies, SameValues, StackAllows, StackLawful};

/// Over any set of rules that keeps the promises, folders one over the other keep them; each entry gives the reply of the
/// table of entries; and a stack of folders with at most 32 entries each allows exactly the builds that the table makes of
/// those allowed below.
pub fn stack_laws()
    ensures lawful { StackLawful }
    ensures replies { FolderReplies }
    ensures builds { StackAllows }
    ensures values { SameValues }
{}
