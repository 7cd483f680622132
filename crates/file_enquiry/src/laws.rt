// The whole statement, and worked examples, as theorems.
ghost use Rattle.enquiry.specs.FewerCounted.{FewerCounted};
ghost use Rattle.enquiry.specs.RunLaw.{Determined, RunLaw};
ghost use Rattle.file_enquiry.specs.FileListings.{FileListed};
ghost use Rattle.file_enquiry.specs.Worked.{Worked};
ghost use Rattle.folders.specs.Statements.{FolderReplies, StackAllows, StackLawful};

/// Folders over any rules, to any height, keep the promises, reply by the table of entries and allow the builds that it
/// says. Whatever is called at an enquiry over any rules that keep them, it is answered as the history of calls says, and
/// the builds given are the first of all that fit, each once, in the order of its opening. With settlements more, or a
/// more precise rule, a listing that is run to its end counts no more choices. And a listing of a file's rules that is run
/// to its end gives what the file's sheets and entries allow, in selling order.
pub fn enquiry_laws()
    ensures lawful { StackLawful }
    ensures replies { FolderReplies }
    ensures allows { StackAllows }
    ensures run { RunLaw }
    ensures determined { Determined }
    ensures fewer { FewerCounted }
    ensures listed { FileListed }
{}

/// Eight worked examples: a table, clauses, an either, a complement, a projection, the option that is chosen first, and the
/// listing of the sample file.
pub fn worked_examples()
    ensures { Worked }
{}
