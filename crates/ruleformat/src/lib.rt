// The rule file's format: what a file holds, how it is encoded, and how it is checked. Uses `refusals` and `entries`.
#![tactic(auto)]

ghost use Rattle.ruleformat.specs.Bodies.{ClauseBodies, FolderBodies, TableBodies};
ghost use Rattle.ruleformat.specs.Laws.{AcceptedIsEncoded, EncodedIsAccepted, RefusedByFirst};
ghost use Rattle.ruleformat.specs.Sample.{Sample};

/// The laws of reading, as theorems: a file is accepted exactly if it encodes well-formed contents, which it then
/// reads back; and it is refused by the first check, in order, that holds. The sample file of docs/FORMAT.md is read as
/// that page has it, and refused with one change as docs/REFUSALS.md has it. With at most 64 options, and
/// over at most 32 rules where it is a folder's, the body of a sheet or a folder, by itself, passes its checks exactly if it
/// encodes something that fits, which it is then read as.
pub fn reading_is_exact()
    ensures accepted { AcceptedIsEncoded }
    ensures encoded { EncodedIsAccepted }
    ensures refused { RefusedByFirst }
    ensures sample { Sample }
    ensures tables { TableBodies }
    ensures clauses { ClauseBodies }
    ensures folders { FolderBodies }
{}
