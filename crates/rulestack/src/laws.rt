// The laws of the rules of a file, and worked examples of the entries, as theorems.
ghost use Rattle.rulestack.specs.AlgebraExamples.{AlgebraExamples};
ghost use Rattle.rulestack.specs.Statements.{FileAllows, FileCount, FileLawful};

/// The rules of any contents keep the promises of a rule set. Those of well-formed contents are as many as the topmost
/// folder has entries, or as there are sheets where there is no folder, and allow exactly the builds that the sheets and the table of entries say.
pub fn file_laws()
    ensures lawful { FileLawful }
    ensures count { FileCount }
    ensures builds { FileAllows }
{}

/// Sixteen worked examples of products, eithers, complements, projections and selections: what they reply, and which builds
/// they allow.
pub fn algebra_examples()
    ensures { AlgebraExamples }
{}
