// Reading record by record.
ghost use Rattle.std.specs.Prelude.{◌≡◌, not, [], ◌∷◌, MatchResult, ◌==◌};
ghost use Rattle.refusals.specs.Checks.{First, judged, seen, when};
ghost use Rattle.refusals.specs.declared.fault.FileFault.TheVariants.{Record as in_record};
ghost use Rattle.refusals.specs.declared.refusal.Refusal.TheVariants.{Unfinished};
ghost use Rattle.ruleformat.specs.Contents.{nothing};
ghost use Rattle.ruleformat.specs.Encoding.{encode};
ghost use Rattle.ruleformat.specs.Reading.{checks, reading};
ghost use Rattle.ruleformat.specs.Records.{at};
ghost use Rattle.ruleformat.specs.WellFormed.{WellFormed};
ghost use Rattle.rulefile.specs.Codes.{last_code};
ghost use Rattle.rulefile.specs.Held.{contents_of, held, kept, so_far, summed};

use super::Reader;
use crate::file::{FileParts, RuleFile};
use crate::kind::Kind;
use crate::record::{Before, next_record};
use crate::space::Space;
use assignment::Assignment;
use refusals::{FileFault, RecordFault, Refusal};

const MAX_FILE: usize = 32768;

/// Reads a rule file into room that was reserved: what it holds, or the fault of the first check that refuses it.
pub fn read<'a>(space: Space<'a>, bytes: &'a [u8]) -> Result<RuleFile<'a>, FileFault>
    ensures answer { seen contents_of result ≡ reading bytes.now }
    ensures exact { MatchResult result (λ f. WellFormed (contents_of f) × (encode (contents_of f) ≡ bytes.now)) (λ e. First (checks bytes.now) e) }
{
    read_records(space, bytes)
}

// Reads record after record.
fn read_records<'a>(space: Space<'a>, bytes: &'a [u8]) -> Result<RuleFile<'a>, FileFault>
    ensures { seen contents_of result ≡ reading bytes.now }
{
    if bytes.len() > MAX_FILE {
        return Err(FileFault::Record(RecordFault {
            refusal: Refusal::TooLong,
            place: 0,
        }));
    }
    let mut reader = Reader::new(space);
    let mut rest = bytes;
    while !rest.is_empty() {
        let next = next_record(rest, bytes.len() - rest.len(), reader.before())?;
        rest = &rest[next.size()..];
        reader = reader.keep(next)?;
    }
    reader.finish(bytes.len())
}

impl<'a> Reader<'a> {
    // Nothing read yet.
    fn new(space: Space<'a>) -> Reader<'a>
        ensures { so_far result ≡ kept 0 nothing }
    {
        let Space {
            tables,
            clauses,
            folders,
            spare,
        } = space;
        Reader {
            last: None,
            file: RuleFile {
                parts: FileParts {
                    options: 0,
                    start: Assignment::new(0, 0),
                    tables,
                    clauses,
                    folders,
                    asked: 0,
                },
            },
            spare: spare.into_iter(),
        }
    }

    // What went before the next record.
    fn before(&self) -> Before
        ensures { result ≡ summed self.now }
    {
        Before {
            kind: self.last.map_or(0, usize::from),
            sheets: self.file.tables().len() + self.file.clauses().len(),
            folders: self.file.folder_count(),
        }
    }

    // What the file holds, where its last record was a question.
    fn finish(self, total: usize) -> Result<RuleFile<'a>, FileFault>
        ensures { seen contents_of result ≡ judged (when (not (last_code self.entry.last == 5)) (in_record (at Unfinished total)) ∷ []) (held self.entry) }
    {
        if self.last != Some(Kind::Question) {
            return Err(FileFault::Record(RecordFault {
                refusal: Refusal::Unfinished,
                place: total,
            }));
        }
        let Reader { file, .. } = self;
        Ok(file)
    }
}
