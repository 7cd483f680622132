// A file is a list of records: the length of a body, a kind, and the body.
ghost use Rattle.std.specs.Prelude.{◌≡◌, ◌+◌, length};
ghost use Rattle.refusals.specs.Checks.{judged, seen};
ghost use Rattle.ruleformat.specs.Kinds.{out_of_turn};
ghost use Rattle.ruleformat.specs.Records.{head_checks, one_too_many};
ghost use Rattle.rulefile.specs.Codes.{code};
ghost use Rattle.rulefile.specs.Views.{show, shown, whole};

use crate::kind::Kind;
use refusals::{Body, RecordFault, Refusal};

const HEAD: usize = 4;

const MAX_SHEETS: usize = 32;

const MAX_FOLDERS: usize = 4;

/// A record by its kind, with its body and the place of its first byte.
#[derive(Clone, Copy)]
pub enum Record<'a> {
    Start(Body<'a>),
    Table(Body<'a>),
    Clauses(Body<'a>),
    Folder(Body<'a>),
    Question(Body<'a>),
}

/// What went before a record: the kind of the last one, 0 for none, and how many sheets and folders.
#[derive(Clone, Copy)]
pub struct Before {
    pub kind: usize,
    pub sheets: usize,
    pub folders: usize,
}

impl Before {
    // Whether a record of this kind may not come now.
    fn excludes(self, kind: Kind) -> bool
        ensures { result ≡ out_of_turn self.kind (code kind) }
    {
        if self.kind == 0 {
            return kind != Kind::Start;
        }
        self.kind == usize::from(Kind::Question)
            || kind == Kind::Start
            || usize::from(kind) < self.kind
    }

    // Whether a record of this kind would be one more than may be kept.
    fn is_full_for(self, kind: Kind) -> bool
        ensures { result ≡ one_too_many self.sheets self.folders (code kind) }
    {
        match kind {
            Kind::Table | Kind::Clauses => self.sheets >= MAX_SHEETS,
            Kind::Folder => self.folders >= MAX_FOLDERS,
            _ => false,
        }
    }
}

/// The record that begins at `place`, where `rest` is the file from there on, or why there is none.
pub fn next_record<'a>(
    rest: &'a [u8],
    place: usize,
    before: Before,
) -> Result<Record<'a>, RecordFault>
    ensures { seen show result ≡ judged (head_checks before.kind before.sheets before.folders place rest.now) (whole place rest.now) }
{
    let fault = |refusal| RecordFault { refusal, place };
    let [size_low, size_high, kind_low, kind_high, ..] = rest else {
        return Err(fault(Refusal::Cut));
    };
    let size = usize::from(u16::from_le_bytes([*size_low, *size_high]));
    let Ok(kind) = Kind::try_from(u16::from_le_bytes([*kind_low, *kind_high])) else {
        return Err(fault(Refusal::UnknownKind));
    };
    if before.excludes(kind) {
        return Err(fault(Refusal::OutOfTurn));
    }
    if before.is_full_for(kind) {
        return Err(fault(Refusal::TooMany));
    }
    if rest.len() < HEAD + size {
        return Err(fault(Refusal::Cut));
    }
    let bytes = &rest[HEAD..HEAD + size];
    Ok(Record::of_kind(kind, Body { bytes, place }))
}

impl<'a> Record<'a> {
    // The record of this kind.
    fn of_kind(kind: Kind, body: Body<'a>) -> Record<'a>
        ensures { show result ≡ shown (code kind) body.entry.bytes.now body.entry.place }
    {
        match kind {
            Kind::Start => Record::Start(body),
            Kind::Table => Record::Table(body),
            Kind::Clauses => Record::Clauses(body),
            Kind::Folder => Record::Folder(body),
            Kind::Question => Record::Question(body),
        }
    }

    // How many bytes of the file the record takes.
    pub(crate) fn size(self) -> usize
        ensures { result ≡ 4 + length (show self.entry).body }
    {
        let (Record::Start(body)
        | Record::Table(body)
        | Record::Clauses(body)
        | Record::Folder(body)
        | Record::Question(body)) = self;
        HEAD + body.bytes.len()
    }
}
