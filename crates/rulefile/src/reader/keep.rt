// Keeping what one record holds. A reader that refuses a record is gone.
ghost use Rattle.std.specs.Prelude.{◌≡◌};
ghost use Rattle.refusals.specs.Checks.{judged, seen, within};
ghost use Rattle.refusals.specs.declared.fault.FileFault.TheVariants.{Sheet as in_sheet, Folder as in_folder};
ghost use Rattle.ruleformat.specs.Clauses.{clauses_checks, with_clauses};
ghost use Rattle.ruleformat.specs.Contents.{rules as rules_of};
ghost use Rattle.ruleformat.specs.Folders.{folder_checks, with_folder};
ghost use Rattle.ruleformat.specs.Reading.{body_checks, question_checks, with_question, with_record};
ghost use Rattle.ruleformat.specs.Starts.{start_checks, with_start};
ghost use Rattle.ruleformat.specs.Tables.{table_checks, with_table};
ghost use Rattle.rulefile.specs.Held.{Ready, held, kept, so_far};
ghost use Rattle.rulefile.specs.Views.{show};

use super::Reader;
use crate::folder::read_folder;
use crate::kind::Kind;
use crate::record::Record;
use crate::start::read_start;
use refusals::{Body, FileFault, Refusal};
use sheets::{ClauseSheet, Sheet, TableSheet};

impl<'a> Reader<'a> {
    // Keeps what a record holds.
    pub(crate) fn keep(self, next: Record<'a>) -> Result<Reader<'a>, FileFault>
        requires { Ready self (show next).kind }
        ensures { seen so_far result ≡ judged (body_checks (show next.entry).kind (show next.entry).place (show next.entry).body (held self.entry)) (kept (show next.entry).kind (with_record (show next.entry).kind (show next.entry).body (held self.entry))) }
    {
        match next {
            Record::Start(body) => self.keep_start(body),
            Record::Table(body) => self.keep_table(body),
            Record::Clauses(body) => self.keep_clauses(body),
            Record::Folder(body) => self.keep_folder(body),
            Record::Question(body) => self.keep_question(body),
        }
    }

    // The number of options and what is known of them from the outset.
    fn keep_start(mut self, body: Body<'_>) -> Result<Reader<'a>, FileFault>
        ensures { seen so_far result ≡ judged (start_checks body.entry.place body.entry.bytes.now) (kept 1 (with_start body.entry.bytes.now (held self.entry))) }
    {
        let start = read_start(body)?;
        let file = &mut self.file;
        file.parts.options = start.options;
        file.parts.start = start.known;
        self.last = Some(Kind::Start);
        Ok(self)
    }

    // One table sheet more.
    fn keep_table(mut self, body: Body<'a>) -> Result<Reader<'a>, FileFault>
        requires { Ready self 2 }
        ensures { seen so_far result ≡ judged (within in_sheet (table_checks (held self.entry).options body.entry.place body.entry.bytes.now)) (kept 2 (with_table body.entry.bytes.now (held self.entry))) }
    {
        let sheet = TableSheet::read(body, self.file.parts.options)?;
        let file = &mut self.file;
        file.parts.tables.push_reserved(sheet);
        self.last = Some(Kind::Table);
        Ok(self)
    }

    // One clause sheet more.
    fn keep_clauses(mut self, body: Body<'a>) -> Result<Reader<'a>, FileFault>
        requires { Ready self 3 }
        ensures { seen so_far result ≡ judged (within in_sheet (clauses_checks (held self.entry).options body.entry.place body.entry.bytes.now)) (kept 3 (with_clauses body.entry.bytes.now (held self.entry))) }
    {
        let sheet = ClauseSheet::read(body, self.file.parts.options)?;
        let file = &mut self.file;
        file.parts.clauses.push_reserved(sheet);
        self.last = Some(Kind::Clauses);
        Ok(self)
    }

    // One folder more, over the rules so far.
    fn keep_folder(mut self, body: Body<'_>) -> Result<Reader<'a>, FileFault>
        requires { Ready self 4 }
        ensures { seen so_far result ≡ judged (within in_folder (folder_checks (held self.entry).options (rules_of (held self.entry)) body.entry.place body.entry.bytes.now)) (kept 4 (with_folder body.entry.bytes.now (held self.entry))) }
    {
        let rules = self.rules();
        let Some(space) = self.spare.next() else {
            unreachable()
        };
        let draft = read_folder(space, body, self.file.parts.options, rules)?;
        let file = &mut self.file;
        file.parts.folders.push_reserved(draft);
        self.last = Some(Kind::Folder);
        Ok(self)
    }

    // The asked rule.
    fn keep_question(mut self, body: Body<'_>) -> Result<Reader<'a>, FileFault>
        requires { Ready self 5 }
        ensures { seen so_far result ≡ judged (question_checks (rules_of (held self.entry)) body.entry.place body.entry.bytes.now) (kept 5 (with_question body.entry.bytes.now (held self.entry))) }
    {
        let [asked] = body.bytes else {
            return Err(FileFault::Record(body.fault(Refusal::Unfit)));
        };
        let asked = u32::from(*asked);
        if asked >= self.rules() {
            return Err(FileFault::Question {
                refusal: Refusal::NoSuchRule,
                place: body.place,
            });
        }
        self.file.parts.asked = asked;
        self.last = Some(Kind::Question);
        Ok(self)
    }

    // How many rules the next folder, or the question, may name.
    fn rules(&self) -> u32
        ensures { result ≡ rules_of (held self.now) }
    {
        let file = &self.file;
        match file.folders().last() {
            Some(folder) => folder.entries().len() as u32,
            None => (file.tables().len() + file.clauses().len()) as u32,
        }
    }
}
