// Opening an enquiry on a rule file.
ghost use Rattle.std.specs.Prelude.{◌≡◌, [], Ok, Err, IfOk, MatchResult};
ghost use Rattle.enquiry.specs.RunLaw.{Holds, Sound};
ghost use Rattle.enquiry.specs.States.{begun_with};
ghost use Rattle.enquiry.specs.Views.{opening_of, state_of};
ghost use Rattle.file_enquiry.specs.FileListings.{Listings};
ghost use Rattle.file_enquiry.specs.FileOpenings.{OpenedOn};
ghost use Rattle.ruleformat.specs.Contents.{Contents};
ghost use Rattle.ruleformat.specs.Reading.{reading};
ghost use Rattle.ruleformat.specs.WellFormed.{WellFormed};
ghost use Rattle.rulefile.specs.Held.{contents_of};

use crate::space::FileSpace;
use assignment::Assignment;
use enquiry::Enquiry;
use refusals::FileFault;
use rulefile::{RuleFile, read};
use ruleset::RuleSet;
use rulestack::{RuleStack, StackSpace, build};

/// An enquiry on the rules of a file.
pub type FileEnquiry<'a> = Enquiry<RuleStack<'a>>;

/// Opens an enquiry on the asked rule of a file, with its options and its start; or refuses the file as the reader does. A
/// file that is read always opens, and a listing that is run to its end gives just the builds that the file allows.
pub fn open_file<'a>(space: FileSpace<'a>, bytes: &'a [u8]) -> Result<FileEnquiry<'a>, FileFault>
    ensures answer { MatchResult result (λ q. (c : Contents) × (reading bytes.now ≡ Ok c) × OpenedOn c (opening_of (⟦<RuleStack<'static> as RuleSet>⟧.meaning q.rules) q) × Listings c (opening_of (⟦<RuleStack<'static> as RuleSet>⟧.meaning q.rules) q)) (λ e. reading bytes.now ≡ Err e) }
    ensures state { IfOk result (λ q. state_of q ≡ begun_with []) }
    ensures sound { IfOk result (λ q. Sound (opening_of (⟦<RuleStack<'static> as RuleSet>⟧.meaning q.rules) q)) }
    ensures law { IfOk result (λ q. Holds (opening_of (⟦<RuleStack<'static> as RuleSet>⟧.meaning q.rules) q) (record { history = []; state = state_of q })) }
{
    let file = read(space.file, bytes)?;
    Ok(open(space.stack, file))
}

// Opens an enquiry on what was read.
fn open<'a>(space: StackSpace, file: RuleFile<'a>) -> FileEnquiry<'a>
    requires { WellFormed (contents_of file) }
    ensures opening { OpenedOn (contents_of file.entry) (opening_of (⟦<RuleStack<'static> as RuleSet>⟧.meaning result.rules) result) }
    ensures listings { Listings (contents_of file.entry) (opening_of (⟦<RuleStack<'static> as RuleSet>⟧.meaning result.rules) result) }
    ensures state { state_of result ≡ begun_with [] }
    ensures sound { Sound (opening_of (⟦<RuleStack<'static> as RuleSet>⟧.meaning result.rules) result) }
    ensures law { Holds (opening_of (⟦<RuleStack<'static> as RuleSet>⟧.meaning result.rules) result) (record { history = []; state = state_of result }) }
{
    let Start {
        options,
        known,
        asked,
    } = start_of(&file);
    let rules = build(space, file);
    match Enquiry::open(rules, options, known, asked) {
        Ok(enquiry) => enquiry,
        Err(_) => unreachable(),
    }
}

// What an enquiry on a file is opened with, beside the rules.
#[derive(Clone, Copy)]
struct Start {
    options: u32,
    known: Assignment,
    asked: u32,
}

fn start_of(file: &RuleFile) -> Start
    ensures options { result.options ≡ file.now.parts.options }
    ensures known { result.known ≡ file.now.parts.start }
    ensures asked { result.asked ≡ file.now.parts.asked }
{
    Start {
        options: file.options(),
        known: file.start(),
        asked: file.asked(),
    }
}
