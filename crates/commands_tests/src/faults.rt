// The line in which a rule file is refused.
use crate::expect::expect_same;
use refusals::{FileFault, FolderFault, RecordFault, Refusal, SheetFault};
use std::alloc::Global;
use std::test::Fail;

fn expect_fault(heap: Global, fault: FileFault, words: &str) -> Result<(), Fail> {
    let line = format!(in heap; "{fault}")?;
    expect_same(line.as_bytes(), words.as_bytes(), words)
}

const UNFINISHED: RecordFault = RecordFault {
    refusal: Refusal::Unfinished,
    place: 0,
};

const UNFIT: RecordFault = RecordFault {
    refusal: Refusal::Unfit,
    place: 21,
};

const START: FileFault = FileFault::Start {
    refusal: Refusal::OutOfRange,
    place: 0,
};

const COLUMN: SheetFault = SheetFault::Item {
    refusal: Refusal::BeyondOptions,
    place: 21,
    item: 1,
};

const FARTHEST: FolderFault = FolderFault::Entry {
    refusal: Refusal::TooManyHidden,
    place: 18446744073709551615,
    item: 18446744073709551615,
};

const QUESTION: FileFault = FileFault::Question {
    refusal: Refusal::NoSuchRule,
    place: 60,
};

// Faults of records, and then of what they contain.
const FAULTS: [(FileFault, &str); 7] = [
    (FileFault::Record(UNFINISHED), "refused 11 record 0 0"),
    (
        FileFault::Sheet(SheetFault::Record(UNFIT)),
        "refused 6 record 21 0",
    ),
    (
        FileFault::Folder(FolderFault::Record(UNFIT)),
        "refused 6 record 21 0",
    ),
    (START, "refused 9 start 0 0"),
    (FileFault::Sheet(COLUMN), "refused 7 sheet 21 1"),
    (
        FileFault::Folder(FARTHEST),
        "refused 12 folder 18446744073709551615 18446744073709551615",
    ),
    (QUESTION, "refused 10 question 60 0"),
];

#[test]
fn lines_of_faults(rt: HostRuntime) -> Result<(), Fail> {
    let heap = rt.alloc();
    for (fault, words) in &FAULTS {
        expect_fault(heap, *fault, words)?;
    }
    Ok(())
}
