// Reading a file in a test, and comparing what is told of it.
use crate::build::bytes_of;
use rulefile::{Space, read};
use std::alloc::{AllocError, Global};
use std::fmt::Debug;
use std::test::Fail;

// What is told of a file: `options` and their number, or `refused` with number, layer, place and item.
fn told(heap: Global, bytes: &[u8]) -> Result<String, AllocError> {
    let space = Space::reserve(heap)?;
    match read(space, bytes) {
        Ok(file) => {
            let options = file.options();
            format!(in heap; "options {options}")
        }
        Err(fault) => format!(in heap; "{fault}"),
    }
}

// These bytes are told of in these words.
pub(crate) fn expect(heap: Global, case: &str, bytes: &[u8], words: &str) -> Result<(), Fail> {
    let answer = told(heap, bytes)?;
    expect_same(answer.as_str(), words, case)
}

// Each line of a text is a case of three parts with `|` between them: what it is about, a file, and what is told of it.
pub(crate) fn expect_all(heap: Global, texts: &[&str]) -> Result<(), Fail> {
    for text in texts {
        expect_cases(heap, text)?;
    }
    Ok(())
}

fn expect_cases(heap: Global, text: &str) -> Result<(), Fail> {
    for case in text.trim().lines() {
        let (about, file, words) = parts_of(case).ok_or("not three parts")?;
        let bytes = bytes_of(heap, file)?;
        expect(heap, about, bytes.as_slice(), words)?;
    }
    Ok(())
}

fn parts_of(case: &str) -> Option<(&str, &str, &str)> {
    let (about, rest) = case.split_once('|')?;
    let (file, words) = rest.split_once('|')?;
    Some((about.trim(), file, words.trim()))
}

// What was found is what the case wants.
pub(crate) fn expect_same<T: PartialEq + Debug + Copy>(
    found: T,
    wanted: T,
    case: &str,
) -> Result<(), Fail> {
    if found != wanted {
        return Err(Fail::new(format_args!("{case}: {found:?} is not {wanted:?}")));
    }
    Ok(())
}
