// Files written as words, in the order of their bytes:
//   - `0A`, or several bytes together, as `0A0B`, in hexadecimal;
//   - `table:9`, the head of a table whose body has 9 bytes, and so with the other kinds;
//   - `FOUR` and the other names below, a whole record;
//   - `TABLE*32` or `0A0B*3`, a word so many times in a row.
//
// And two words that change what stands before them:
//   - `27=C8` writes another byte at a place, counted from 0;
//   - `size=40` leaves the first 40 bytes.
ghost use Rattle.std.specs.Prelude.{◌<◌, IfSome};

use std::alloc::Global;
use std::test::Fail;

// Whole records, with their names.
const RECORDS: [(&str, &[u8]); 7] = [
    // The example of docs/FORMAT.md, whose records begin at 0, 21, 34, 44 and 60.
    (
        "SAMPLE",
        b"\x11\0\x01\0\x04\0\0\0\0\0\0\0\0\0\0\0\0\0\0\0\0\
        \x09\0\x02\0\x02\0\x01\0\0\x02\0\x03\0\
        \x06\0\x03\0\x02\x02\x03\x02\x01\x82\
        \x0c\0\x04\0\x01\0\x01\0\0\0\0\0\0\0\0\0\
        \x01\0\x05\0\0",
    ),
    // A start with four options, nothing known.
    ("FOUR", b"\x11\0\x01\0\x04\0\0\0\0\0\0\0\0\0\0\0\0\0\0\0\0"),
    // A start with 64 options, nothing known.
    ("MANY", b"\x11\0\x01\0\x40\0\0\0\0\0\0\0\0\0\0\0\0\0\0\0\0"),
    // A table over option 0, without rows.
    ("TABLE", b"\x02\0\x02\0\x01\0"),
    // A clauses record without clauses.
    ("CLAUSES", b"\0\0\x03\0"),
    // A folder whose one entry carries rule 0.
    ("CARRY", b"\x0c\0\x04\0\0\0\0\0\0\0\0\0\0\0\0\0"),
    // The question for rule 0.
    ("ASK", b"\x01\0\x05\0\0"),
];

// The numbers of the kinds of records.
const KINDS: [(&str, u8); 5] = [
    ("start", 1),
    ("table", 2),
    ("clauses", 3),
    ("folder", 4),
    ("question", 5),
];

// What a table has under a name.
fn find_named<T: Copy>(table: &[(&str, T)], name: &str) -> Option<T> {
    for (key, value) in table {
        if *key == name {
            return Some(*value);
        }
    }
    None
}

// The bytes that the words stand for.
pub(crate) fn bytes_of(heap: Global, words: &str) -> Result<Vec<u8>, Fail> {
    let mut bytes = Vec::new(heap);
    for word in words.split_whitespace() {
        if add_times(&mut bytes, word).is_none() {
            return Err(Fail::new(format_args!("{word} stands for no bytes")));
        }
    }
    Ok(bytes)
}

// Adds a word as many times as it says.
fn add_times(bytes: &mut Vec<u8>, word: &str) -> Option<()> {
    let (part, count) = word.split_once('*').unwrap_or((word, "1"));
    for _ in 0..count.parse::<u32>().ok()? {
        add_word(bytes, part)?;
    }
    Some(())
}

fn add_word(bytes: &mut Vec<u8>, word: &str) -> Option<()> {
    if let Some(record) = find_named(&RECORDS, word) {
        bytes.extend_from_slice(record).ok()
    } else if let Some((kind, size)) = word.split_once(':') {
        bytes.extend_from_slice(&head_of(kind, size)?).ok()
    } else if let Some((place, value)) = word.split_once('=') {
        change(bytes, place, value)
    } else {
        add_hex(bytes, word)
    }
}

fn head_of(kind: &str, size: &str) -> Option<[u8; 4]> {
    let number = find_named(&KINDS, kind)?;
    let [low, high] = size.parse::<u16>().ok()?.to_le_bytes();
    Some([low, high, number, 0])
}

// Writes another byte at a place, or leaves a smaller size.
fn change(bytes: &mut Vec<u8>, place: &str, value: &str) -> Option<()> {
    if place == "size" {
        bytes.truncate(value.parse::<usize>().ok()?);
        return Some(());
    }
    let byte = bytes.get_mut(place.parse::<usize>().ok()?)?;
    *byte = u8::from_str_radix(value, 16).ok()?;
    Some(())
}

fn add_hex(bytes: &mut Vec<u8>, digits: &str) -> Option<()> {
    let (pairs, half) = digits.as_bytes().as_chunks::<2>();
    if !half.is_empty() {
        return None;
    }
    for [high, low] in pairs {
        bytes.push(16 * hex_value(*high)? + hex_value(*low)?).ok()?;
    }
    Some(())
}

fn hex_value(digit: u8) -> Option<u8>
    ensures { IfSome result (λ value. value < 16) }
{
    match digit {
        b'0'..=b'9' => Some(digit - b'0'),
        b'A'..=b'F' => Some(digit - b'A' + 10),
        _ => None,
    }
}
