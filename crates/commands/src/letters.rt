// One letter for each option.
ghost use Rattle.std.specs.Prelude.{◌≡◌, map};
ghost use Rattle.std.specs.List.{range_with_len};
ghost use Rattle.commands.specs.Replies.{build_letter, known_letter, letter_of};

use assignment::{Assignment, Value, has_bit};
use listing::Build;

// The letters of all options.
pub(crate) type Letters = [u8; 64];

// What is known of each option.
pub(crate) fn known_letters(known: &Assignment) -> Letters
    ensures { result ≡ map (known_letter known.now) (range_with_len 0 64) }
{
    let mut letters = [b'?'; 64];
    for option in 0..64 {
        letters[option as usize] = letter_of(known.value(option));
    }
    letters
}

// Whether each option is yes in a build.
pub(crate) fn build_letters(build: Build) -> Letters
    ensures { result ≡ map (build_letter build) (range_with_len 0 64) }
{
    let mut letters = [b'n'; 64];
    for option in 0..64 {
        letters[option as usize] = build_letter(build, option);
    }
    letters
}

fn build_letter(build: Build, option: u32) -> u8
    ensures { result ≡ build_letter build option }
{
    if has_bit(build.yes, option) {
        b'y'
    } else {
        b'n'
    }
}

fn letter_of(value: Value) -> u8
    ensures { result ≡ letter_of value }
{
    match value {
        Value::Yes | Value::Inconsistent => b'y',
        Value::No => b'n',
        Value::Unknown => b'?',
    }
}
