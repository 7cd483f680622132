// The lines of the replies.
ghost use Rattle.std.specs.Prelude.{◌≡◌, ◌≤◌, ◌++◌, length, take, min, codes, decimal};
ghost use Rattle.commands.specs.Replies.{build_letters, ended, known_letters, letters_line, options_line, over, progress_text, refused_line, reply_line};

use crate::buffer::{LINE, write_line};
use crate::letters::{Letters, build_letters, known_letters};
use assignment::Assignment;
use calls::{CallRefusal, Reply};
use itoa::Buffer;
use listing::{Build, Progress};

/// Writes the line of a reply over the front of the buffer, with a letter for each of so many options, and says how many
/// bytes that is.
pub fn write_reply(reply: Reply, options: u32, buffer: &mut [u8; LINE]) -> usize
    ensures written { buffer.new ≡ over (reply_line options reply) buffer.old }
    ensures count { result ≡ length (reply_line options reply) }
    ensures fits { result ≤ 96 }
{
    match reply {
        Reply::Done => write_line(&[b"ok".as_slice()], buffer),
        Reply::Refused(refusal) => write_refused(refusal, buffer),
        Reply::Known(known) => write_known(&known, options, buffer),
        Reply::Dead => write_line(&[b"dead".as_slice()], buffer),
        Reply::Listed(progress) => write_progress(progress, options, buffer),
    }
}

/// Writes how many options there are, in the same way.
pub fn write_options(options: u32, buffer: &mut [u8; LINE]) -> usize
    ensures written { buffer.new ≡ over (options_line options) buffer.old }
    ensures count { result ≡ length (options_line options) }
    ensures fits { result ≤ 96 }
{
    write_number(b"options ", options, buffer)
}

/// Writes the letters of a build alone, in the same way.
pub fn write_letters(build: Build, options: u32, buffer: &mut [u8; LINE]) -> usize
    ensures written { buffer.new ≡ over (letters_line options build) buffer.old }
    ensures count { result ≡ length (letters_line options build) }
    ensures fits { result ≤ 96 }
{
    let letters = build_letters(build);
    write_line(&[first_letters(&letters, options)], buffer)
}

/// Writes the number of a refusal, in the same way.
pub fn write_refused(refusal: CallRefusal, buffer: &mut [u8; LINE]) -> usize
    ensures written { buffer.new ≡ over (refused_line refusal) buffer.old }
    ensures count { result ≡ length (refused_line refusal) }
    ensures fits { result ≤ 96 }
{
    write_number(b"refused ", u32::from(refusal.number()), buffer)
}

// A word and a number.
fn write_number(word: &[u8], number: u32, buffer: &mut [u8; LINE]) -> usize
    requires { length word.now ≤ 8 }
    ensures written { buffer.new ≡ over (ended (word.now ++ decimal number)) buffer.old }
    ensures count { result ≡ length (ended (word.now ++ decimal number)) }
    ensures fits { result ≤ 96 }
{
    let mut digits = Buffer::new();
    write_line(&[word, digits.format(number).as_bytes()], buffer)
}

// What is known.
fn write_known(known: &Assignment, options: u32, buffer: &mut [u8; LINE]) -> usize
    ensures written { buffer.new ≡ over (ended (codes "known " ++ known_letters known.now options)) buffer.old }
    ensures count { result ≡ length (ended (codes "known " ++ known_letters known.now options)) }
    ensures fits { result ≤ 96 }
{
    let letters = known_letters(known);
    write_line(&[b"known ", first_letters(&letters, options)], buffer)
}

// What the listing came to.
fn write_progress(progress: Progress, options: u32, buffer: &mut [u8; LINE]) -> usize
    ensures written { buffer.new ≡ over (ended (progress_text options progress)) buffer.old }
    ensures count { result ≡ length (ended (progress_text options progress)) }
    ensures fits { result ≤ 96 }
{
    match progress {
        Progress::Built { build, opened } => write_build(build, opened, options, buffer),
        Progress::Stopped { opened } => write_number(b"stopped ", opened, buffer),
        Progress::End { opened } => write_number(b"end ", opened, buffer),
    }
}

// A build, and the choices that were opened on the way to it.
fn write_build(build: Build, opened: u32, options: u32, buffer: &mut [u8; LINE]) -> usize
    ensures written { buffer.new ≡ over (ended (codes "build " ++ build_letters build options ++ codes " " ++ decimal opened)) buffer.old }
    ensures count { result ≡ length (ended (codes "build " ++ build_letters build options ++ codes " " ++ decimal opened)) }
    ensures fits { result ≤ 96 }
{
    let letters = build_letters(build);
    let mut digits = Buffer::new();
    let choices = digits.format(opened).as_bytes();
    write_line(
        &[b"build ", first_letters(&letters, options), b" ", choices],
        buffer,
    )
}

// The letters of so many options, or of all.
fn first_letters(letters: &Letters, options: u32) -> &[u8]
    ensures { result.now ≡ take (min options 64) letters.now }
{
    &letters[..options.min(64) as usize]
}
