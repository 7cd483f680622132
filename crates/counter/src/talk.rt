// Answering commands as they come.
use calls::{Call, CallRefusal, Reply};
use commands::{LINE, Splitter, write_reply};
use file_enquiry::FileEnquiry;
use std::io;
use std::io::{Read, Write};

// How much of the input is read at a time.
const PIECE: usize = 4096;

// Answers the commands of the input to its end. All replies so far are handed on before it waits for more input.
pub(crate) fn talk<R: Read, W: Write>(
    input: &mut R,
    out: &mut W,
    enquiry: &mut FileEnquiry,
) -> io::Result<()> {
    let mut piece = [0; PIECE];
    let mut splitter = Splitter::new();
    for _ in 0..u64::MAX {
        out.flush()?;
        let count = input.read(&mut piece)?;
        if count == 0 {
            break;
        }
        answer_lines(&mut splitter, &piece[..count], out, enquiry)?;
    }
    match splitter.finish() {
        Some(verdict) => answer(verdict, out, enquiry),
        None => Ok(()),
    }
}

// Answers each line that ends in the piece.
fn answer_lines<W: Write>(
    splitter: &mut Splitter,
    piece: &[u8],
    out: &mut W,
    enquiry: &mut FileEnquiry,
) -> io::Result<()> {
    let mut rest = piece;
    while let Some(verdict) = splitter.next_line(&mut rest) {
        answer(verdict, out, enquiry)?;
    }
    Ok(())
}

// Writes the reply to a line: what its call is answered, or that it is refused.
fn answer<W: Write>(
    verdict: Result<Call, CallRefusal>,
    out: &mut W,
    enquiry: &mut FileEnquiry,
) -> io::Result<()> {
    let reply = match verdict {
        Ok(call) => enquiry.answer(call),
        Err(refusal) => Reply::Refused(refusal),
    };
    let mut line = [0; LINE];
    let count = write_reply(reply, enquiry.options(), &mut line);
    out.write_all(&line[..count])
}
