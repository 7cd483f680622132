// Feeding a splitter, and the verdicts on the lines.
ghost use Rattle.std.specs.Prelude.{◌≡◌, ℕ, ◌<◌, List, [], ◌∷◌, ◌++◌, length, IfNone, OnSome};
ghost use Rattle.commands.specs.Parsing.{parsed};
ghost use Rattle.commands.specs.Splitting.{Finishes, NextLine, Pending};

use super::{LONGEST, Splitter};
use crate::command::parse_command;
use calls::{Call, CallRefusal};

impl Splitter {
    /// A splitter at the beginning of a line.
    pub fn new() -> Splitter
        ensures { Pending result [] }
    {
        Splitter {
            kept: [0; LONGEST],
            count: 0,
        }
    }

    /// Takes bytes from the front of the piece, up to the next line's end and with it, and gives the verdict on that line;
    /// none if the piece is used up before.
    pub fn next_line(&mut self, piece: &mut &[u8]) -> Option<Result<Call, CallRefusal>>
        ensures fed { NextLine self.old self.new piece.old.now piece.new.now result }
        ensures shorter { OnSome result (length piece.new.now < length piece.old.now) }
        ensures used_up { IfNone result (piece.new.now ≡ []) }
    {
        while let Some((byte, rest)) = piece.split_first() {
            *piece = rest;
            if *byte == b'\n' {
                return Some(self.end_line());
            }
            self.keep(*byte);
        }
        None
    }

    /// The verdict on a last line that has no end; none if nothing came after the last end.
    pub fn finish(&mut self) -> Option<Result<Call, CallRefusal>>
        ensures { Finishes self.old self.new result }
    {
        if self.count == 0 {
            return None;
        }
        Some(self.end_line())
    }

    // One more byte of the line.
    fn keep(&mut self, byte: u8)
        ensures { (bytes : List ℕ) → Pending self.old bytes → Pending self.new (bytes ++ byte ∷ []) }
    {
        if self.count < LONGEST {
            self.kept[self.count] = byte;
            self.count += 1;
        } else {
            self.count = LONGEST + 1;
        }
    }

    // The verdict on the line, after which the next one begins.
    fn end_line(&mut self) -> Result<Call, CallRefusal>
        ensures verdict { (bytes : List ℕ) → Pending self.old bytes → result ≡ parsed bytes }
        ensures pending { Pending self.new [] }
    {
        let verdict = self.verdict();
        self.count = 0;
        verdict
    }

    fn verdict(&self) -> Result<Call, CallRefusal>
        ensures { (bytes : List ℕ) → Pending self.now bytes → result ≡ parsed bytes }
    {
        if self.count <= LONGEST {
            parse_command(&self.kept[..self.count])
        } else {
            Err(CallRefusal::NoCommand)
        }
    }
}
