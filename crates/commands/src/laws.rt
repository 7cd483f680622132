// The laws of command lines, of cutting bytes into them, and of the replies' lines, as theorems.
ghost use Rattle.commands.specs.Laws.{LongRefused, OthersRefused, ReadIfPrinted, ShortCommands, UniqueCommands};
ghost use Rattle.commands.specs.Lines.{AllWritten, LinesWritten};
ghost use Rattle.commands.specs.ReplyLaws.{OneLines, ToldApart};
ghost use Rattle.commands.specs.Splitting.{CouldBePending, Splits};

/// A line is read as a call exactly if it is the call's printed form, and any other is refused. A line is the printed
/// form of one call at most, and no command is longer than 21 bytes.
pub fn command_laws()
    ensures read { ReadIfPrinted }
    ensures others { OthersRefused }
    ensures unique { UniqueCommands }
    ensures short { ShortCommands }
    ensures long { LongRefused }
{}

/// However the bytes are cut into pieces: fed one after the other, they get the verdicts on their lines, in order. Of every
/// splitter there are bytes, none at all perhaps, that could be pending. The lines of bytes are those that were written
/// into them, each with its end.
pub fn splitting_laws()
    ensures splits { Splits }
    ensures some { CouldBePending }
    ensures lines { LinesWritten }
    ensures all { AllWritten }
{}

/// The lines of the replies have just one line's end, and two replies with the same line are of one kind, with the same
/// number and, of what is consistent, the same value at each option that has a letter.
pub fn reply_laws()
    ensures one_line { OneLines }
    ensures told_apart { ToldApart }
{}
