// Reading a command line.
ghost use Rattle.std.specs.Prelude.{◌≡◌, ◌↔◌, IfErr, Ok};
ghost use Rattle.calls.specs.declared.call.Call.{Call as CallValue};
ghost use Rattle.calls.specs.declared.refusal.CallRefusal.TheVariants.{NoCommand};
ghost use Rattle.commands.specs.Commands.{command_of, Of32Bits};
ghost use Rattle.commands.specs.Parsing.{next_in, parsed, settle_in, valued, word_in};

use crate::number::number_in;
use calls::{Call, CallRefusal};

/// The call that a line orders; its end is no part of it.
pub fn parse_command(line: &[u8]) -> Result<Call, CallRefusal>
    ensures answer { result ≡ parsed line.now }
    ensures printed { (call : CallValue) → (result ≡ Ok call) ↔ (Of32Bits call × (line.now ≡ command_of call)) }
    ensures refused { IfErr result (λ refusal. refusal ≡ NoCommand) }
{
    let call = word_in(line).or(next_in(line)).or(settle_in(line));
    call.ok_or(CallRefusal::NoCommand)
}

// The commands of one word.
fn word_in(line: &[u8]) -> Option<Call>
    ensures { result ≡ word_in line.now }
{
    if line == b"back".as_slice() {
        Some(Call::Back)
    } else if line == b"again".as_slice() {
        Some(Call::Again)
    } else if line == b"look".as_slice() {
        Some(Call::Look)
    } else {
        None
    }
}

// `next` with the number of choices.
fn next_in(line: &[u8]) -> Option<Call>
    ensures { result ≡ next_in line.now }
{
    let digits = line.strip_prefix(b"next ")?;
    let budget = number_in(digits)?;
    Some(Call::Next { budget })
}

// `settle` with an option and a value.
fn settle_in(line: &[u8]) -> Option<Call>
    ensures { result ≡ settle_in line.now }
{
    let settled = line.strip_prefix(b"settle ")?;
    valued(settled, b" yes", true).or(valued(settled, b" no", false))
}

// The settlement of an option to a value, whose word stands after the number.
fn valued(settled: &[u8], word: &[u8], value: bool) -> Option<Call>
    ensures { result ≡ valued settled.now word.now value }
{
    let digits = settled.strip_suffix(word)?;
    let option = number_in(digits)?;
    Some(Call::Settle { option, value })
}
