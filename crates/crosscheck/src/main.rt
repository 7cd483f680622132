// Makes rule files pseudo-randomly, and holds what enquiries on them answer against what trying each build tells.
#![tactic(auto)]

use std::io;
use std::io::{BufWriter, Write};
use std::process::ExitCode;

mod builds;
mod buyer;
mod bytes;
mod calling;
mod contents;
mod differs;
mod generate;
mod masks;
mod opening;
mod random;
mod session;
mod tally;
mod trial;

const FILES: u64 = 12_000;

fn main(rt: HostRuntime) -> ExitCode {
    match run(&rt) {
        Ok(true) => ExitCode::SUCCESS,
        Ok(false) => ExitCode::FAILURE,
        Err(e) => {
            let _ = eprintln!(rt; "crosscheck: {e}");
            ExitCode::FAILURE
        }
    }
}

// Whether all files agreed.
fn run(rt: &HostRuntime) -> io::Result<bool> {
    let heap = rt.alloc();
    let mut out = BufWriter::new(heap, rt.stdout())?;
    let mut counts = tally::Tally::default();
    for number in 0..FILES {
        match session::try_file(heap, number, &mut counts) {
            Ok(()) => {}
            Err(differs::Stop::Memory(error)) => return Err(io::Error::from(error)),
            Err(differs::Stop::Differs { expected, found }) => {
                counts.add_difference();
                writeln!(out, "file {number}: expected {expected}, found {found}")?;
            }
        }
    }
    counts.write(&mut out)?;
    out.flush()?;
    Ok(counts.has_agreed())
}
