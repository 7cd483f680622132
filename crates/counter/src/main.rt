// Opens an enquiry on the rule file RULES and answers the commands of standard input, each reply in a line of its own; or
// says where and why the file is bad.
#![tactic(auto)]

use commands::{LINE, write_options};
use file_enquiry::{FileEnquiry, FileSpace, open_file};
use loading::{LIMIT, load_rules};
use std::io;
use std::io::{BufWriter, Write};
use std::process::ExitCode;

mod talk;

fn main(rt: HostRuntime) -> ExitCode {
    match run(&rt) {
        Ok(()) => ExitCode::SUCCESS,
        Err(e) => {
            let _ = eprintln!(rt; "counter: {e}");
            ExitCode::FAILURE
        }
    }
}

fn run(rt: &HostRuntime) -> io::Result<()> {
    let heap = rt.alloc();
    let mut buffer = vec![in heap; 0u8; LIMIT]?;
    let space = FileSpace::reserve(heap)?;
    let mut out = BufWriter::new(heap, rt.stdout())?;
    let bytes = load_rules(rt, &mut buffer);
    match open_file(space, bytes) {
        Ok(enquiry) => serve(rt, &mut out, enquiry)?,
        Err(fault) => writeln!(out, "{fault}")?,
    }
    out.flush()
}

// Says how many options there are, and answers commands to the end of standard input.
fn serve<W: Write>(rt: &HostRuntime, out: &mut W, mut enquiry: FileEnquiry) -> io::Result<()> {
    let mut line = [0; LINE];
    let count = write_options(enquiry.options(), &mut line);
    out.write_all(&line[..count])?;
    talk::talk(&mut rt.stdin(), out, &mut enquiry)
}
