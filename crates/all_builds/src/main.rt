// Opens an enquiry on the rule file RULES and lists all builds that fit, each in a line of its own; or says where and why
// the file is bad.
#![tactic(auto)]

use file_enquiry::{FileSpace, open_file};
use loading::{LIMIT, load_rules};
use std::io;
use std::io::{BufWriter, Write};
use std::process::ExitCode;

mod list;

fn main(rt: HostRuntime) -> ExitCode {
    match run(&rt) {
        Ok(()) => ExitCode::SUCCESS,
        Err(e) => {
            let _ = eprintln!(rt; "all_builds: {e}");
            ExitCode::FAILURE
        }
    }
}

fn run(rt: &HostRuntime) -> io::Result<()> {
    let heap = rt.alloc();
    let mut buffer = vec![in heap; 0u8; LIMIT]?;
    let space = FileSpace::reserve(heap)?;
    let mut out = BufWriter::new(heap, rt.stdout())?;
    let bytes = load_rules(rt, &mut buffer);
    match open_file(space, bytes) {
        Ok(mut enquiry) => list::list(&mut out, &mut enquiry)?,
        Err(fault) => writeln!(out, "{fault}")?,
    }
    out.flush()
}
