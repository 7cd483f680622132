// Reads the rule file RULES and says what it holds and what its asked rule replies to the start, or where and why it is
// bad.
#![tactic(auto)]

use loading::{LIMIT, load_rules};
use rulefile::{RuleFile, Space, read};
use rulestack::{StackSpace, ask, build};
use std::io;
use std::io::{BufWriter, Write};
use std::process::ExitCode;

mod report;
mod words;

fn main(rt: HostRuntime) -> ExitCode {
    match run(&rt) {
        Ok(()) => ExitCode::SUCCESS,
        Err(e) => {
            let _ = eprintln!(rt; "rulecheck: {e}");
            ExitCode::FAILURE
        }
    }
}

fn run(rt: &HostRuntime) -> io::Result<()> {
    let heap = rt.alloc();
    let mut buffer = vec![in heap; 0u8; LIMIT]?;
    let space = Space::reserve(heap)?;
    let stack_space = StackSpace::reserve(heap)?;
    let mut out = BufWriter::new(heap, rt.stdout())?;
    let bytes = load_rules(rt, &mut buffer);
    match read(space, bytes) {
        Ok(file) => accept(&mut out, stack_space, file)?,
        Err(fault) => writeln!(out, "{fault}")?,
    }
    out.flush()
}

fn accept<W: Write>(out: &mut W, space: StackSpace, file: RuleFile) -> io::Result<()> {
    report::report(out, &file)?;
    let options = file.options();
    let asked = file.asked();
    let start = file.start().with_no_from(options);
    let mut rules = build(space, file);
    let reply = ask(&mut rules, asked, start);
    report::write_reply(out, reply, options)
}
