// What was tried, counted.
use std::io;
use std::io::Write;

const FEW: usize = 500;

#[derive(Default, Drop)]
pub(crate) struct Tally {
    files: u64,
    without: u64,
    with_few: u64,
    with_more: u64,
    calls: u64,
    listed: u64,
    differing: u64,
}

impl Tally {
    /// One file more, which offers so many builds.
    pub(crate) fn add_file(&mut self, builds: usize) {
        self.files = self.files.saturating_add(1);
        let kind = if builds == 0 {
            &mut self.without
        } else if builds <= FEW {
            &mut self.with_few
        } else {
            &mut self.with_more
        };
        *kind = kind.saturating_add(1);
    }

    pub(crate) fn add_call(&mut self) {
        self.calls = self.calls.saturating_add(1);
    }

    pub(crate) fn add_build(&mut self) {
        self.listed = self.listed.saturating_add(1);
    }

    pub(crate) fn add_difference(&mut self) {
        self.differing = self.differing.saturating_add(1);
    }

    pub(crate) fn has_agreed(&self) -> bool {
        self.differing == 0
    }

    pub(crate) fn write<W: Write>(&self, out: &mut W) -> io::Result<()> {
        let agreed = self.files.saturating_sub(self.differing);
        writeln!(
            out,
            "files {}\nwithout builds {}\nwith up to {FEW} builds {}\nwith more builds {}",
            self.files, self.without, self.with_few, self.with_more
        )?;
        writeln!(
            out,
            "calls {}\nbuilds listed {}\nagreed {agreed}",
            self.calls, self.listed
        )
    }
}
