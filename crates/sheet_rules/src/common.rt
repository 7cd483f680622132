// What the rows that agree have in common.
ghost use Rattle.std.specs.Prelude.{◌≡◌};
ghost use Rattle.sheet_rules.specs.Gathered.{add_common, add_first, halved, with_row};

use assignment::Assignment;

// The bits that every row has, and those that some row has.
#[derive(Clone, Copy)]
pub(crate) struct Common {
    every: u16,
    some: u16,
}

impl Common {
    // With one more row, or with the first.
    pub(crate) fn with_row(before: Option<Common>, row: u16) -> Common
        ensures { result ≡ with_row before row }
    {
        match before {
            None => Common {
                every: row,
                some: row,
            },
            Some(common) => Common {
                every: common.every & row,
                some: common.some | row,
            },
        }
    }

    // The question with each column's value added that the rows share.
    pub(crate) fn add_to(self, columns: &[u8], question: Assignment) -> Assignment
        ensures { result ≡ add_common columns.now self question }
    {
        let mut common = self;
        let mut reply = question;
        for column in columns {
            reply = common.add_first(u32::from(*column), reply);
            common = common.halved();
        }
        reply
    }

    // Adds the first column's value where the rows share it.
    fn add_first(self, column: u32, reply: Assignment) -> Assignment
        ensures { result ≡ add_first column self reply }
    {
        let with_yes = if self.every % 2 == 1 {
            reply.with(column, true)
        } else {
            reply
        };
        if self.some % 2 == 1 {
            return with_yes;
        }
        with_yes.with(column, false)
    }

    // What is left behind the first column.
    fn halved(self) -> Common
        ensures { result ≡ halved self }
    {
        Common {
            every: self.every / 2,
            some: self.some / 2,
        }
    }
}
