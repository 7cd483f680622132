// What is known of a table's columns, as masks that rows are held to.
ghost use Rattle.std.specs.Prelude.{◌≡◌};
ghost use Rattle.sheet_rules.specs.Marks.{fits, known_of, led_by};

use assignment::Assignment;

// One past the last mask of 16 bits.
const ROW_END: u32 = 65536;

// Bit i of `yes` is set where column i is known yes, and of `no` where it is known no. Rows have 16 bits: a column
// from 16 on that is known yes sets bit 16, which no row has.
#[derive(Clone, Copy)]
pub(crate) struct Known {
    yes: u32,
    no: u16,
}

impl Known {
    pub(crate) fn of(columns: &[u8], question: Assignment) -> Known
        ensures { result ≡ known_of columns.now question }
    {
        columns
            .iter()
            .rev()
            .fold(Known { yes: 0, no: 0 }, |known, column| {
                known.led_by(u32::from(*column), question)
            })
    }

    // With one more column, which becomes the first.
    fn led_by(self, column: u32, question: Assignment) -> Known
        ensures { result ≡ led_by column question self }
    {
        let yes = u32::from(question.knows(column, true));
        let no = u16::from(question.knows(column, false));
        Known {
            yes: self.yes.saturating_mul(2).saturating_add(yes).min(ROW_END),
            no: self.no.wrapping_mul(2).wrapping_add(no),
        }
    }

    // Whether a row has no bit that is known no, and all that are known yes.
    pub(crate) fn agrees(self, row: u16) -> bool
        ensures { result ≡ fits self row }
    {
        row & self.no == 0 && u32::from(row) & self.yes == self.yes
    }
}
