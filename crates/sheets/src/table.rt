// A table sheet: some options as columns, and rows that say yes or no to each.
ghost use Rattle.std.specs.Prelude.{◌≡◌, ◌+◌, ◌%◌, ◌≤◌, true, false, length, drop, MatchResult};
ghost use Rattle.refusals.specs.Checks.{judged};
ghost use Rattle.refusals.specs.declared.refusal.Refusal.TheVariants.{Unfit};
ghost use Rattle.ruleformat.specs.Records.{at};
ghost use Rattle.ruleformat.specs.Tables.{column_checks, columns_of, row_checks, rows_in, rows_of, table_checks, unfit_table, width as width_of};
ghost use Rattle.sheets.specs.Views.{table_body};

use crate::checks::check_option;
use crate::counted::{split_counted, split_whole};
use crate::sheet::{Sheet, SheetBody};
use crate::walk::Rows;
use assignment::has_bit_from;
use refusals::{Body, RecordFault, Refusal, SheetFault};

const MAX_ROW_BYTES: usize = 512;

/// A table sheet over the part of the file that is its body.
#[derive(Clone, Copy)]
pub struct TableSheet<'a> {
    body: &'a [u8],
}

impl SheetBody for TableSheet<'_> {
    ghost body_of = { table_body };
}

impl<'a> Sheet<'a> for TableSheet<'a> {
    ghost checks = { table_checks };

    fn read(body: Body<'a>, options: u32) -> Result<TableSheet<'a>, SheetFault> {
        let (columns, rows) = split_table(body)?;
        check_columns(columns, body.place, options)?;
        check_rows(rows, columns.len() as u32, body.place)?;
        Ok(TableSheet { body: body.bytes })
    }
}

impl<'a> TableSheet<'a> {
    /// The columns, which are options.
    pub fn columns(&self) -> &'a [u8]
        ensures { result.now ≡ columns_of (table_body self.now) }
    {
        match split_counted(self.body) {
            None => &[],
            Some((columns, _)) => columns,
        }
    }

    /// The rows, from the first on.
    pub fn rows(&self) -> Rows<'a>
        ensures { rows_in result.rest.now ≡ rows_of (table_body self.now) }
    {
        match split_counted(self.body) {
            None => Rows { rest: &[] },
            Some((_, rest)) => Rows { rest },
        }
    }
}

// The columns and the rows, where the body has room for the columns and for whole rows.
fn split_table(body: Body<'_>) -> Result<(&[u8], &[u8]), RecordFault>
    ensures { MatchResult result (λ p. (unfit_table body.entry.bytes.now ≡ false) × (p.0.now ≡ columns_of body.entry.bytes.now) × (p.1.now ≡ drop (1 + width_of body.entry.bytes.now) body.entry.bytes.now) × (length p.0.now ≡ width_of body.entry.bytes.now) × (length p.0.now ≤ 16)) (λ e. (unfit_table body.entry.bytes.now ≡ true) × (e ≡ at Unfit body.entry.place)) }
{
    let unfit = body.fault(Refusal::Unfit);
    let (columns, rows) = split_whole(body.bytes).ok_or(unfit)?;
    if rows.len() % 2 == 1 || rows.len() > MAX_ROW_BYTES {
        return Err(unfit);
    }
    Ok((columns, rows))
}

// Each column is an option, above the one before it.
fn check_columns(columns: &[u8], place: usize, options: u32) -> Result<(), SheetFault>
    ensures { result ≡ judged (column_checks options place 0 0 columns.now) tt }
{
    let mut low = 0;
    for (item, column) in columns.iter().enumerate() {
        let option = u32::from(*column);
        check_option(option, low, options).map_err(|refusal| SheetFault::Item {
            refusal,
            place,
            item,
        })?;
        low = option + 1;
    }
    Ok(())
}

// No row sets a bit that stands for no column.
fn check_rows(rows: &[u8], columns: u32, place: usize) -> Result<(), SheetFault>
    requires { length rows.now % 2 ≡ 0 }
    ensures { result ≡ judged (row_checks columns place 0 (rows_in rows.now)) tt }
{
    // Pairs of bytes, and not `Rows`, whose lone last byte would be tested for at each row.
    let (pairs, _) = rows.as_chunks();
    for (item, row) in pairs.iter().enumerate() {
        if has_bit_from(u64::from(u16::from_le_bytes(*row)), columns) {
            return Err(SheetFault::Item {
                refusal: Refusal::OutOfRange,
                place,
                item,
            });
        }
    }
    Ok(())
}
