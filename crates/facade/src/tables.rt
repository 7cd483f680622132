// Questions to a table sheet, and to a projection over one.
ghost use Rattle.std.specs.Prelude.{◌&&◌};
ghost use Rattle.folders.specs.Entries.{project};
ghost use Rattle.ruleformat.specs.Tables.{table_checks, table_of};
ghost use Rattle.sheet_rules.specs.TableReply.{table_reply};
ghost use Rattle.facade.specs.Outcomes.{hides, passes, told, Outcome};

use crate::failure::code;
use crate::sheet::{answer, answer_hiding};
use sheets::TableSheet;
use std::alloc::Global;

/// Answers questions to the table sheet that a body holds, with so many options. Each question is two masks, of the
/// options known yes and of those known no, and the reply's masks take their place. The result is 0; 1 where the body is
/// refused, or there are 0 options or more than 64, and 2 where there is no memory, and then the masks stay.
#[unsafe(no_mangle)]
pub extern "C" fn answer_table(heap: Global, options: u32, body: &[u8], masks: &mut [u64]) -> u32
    ensures { Outcome (passes (told options) && passes (table_checks options 0 body.now)) (passes (told options) && passes (table_checks options 0 body.now)) (table_reply (table_of body.now)) masks.old result masks.new }
{
    code(answer::<TableSheet>(heap, options, body, masks))
}

/// The same of a projection that hides the options of a mask; a mask is refused as a rule file's is.
#[unsafe(no_mangle)]
pub extern "C" fn answer_table_hiding(
    heap: Global,
    options: u32,
    body: &[u8],
    hidden: u64,
    masks: &mut [u64],
) -> u32
    ensures { Outcome (passes (told options) && passes (table_checks options 0 body.now)) (passes (told options) && passes (table_checks options 0 body.now) && hides options hidden) (project hidden (table_reply (table_of body.now))) masks.old result masks.new }
{
    code(answer_hiding::<TableSheet>(heap, options, body, hidden, masks))
}
