// Reading a rule file record by record into room that was reserved before.
ghost use Rattle.std.specs.Prelude.{◌≡◌, ◌+◌, ◌≤◌, length, vec_len, IsSome};
ghost use Rattle.std.specs.Array.Iter.{array_into_iter_items};
ghost use Rattle.rulefile.specs.Room.{HasRoom};

use crate::file::RuleFile;
use crate::kind::Kind;
use entries::EntrySpace;
use std::array::IntoIter;

mod keep;
mod steps;

pub use steps::read;

// What the records so far hold, the kind of the last one, and the room that is left.
#[derive(Drop)]
pub(crate) struct Reader<'a> {
    last: Option<Kind>,
    file: RuleFile<'a>,
    spare: IntoIter<EntrySpace, 4>,
    ghost told: { IsSome last → 1 ≤ file.parts.options },
    ghost room: { HasRoom file.parts.tables file.parts.clauses file.parts.folders },
    ghost paired: { vec_len file.parts.folders + length (array_into_iter_items spare) ≡ 4 },
}
