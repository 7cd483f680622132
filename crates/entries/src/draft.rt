// A folder that is being filled: it is told the number of options and of the rules below, and checks each entry added.
ghost use Rattle.std.specs.Prelude.{◌≤◌, vec_len, vec_capacity};

use crate::entry::Entry;

mod carrying;
mod methods;

#[derive(Drop)]
pub struct Draft {
    options: u32,
    below: u32,
    entries: Vec<Entry>,
    ghost few: { vec_len entries ≤ 32 },
    ghost room: { 32 ≤ vec_capacity entries },
}
