// A folder's record: entries of twelve bytes, added to a draft one by one.
ghost use Rattle.std.specs.Prelude.{◌≡◌, ◌%◌, ◌≤◌, [], ◌∷◌, length, OnOk};
ghost use Rattle.refusals.specs.Checks.{judged, seen, when};
ghost use Rattle.refusals.specs.declared.refusal.Refusal.TheVariants.{Unfit};
ghost use Rattle.ruleformat.specs.Folders.{entries_checks, entries_of, entry_pieces, fields_of, folder_checks, unfit_folder};
ghost use Rattle.ruleformat.specs.Records.{at};
ghost use Rattle.entries.specs.Drafts.{drafted};

use crate::bytes::read_u64;
use entries::{Draft, EntryFields, EntrySpace};
use refusals::{Body, FolderFault, RecordFault, Refusal};

const ENTRY_SIZE: usize = 12;

const MAX_ENTRY_BYTES: usize = 384;

// The folder that a body holds, as a draft told the number of options and of the rules below, or why it is refused.
pub(crate) fn read_folder(
    space: EntrySpace,
    body: Body<'_>,
    options: u32,
    below: u32,
) -> Result<Draft, FolderFault>
    requires { (1 ≤ options) × (options ≤ 64) }
    ensures { seen drafted result ≡ judged (folder_checks options below body.entry.place body.entry.bytes.now) (entries_of body.entry.bytes.now) }
{
    check_shape(body)?;
    let mut draft = Draft::new(space, options, below);
    add_entries(&mut draft, body)?;
    Ok(draft)
}

// No entry is cut, and there are 1 to 32.
fn check_shape(body: Body<'_>) -> Result<(), RecordFault>
    ensures { result ≡ judged (when (unfit_folder body.entry.bytes.now) (at Unfit body.entry.place) ∷ []) tt }
{
    let size = body.bytes.len();
    if size == 0 || size > MAX_ENTRY_BYTES || size % ENTRY_SIZE != 0 {
        return Err(body.fault(Refusal::Unfit));
    }
    Ok(())
}

// Adds every entry of the body, from the first on, to a draft that has none.
fn add_entries(draft: &mut Draft, body: Body<'_>) -> Result<(), FolderFault>
    requires told { (1 ≤ draft.old.options) × (draft.old.options ≤ 64) }
    requires empty { drafted draft.old ≡ [] }
    requires whole { (length body.bytes.now % 12 ≡ 0) × (length body.bytes.now ≤ 384) }
    ensures answer { result ≡ judged (entries_checks draft.old.options draft.old.below body.entry.place 0 (entry_pieces body.entry.bytes.now)) tt }
    ensures entries { OnOk result (drafted draft.new ≡ entries_of body.entry.bytes.now) }
{
    let (entries, _) = body.bytes.as_chunks::<ENTRY_SIZE>();
    for (item, entry) in entries.iter().enumerate() {
        draft
            .add(read_fields(entry))
            .map_err(|refusal| FolderFault::Entry {
                refusal,
                place: body.place,
                item,
            })?;
    }
    Ok(())
}

// The fields of an entry.
fn read_fields(entry: &[u8; ENTRY_SIZE]) -> EntryFields
    ensures { result ≡ fields_of entry.now }
{
    EntryFields {
        op: entry[0],
        first: entry[1],
        second: entry[2],
        third: entry[3],
        word: read_u64(&entry[4..]),
    }
}
