// The faults of a rule file: a record's fault within a sheet's or a folder's, and these within the file's.
ghost use Rattle.std.specs.Prelude.{◌≡◌, Some};
ghost use Rattle.refusals.specs.declared.fault.FileFault.TheVariants.{Record as file_record, Sheet as file_sheet, Folder as file_folder};
ghost use Rattle.refusals.specs.declared.fault.FolderFault.TheVariants.{Record as folder_record};
ghost use Rattle.refusals.specs.declared.fault.SheetFault.TheVariants.{Record as sheet_record};
ghost use Rattle.refusals.specs.Told.{refusal_of, layer_of, place_of, item_of, line_of};

use crate::layer::Layer;
use crate::refusal::Refusal;
use std::error::Error;
use std::fmt;

/// A fault of the file as a list of records. `place` is the byte at which the record begins or should begin.
#[derive(Clone, Copy, Debug, PartialEq, Eq)]
pub struct RecordFault {
    pub refusal: Refusal,
    pub place: usize,
}

/// A fault of a sheet: of its record, or of the column, row or clause that `item` counts from 0.
#[derive(Clone, Copy, Debug, PartialEq, Eq)]
pub enum SheetFault {
    Record(RecordFault),
    Item {
        refusal: Refusal,
        place: usize,
        item: usize,
    },
}

/// A fault of a folder: of its record, or of the entry that `item` counts from 0.
#[derive(Clone, Copy, Debug, PartialEq, Eq)]
pub enum FolderFault {
    Record(RecordFault),
    Entry {
        refusal: Refusal,
        place: usize,
        item: usize,
    },
}

/// A fault of a rule file, with the fault of the layer below whole.
#[derive(Clone, Copy, Debug, PartialEq, Eq)]
pub enum FileFault {
    Record(RecordFault),
    Start { refusal: Refusal, place: usize },
    Sheet(SheetFault),
    Folder(FolderFault),
    Question { refusal: Refusal, place: usize },
}

impl From<RecordFault> for SheetFault {
    ghost from_gives = { λ x r. r ≡ sheet_record x };

    fn from(fault: RecordFault) -> SheetFault {
        SheetFault::Record(fault)
    }
}

impl From<RecordFault> for FolderFault {
    ghost from_gives = { λ x r. r ≡ folder_record x };

    fn from(fault: RecordFault) -> FolderFault {
        FolderFault::Record(fault)
    }
}

impl From<RecordFault> for FileFault {
    ghost from_gives = { λ x r. r ≡ file_record x };

    fn from(fault: RecordFault) -> FileFault {
        FileFault::Record(fault)
    }
}

impl From<SheetFault> for FileFault {
    ghost from_gives = { λ x r. r ≡ file_sheet x };

    fn from(fault: SheetFault) -> FileFault {
        FileFault::Sheet(fault)
    }
}

impl From<FolderFault> for FileFault {
    ghost from_gives = { λ x r. r ≡ file_folder x };

    fn from(fault: FolderFault) -> FileFault {
        FileFault::Folder(fault)
    }
}

impl FileFault {
    /// Why the file is refused.
    pub fn refusal(self) -> Refusal
        ensures { result ≡ refusal_of self }
    {
        match self {
            FileFault::Record(fault)
            | FileFault::Sheet(SheetFault::Record(fault))
            | FileFault::Folder(FolderFault::Record(fault)) => fault.refusal,
            FileFault::Start { refusal, .. }
            | FileFault::Sheet(SheetFault::Item { refusal, .. })
            | FileFault::Folder(FolderFault::Entry { refusal, .. })
            | FileFault::Question { refusal, .. } => refusal,
        }
    }

    /// The layer in which the fault was found.
    pub fn layer(self) -> Layer
        ensures { result ≡ layer_of self }
    {
        match self {
            FileFault::Record(_)
            | FileFault::Sheet(SheetFault::Record(_))
            | FileFault::Folder(FolderFault::Record(_)) => Layer::Record,
            FileFault::Start { .. } => Layer::Start,
            FileFault::Sheet(SheetFault::Item { .. }) => Layer::Sheet,
            FileFault::Folder(FolderFault::Entry { .. }) => Layer::Folder,
            FileFault::Question { .. } => Layer::Question,
        }
    }

    /// The byte of the file at which the faulty record begins or should begin.
    pub fn place(self) -> usize
        ensures { result ≡ place_of self }
    {
        match self {
            FileFault::Record(fault)
            | FileFault::Sheet(SheetFault::Record(fault))
            | FileFault::Folder(FolderFault::Record(fault)) => fault.place,
            FileFault::Start { place, .. }
            | FileFault::Sheet(SheetFault::Item { place, .. })
            | FileFault::Folder(FolderFault::Entry { place, .. })
            | FileFault::Question { place, .. } => place,
        }
    }

    /// The column, row, clause or entry, counted from 0; 0 where the layer has no items.
    pub fn item(self) -> usize
        ensures { result ≡ item_of self }
    {
        match self {
            FileFault::Sheet(SheetFault::Item { item, .. })
            | FileFault::Folder(FolderFault::Entry { item, .. }) => item,
            _ => 0,
        }
    }
}

/// Writes the line that the user sees, without the line's end.
impl fmt::Display for FileFault {
    ghost output = { λ fault. Some (line_of fault) };

    fn fmt<W: fmt::Write>(&self, f: &mut fmt::Formatter<W>) -> fmt::Result {
        let number = self.refusal().number();
        let layer = self.layer();
        let place = self.place();
        let item = self.item();
        write!(f, "refused {number} {layer} {place} {item}")
    }
}

impl Error for FileFault {}
