// The part of a rule file in which a fault was found.
ghost use Rattle.std.specs.Prelude.{◌≡◌, Some};
ghost use Rattle.refusals.specs.Numbers.{name_of};

use std::fmt;

#[derive(Clone, Copy, Debug, PartialEq, Eq)]
pub enum Layer {
    /// The file as a list of records.
    Record,
    /// The number of options and what the start knows.
    Start,
    /// A table sheet or a clause sheet.
    Sheet,
    /// A folder's entries.
    Folder,
    /// The asked rule.
    Question,
}

impl Layer {
    /// The word that the user sees.
    pub fn name(self) -> &'static str
        ensures { result.now ≡ name_of self }
    {
        match self {
            Layer::Record => "record",
            Layer::Start => "start",
            Layer::Sheet => "sheet",
            Layer::Folder => "folder",
            Layer::Question => "question",
        }
    }
}

/// Writes the layer's name.
impl fmt::Display for Layer {
    ghost output = { λ layer. Some (name_of layer) };

    fn fmt<W: fmt::Write>(&self, f: &mut fmt::Formatter<W>) -> fmt::Result {
        f.write_str(self.name())
    }
}
