//! What is wrong where a file is damaged.

ghost use Rattle.std.specs.Prelude.{◌≡◌};
ghost use Rattle.fs_records.specs.Names.{name_of};

use std::fmt;

/// The rule that fails at a damaged place. The first four are rules of a transaction, the others of
/// one of its data records. Source: the FileStorage format notes.
#[derive(Clone, Copy, Debug, PartialEq, Eq)]
pub enum Field {
    /// A transaction's status is neither committed (20 in hexadecimal) nor packed (70).
    Status,
    /// A transaction's length leaves no room for its header and its three texts.
    Length,
    /// A transaction's closing length isn't the one in its header.
    Closing,
    /// A transaction's number isn't above those before it, or is 2^64-1.
    Tid,
    /// A data record's header or payload doesn't fit into its transaction.
    Size,
    /// A data record names another transaction's number.
    Serial,
    /// A data record names another transaction's place.
    Position,
    /// A data record's two version bytes aren't zero.
    Version,
    /// A back pointer leads to no earlier record of the same object, and isn't 0.
    Back,
}

impl Field {
    /// The field's name, in lower case.
    pub fn name(self) -> &'static str
        ensures { result.now ≡ name_of self }
    {
        match self {
            Field::Status => "status",
            Field::Length => "length",
            Field::Closing => "closing",
            Field::Tid => "tid",
            Field::Size => "size",
            Field::Serial => "serial",
            Field::Position => "position",
            Field::Version => "version",
            Field::Back => "back",
        }
    }
}

impl fmt::Display for Field {
    ghost use Rattle.std.specs.Prelude.{Some};
    ghost use Rattle.fs_records.specs.Names.{name_of};

    ghost output = { λ field. Some (name_of field) };

    fn fmt<W: fmt::Write>(&self, f: &mut fmt::Formatter<W>) -> fmt::Result {
        f.write_str(self.name())
    }
}
