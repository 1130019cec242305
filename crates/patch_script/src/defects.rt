//! The names in lines, and what is wrong with a line that has no meaning.
ghost use Rattle.std.specs.Prelude.{◌≡◌};
ghost use Rattle.patch_script.specs.Name.{name_of};

use std::fmt;
use std::fmt::{Display, Formatter};
use thiserror::Error;

/// A name in a line's object.
#[derive(Clone, Copy, Debug, PartialEq, Eq)]
pub enum Name {
    Op,
    Block,
    Start,
    Len,
    Hex,
    After,
    Drop,
    Writer,
    A,
    B,
    Take,
    Back,
    Group,
    On,
    Key,
    Times,
    Extent,
}

impl Name {
    /// The name, as it stands in a line.
    pub fn as_str(self) -> &'static str
        ensures { result.now ≡ name_of self }
    {
        match self {
            Name::Op => "op",
            Name::Block => "block",
            Name::Start => "start",
            Name::Len => "len",
            Name::Hex => "hex",
            Name::After => "after",
            Name::Drop => "drop",
            Name::Writer => "writer",
            Name::A => "a",
            Name::B => "b",
            Name::Take => "take",
            Name::Back => "back",
            Name::Group => "group",
            Name::On => "on",
            Name::Key => "key",
            Name::Times => "times",
            Name::Extent => "extent",
        }
    }

    /// What the value has to be.
    fn wanted(self) -> &'static str {
        match self {
            Name::Op => {
                "one of patch, merge, send, complete, view, show, disk, group, engage, disengage, depend, close, pending and sync"
            }
            Name::Block
            | Name::Start
            | Name::A
            | Name::B
            | Name::Group
            | Name::On
            | Name::Times
            | Name::Extent => "a whole number from 0 to 4294967295",
            Name::Len => "a whole number from 1 to 4294967295",
            Name::Writer => "a whole number from 0 to 7",
            Name::Hex => "a text of hexadecimal digits, two for each byte",
            Name::Key => "a text",
            Name::Drop => "true or false",
            Name::After | Name::Take | Name::Back => {
                "a list of whole numbers from 0 to 4294967295"
            }
        }
    }
}

impl Display for Name {
    fn fmt<W: fmt::Write>(&self, f: &mut Formatter<W>) -> fmt::Result {
        f.write_str(self.as_str())
    }
}

/// What is wrong with a line.
#[derive(Clone, Copy, Debug, PartialEq, Eq, Error)]
pub enum Defect {
    /// The line is no JSON text, or one that nests deeper than the reader of JSON goes. It is read up to this byte, counted from 1.
    #[error("not JSON at column {column}, or nested deeper than 127 levels")]
    NotJson { column: usize },
    /// The line begins with the mark of UTF-8 that some editors write in front of a text.
    #[error("it begins with a byte order mark, which is no JSON")]
    ByteOrderMark,
    /// Each byte of the line's text stands beside a zero.
    #[error("it looks like UTF-16, and a script is UTF-8")]
    Utf16,
    #[error("not a JSON object")]
    NotAnObject,
    /// What has to be there isn't.
    #[error("\"{0}\" is missing")]
    Missing(Name),
    /// The value is of another kind than it has to be, or out of its range.
    #[error("\"{0}\" is not {wanted}", wanted = .0.wanted())]
    Wrong(Name),
    /// The line of a store script has an op of another kind than it has to be, or an unknown one.
    #[error("\"op\" is not one of put, get, delete, reclaim, group, engage, disengage, depend, close, pending and sync")]
    NoCommand,
    /// The value of a put would have more bytes than it may, by what is given here.
    #[error("\"{0}\" makes a value of more than 1048576 bytes")]
    TooLong(Name),
    /// The script is one of fewer writers.
    #[error("\"writer\" is not below the number of writers")]
    NoSuchWriter,
    /// The script is one of writers on threads, which have no sync.
    #[error("\"op\" is sync, which writers on threads don't have")]
    NoSync,
}
