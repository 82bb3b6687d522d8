ghost use Rattle.std.specs.Prelude.{Some};
ghost use Rattle.store.specs.Answers.{move_error_words, put_error_words};

use std::error::Error;
use std::fmt;

/// Why a put adds no entry.
#[derive(Clone, Copy, PartialEq, Eq, Debug)]
pub enum PutError {
    /// The partition has the name already.
    Present,
    /// The weights of all entries and of this one exceed the capacity.
    Full,
    /// The partition is above 511, or the name is no short form.
    BadKey,
}

impl fmt::Display for PutError {
    ghost output = { λ error. Some (put_error_words error) };

    fn fmt<W: fmt::Write>(&self, f: &mut fmt::Formatter<W>) -> fmt::Result {
        f.write_str(match self {
            PutError::Present => "the partition has the name already",
            PutError::Full => "the entry does not fit",
            PutError::BadKey => "the partition is above 511, or the name is no short form",
        })
    }
}

impl Error for PutError {}

/// Why a move passes no entry on.
#[derive(Clone, Copy, PartialEq, Eq, Debug)]
pub enum MoveError {
    /// There is no such entry, or no such partition to move it to.
    Absent,
    /// The other partition has the name already.
    Present,
}

impl fmt::Display for MoveError {
    ghost output = { λ error. Some (move_error_words error) };

    fn fmt<W: fmt::Write>(&self, f: &mut fmt::Formatter<W>) -> fmt::Result {
        f.write_str(match self {
            MoveError::Absent => "there is no such entry or partition",
            MoveError::Present => "the other partition has the name already",
        })
    }
}

impl Error for MoveError {}

/// An entry as it is listed: the length of its name, and its record number.
#[derive(Clone, Copy, PartialEq, Eq, Debug)]
pub struct ListedEntry {
    pub len: u8,
    pub number: u64,
}
