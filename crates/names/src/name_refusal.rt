ghost use Rattle.std.specs.Prelude.{◌≡◌, Some};
ghost use Rattle.names.specs.Refusals.{refusal_number, refusal_words};

use std::error::Error;
use std::fmt;

/// Why a name is refused, with the number of the refusal in answers.
#[derive(Clone, Copy, PartialEq, Eq, Debug)]
pub enum NameRefusal {
    /// Its length is 0 or above 32.
    Length = 3,
    /// It has a forbidden byte.
    Forbidden = 4,
    /// It has no kept byte.
    Empty = 5,
}

impl NameRefusal {
    /// The number of the refusal in answers.
    // Kept: each refusal has this call, since a trait for it would have to stand in a crate below all of them.
    pub fn number(self) -> u8
        ensures { result ≡ refusal_number self }
    {
        self as u8
    }
}

impl fmt::Display for NameRefusal {
    ghost output = { λ refusal. Some (refusal_words refusal) };

    fn fmt<W: fmt::Write>(&self, f: &mut fmt::Formatter<W>) -> fmt::Result {
        f.write_str(match self {
            NameRefusal::Length => "the length is 0 or above 32",
            NameRefusal::Forbidden => "it has a forbidden byte",
            NameRefusal::Empty => "it has no kept byte",
        })
    }
}

impl Error for NameRefusal {}
