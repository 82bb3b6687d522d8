ghost use Rattle.std.specs.Prelude.{Some};
ghost use Rattle.image.specs.Refusals.{cause_words};

use std::fmt;

/// Which check of an image failed.
#[derive(Clone, Copy, PartialEq, Eq, Debug)]
pub enum Cause {
    /// The tag is another one, or missing.
    Tag,
    /// The length bytes do not fit.
    NoLength,
    /// The length is not one of the field's.
    Length,
    /// The content does not fit.
    NoContent,
    /// The partition is above 511, or the name is no short form.
    Content,
    /// An entry before has the same partition and name.
    SecondEntry,
    /// A byte behind the records is not zero.
    NonZeroByte,
}

impl fmt::Display for Cause {
    ghost output = { λ cause. Some (cause_words cause) };

    fn fmt<W: fmt::Write>(&self, f: &mut fmt::Formatter<W>) -> fmt::Result {
        f.write_str(match self {
            Cause::Tag => "tag",
            Cause::NoLength => "length does not fit",
            Cause::Length => "length",
            Cause::NoContent => "content does not fit",
            Cause::Content => "content",
            Cause::SecondEntry => "second entry",
            Cause::NonZeroByte => "non-zero byte",
        })
    }
}
