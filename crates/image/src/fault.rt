ghost use Rattle.std.specs.Prelude.{◌≡◌, Some};
ghost use Rattle.image.specs.Refusals.{layer_of, check_cause, cause_of, fault_place, fault_words};
ghost use Rattle.image.specs.declared.fault.RecordFault.{RecordFault};
ghost use Rattle.image.specs.declared.fault.ImageFault.{ImageFault};

use crate::cause::Cause;
use crate::layer::Layer;
use std::fmt;

/// A check of a field behind its tag.
#[derive(Clone, Copy, PartialEq, Eq, Debug)]
pub enum FieldCheck {
    NoLength,
    Length,
    NoContent,
    Content,
}

/// The check of a field that failed, and the place of its tag.
#[derive(Clone, Copy, PartialEq, Eq, Debug)]
pub struct FieldFault {
    pub check: FieldCheck,
    pub place: usize,
}

/// What is wrong with a record: one of its fields, or the tag at a place.
#[derive(Clone, Copy, PartialEq, Eq, Debug)]
pub enum RecordFault {
    Field(FieldFault),
    Tag(usize),
}

/// What is wrong with an image: a record, the record of a second entry, or a byte behind the records.
#[derive(Clone, Copy, PartialEq, Eq, Debug)]
pub enum ImageFault {
    Record(RecordFault),
    SecondEntry(usize),
    NonZeroByte(usize),
}

impl ImageFault {
    /// Where the fault lies.
    pub fn layer(self) -> Layer
        ensures { result ≡ layer_of self }
    {
        match self {
            ImageFault::Record(RecordFault::Field(_)) => Layer::Field,
            ImageFault::Record(RecordFault::Tag(_)) => Layer::Record,
            ImageFault::SecondEntry(_) | ImageFault::NonZeroByte(_) => Layer::Image,
        }
    }

    /// Which check failed.
    pub fn cause(self) -> Cause
        ensures { result ≡ cause_of self }
    {
        match self {
            ImageFault::Record(RecordFault::Field(fault)) => Cause::from(fault.check),
            ImageFault::Record(RecordFault::Tag(_)) => Cause::Tag,
            ImageFault::SecondEntry(_) => Cause::SecondEntry,
            ImageFault::NonZeroByte(_) => Cause::NonZeroByte,
        }
    }

    /// The place of the field's tag, of the second entry's first byte, or of the byte that is not zero.
    pub fn place(self) -> usize
        ensures { result ≡ fault_place self }
    {
        match self {
            ImageFault::Record(RecordFault::Field(fault)) => fault.place,
            ImageFault::Record(RecordFault::Tag(place)) => place,
            ImageFault::SecondEntry(place) => place,
            ImageFault::NonZeroByte(place) => place,
        }
    }
}

impl fmt::Display for ImageFault {
    ghost output = { λ fault. Some (fault_words fault) };

    fn fmt<W: fmt::Write>(&self, f: &mut fmt::Formatter<W>) -> fmt::Result {
        let layer = self.layer();
        let cause = self.cause();
        let place = self.place();
        write!(f, "{layer}, {cause}, at byte {place}")
    }
}

impl std::error::Error for ImageFault {}

impl From<FieldCheck> for Cause {
    ghost from_gives = { λ x y. y ≡ check_cause x };

    fn from(check: FieldCheck) -> Cause {
        match check {
            FieldCheck::NoLength => Cause::NoLength,
            FieldCheck::Length => Cause::Length,
            FieldCheck::NoContent => Cause::NoContent,
            FieldCheck::Content => Cause::Content,
        }
    }
}

impl From<FieldFault> for RecordFault {
    ghost from_gives = { λ x y. y ≡ RecordFault.Field x };

    fn from(fault: FieldFault) -> RecordFault {
        RecordFault::Field(fault)
    }
}

impl From<RecordFault> for ImageFault {
    ghost from_gives = { λ x y. y ≡ ImageFault.Record x };

    fn from(fault: RecordFault) -> ImageFault {
        ImageFault::Record(fault)
    }
}
