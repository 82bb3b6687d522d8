ghost use Rattle.std.specs.Prelude.{◌≡◌, Some};
ghost use Rattle.image.specs.Refusals.{refusal_number, refusal_words};
ghost use Rattle.image.specs.declared.refusal.ImageRefusal.{ImageRefusal};

use crate::fault::ImageFault;
use std::fmt;

/// Why a buffer is refused as an image.
#[derive(Clone, Copy, PartialEq, Eq, Debug)]
pub enum ImageRefusal {
    /// It has more than 65,536 bytes.
    TooLarge,
    /// It is no image, with the first fault.
    Malformed(ImageFault),
}

impl ImageRefusal {
    /// The number of the refusal in answers.
    // Kept: by a match, since a variant that holds a fault has no discriminant to read.
    pub fn number(self) -> u8
        ensures { result ≡ refusal_number self }
    {
        match self {
            ImageRefusal::TooLarge => 33,
            ImageRefusal::Malformed(_) => 34,
        }
    }
}

impl fmt::Display for ImageRefusal {
    ghost output = { λ refusal. Some (refusal_words refusal) };

    fn fmt<W: fmt::Write>(&self, f: &mut fmt::Formatter<W>) -> fmt::Result {
        match self {
            ImageRefusal::TooLarge => f.write_str("it has more than 65,536 bytes"),
            ImageRefusal::Malformed(fault) => write!(f, "{fault}"),
        }
    }
}

impl std::error::Error for ImageRefusal {}

impl From<ImageFault> for ImageRefusal {
    ghost from_gives = { λ x y. y ≡ ImageRefusal.Malformed x };

    fn from(fault: ImageFault) -> ImageRefusal {
        ImageRefusal::Malformed(fault)
    }
}
