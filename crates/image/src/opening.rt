ghost use Rattle.std.specs.Prelude.{◌≡◌, ◌≤◌, true, [], length, take, if◌then◌else◌};
ghost use Rattle.names.specs.Names.{class};
ghost use Rattle.image.specs.Format.{image_room, Packed};
ghost use Rattle.image.specs.Filled.{IsFilled};
ghost use Rattle.image.specs.Held.{all_bytes, held, room_of};
ghost use Rattle.image.specs.Reading.{listed};
ghost use Rattle.image.specs.Refusals.{image_answer, image_refused, accepted};
ghost use Rattle.image.specs.Theorems.{Checked};

use crate::check::check_records;
use crate::packed::PackedImage;
use crate::refusal::ImageRefusal;

/// The most bytes that an image has.
const MAX_LENGTH: usize = 65_536;

impl<'a> PackedImage<'a> {
    /// Refuses a buffer that is too large, or that is not the image of entries, with the first fault.
    pub fn check(image: &[u8]) -> Result<(), ImageRefusal>
        ensures answered { image_answer result ≡ image_refused class image.now }
        ensures checked { Checked class result image.now }
    {
        if image.len() > MAX_LENGTH {
            return Err(ImageRefusal::TooLarge);
        }
        check_records(image)?;
        Ok(())
    }

    /// The store over a buffer. Over one that `check` refuses it is empty, has capacity 0, and touches nothing.
    pub fn open(image: &'a mut [u8]) -> PackedImage<'a>
        ensures bytes { all_bytes result ≡ image.old }
        ensures lends { result.image.ghost_name ≡ image.entry.ghost_name }
        ensures entries { held class result ≡ (if accepted class image.old then listed class image.old else []) }
        ensures packed { accepted class image.old ≡ true → Packed class image.old (held class result) }
        ensures room { room_of result ≡ image_room (if accepted class image.old then length image.old else 0) }
    {
        let len = capacity(image);
        PackedImage { image, len }
    }

    /// The caller's bytes again: in the store's part the records of its entries and then zeros.
    pub fn into_bytes(self) -> &'a mut [u8]
        ensures bytes { result.now ≡ all_bytes self.entry }
        ensures lends { result.ghost_name ≡ self.entry.image.ghost_name }
        ensures packed { Packed class (take (room_of self.entry).capacity result.now) (held class self.entry) }
    {
        let PackedImage { image, len: _ } = self;
        image
    }
}

/// How many bytes of a buffer a store lies in: all of an image, none of what is refused.
fn capacity(image: &[u8]) -> usize
    ensures value { result ≡ (if accepted class image.now then length image.now else 0) }
    ensures within { result ≤ length image.now }
    ensures few { result ≤ 65536 }
    ensures filled { IsFilled result (take result image.now) }
    ensures entries { listed class (take result image.now) ≡ (if accepted class image.now then listed class image.now else []) }
    ensures packed { accepted class image.now ≡ true → Packed class image.now (listed class (take result image.now)) }
{
    PackedImage::check(image).map_or(0, |()| image.len())
}
