ghost use Rattle.std.specs.Prelude.{◌≡◌, ◌≤◌, length, take, drop, is_some};
ghost use Rattle.names.specs.Names.{class};
ghost use Rattle.store.specs.Entries.{found};
ghost use Rattle.image.specs.Promises.{Tells};
ghost use Rattle.image.specs.Reading.{listed, fault, non_zero};

use crate::fault::ImageFault;
use crate::read::read_record;
use crate::search::seek;

/// The first fault of an image, if there is one.
pub(crate) fn check_records(image: &[u8]) -> Result<(), ImageFault>
    ensures { Tells result (fault class image.now) }
{
    // Kept: each record begins where the one before ends, a fault is told with its place, and what stands before it is looked through.
    let mut at = 0;
    while at < image.len() && image[at] != 0 {
        let record = read_record(image, at)?;
        if has_before(image, at, record.partition, record.name) {
            return Err(ImageFault::SecondEntry(at));
        }
        at += record.length();
    }
    check_zeros(image, at)
}

/// Whether a record that begins before `at` has this key.
fn has_before(image: &[u8], at: usize, partition: u16, name: &[u8]) -> bool
    requires { at ≤ length image.now }
    ensures { result ≡ is_some (found (listed class (take at image.now)) partition name.now) }
{
    seek(&image[..at], partition, name).is_ok()
}

/// Refuses the first byte from `place` on that is not zero.
fn check_zeros(image: &[u8], place: usize) -> Result<(), ImageFault>
    requires { place ≤ length image.now }
    ensures { Tells result (non_zero place (drop place image.now)) }
{
    match image[place..].iter().position(|byte| *byte != 0) {
        Some(zeros) => Err(ImageFault::NonZeroByte(place + zeros)),
        None => Ok(()),
    }
}
