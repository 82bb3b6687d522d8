ghost use Rattle.std.specs.Prelude.{◌≡◌, ◌≤◌, length};
ghost use Rattle.std.specs.List.{slice_get};
ghost use Rattle.names.specs.Names.{class};
ghost use Rattle.store.specs.Entries.{inside};
ghost use Rattle.image.specs.Format.{encoded};
ghost use Rattle.image.specs.Promises.{Shows, Sought};
ghost use Rattle.image.specs.Reading.{listed};

use crate::field::Record;
use crate::records::Records;

/// Where a record begins, how many bytes it has, and the number of its entry.
#[derive(Clone, Copy)]
pub(crate) struct Placed {
    pub(crate) place: usize,
    pub(crate) length: usize,
    pub(crate) number: u64,
}

// Kept: a partition and a name go side by side in the calls of every store, which pass them on here as they are.
/// The record of the entry with this key, or where the records end.
pub(crate) fn seek(image: &[u8], partition: u16, name: &[u8]) -> Result<Placed, usize>
    ensures { Sought result (listed class image.now) partition name.now }
{
    // Kept: the place adds up over the records passed and is the answer where none has the key, which a fold that breaks off would say the wrong way round.
    let mut place = 0;
    for record in Records::of(image) {
        let length = record.length();
        if record.has_key(partition, name) {
            return Ok(Placed {
                place,
                length,
                number: record.number,
            });
        }
        place += length;
    }
    Err(place)
}

/// Where the records of an image end.
pub(crate) fn records_end(image: &[u8]) -> usize
    ensures value { result ≡ length (encoded (listed class image.now)) }
    ensures bound { result ≤ length image.now }
{
    Records::of(image).map(|record| record.length()).sum()
}

/// How many entries of an image are in a partition. Inlined into its caller it takes a fifth longer.
#[inline(never)]
pub(crate) fn count_inside(image: &[u8], partition: u16) -> usize
    ensures { result ≡ length (inside (listed class image.now) partition) }
{
    Records::of(image)
        .filter(|record| record.partition == partition)
        .count()
}

/// The record of entry `k` of a partition.
pub(crate) fn nth_inside<'a>(image: &'a [u8], partition: u16, k: usize) -> Option<Record<'a>>
    ensures { Shows result (slice_get (inside (listed class image.now) partition) k) }
{
    Records::of(image)
        .filter(|record| record.partition == partition)
        .nth(k)
}
