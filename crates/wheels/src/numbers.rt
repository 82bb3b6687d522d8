ghost use Rattle.std.specs.Prelude.{◌≡◌, min};
ghost use Rattle.wheels.specs.Readings.{is_numeral, number_reading, partition_reading};

use crate::fault::Problem;

/// Partitions are numbered from 0 on, below this.
pub(crate) const PARTITIONS: u16 = 512;

/// The number that a word of decimal digits writes.
pub(crate) fn read_number(word: &str) -> Result<u64, Problem>
    ensures { result ≡ number_reading word.now }
{
    if !is_numeral(word) {
        return Err(Problem::NoNumber);
    }
    word.parse::<u64>().map_err(|_| Problem::TooLarge)
}

/// The partition whose number a word writes.
pub(crate) fn read_partition(word: &str) -> Result<u16, Problem>
    ensures { result ≡ partition_reading word.now }
{
    match u16::try_from(read_number(word)?) {
        Ok(partition) if partition < PARTITIONS => Ok(partition),
        _ => Err(Problem::NoPartition),
    }
}

/// The number, or 255 where it is larger.
pub(crate) fn saturated(n: u64) -> u8
    ensures { result ≡ min n 255 }
{
    u8::try_from(n).unwrap_or(u8::MAX)
}

/// Whether a word has a byte and all its bytes are decimal digits.
fn is_numeral(word: &str) -> bool
    ensures { result ≡ is_numeral word.now }
{
    !word.is_empty() && word.as_bytes().iter().all(u8::is_ascii_digit)
}
