ghost use Rattle.std.specs.Prelude.{◌≡◌};
ghost use Rattle.names.specs.Names.{class};
ghost use Rattle.store.specs.Entries.{is_key};

use names::is_short;

/// The highest partition number.
pub const LAST_PARTITION: u16 = 511;

/// Whether an entry may have this key: a partition up to 511, and a short form.
// Kept: the calls of a store take the partition and the name apart, so one value of both would be made and taken apart here alone.
pub fn is_key(partition: u16, name: &[u8]) -> bool
    ensures { result ≡ is_key class partition name.now }
{
    partition <= LAST_PARTITION && is_short(name)
}
