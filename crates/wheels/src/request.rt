ghost use Rattle.std.specs.Prelude.{◌≡◌, ℕ, ◌||◌, Ok, Err, ◌==◌};
ghost use Rattle.index.specs.Setting.{set_up, settings_answer};
ghost use Rattle.index.specs.Values.{members};
ghost use Rattle.wheels.specs.Readings.{number_reading, partition_reading, ListsAll};

use crate::fault::{Fault, Problem};
use crate::numbers::{read_number, read_partition, saturated};
use index::{PartitionSet, Settings, SettingsRefusal};

/// The threshold of all settings here; placing does not use it.
const THRESHOLD: u16 = 8000;

/// Which sensor IDs are placed.
#[derive(Clone, Copy)]
pub(crate) enum Source {
    Examples,
    Input,
}

/// Which sensor IDs are placed, and where.
#[derive(Clone, Copy)]
pub(crate) struct Request {
    pub(crate) source: Source,
    pub(crate) servers: u64,
    pub(crate) per_server: u64,
    /// The map is the least one that has these.
    pub(crate) partitions: PartitionSet,
}

impl Request {
    /// The built-in example. Its map is 0, 1, 2, 3 and 5.
    pub(crate) fn example() -> Request
        ensures numbers { (result.servers ≡ 3) × (result.per_server ≡ 2) }
        ensures partitions { (q : ℕ) → members result.partitions q ≡ (q == 2 || q == 5) }
    {
        let mut partitions = PartitionSet::new();
        partitions.add(2);
        partitions.add(5);
        Request {
            source: Source::Examples,
            servers: 3,
            per_server: 2,
            partitions,
        }
    }

    /// Reads the arguments of `place`.
    pub(crate) fn read(words: &[String]) -> Result<Request, Fault<'_>> {
        match words {
            [] => Err(Problem::Missing.of("N")),
            [_] => Err(Problem::Missing.of("M")),
            [_, _] => Err(Problem::Missing.of("PARTITION")),
            [servers, per_server, partitions] => Ok(Request {
                source: Source::Input,
                servers: number(servers.as_str())?,
                per_server: number(per_server.as_str())?,
                partitions: partition_set(partitions.as_str())?,
            }),
            [_, _, _, word, ..] => Err(Problem::TooMany.of(word.as_str())),
        }
    }

    /// The settings for the request. A number too large for its type counts as the type's largest, which is refused too.
    pub(crate) fn settings(&self) -> Result<Settings, SettingsRefusal>
        ensures { settings_answer result ≡ set_up self.now.servers self.now.per_server 8000 }
    {
        Settings::new(
            saturated(self.servers),
            saturated(self.per_server),
            THRESHOLD,
        )
    }
}

/// The number that a word writes.
fn number(word: &str) -> Result<u64, Fault<'_>>
    ensures { elim result [ Ok n ↦ number_reading word.now ≡ Ok n | Err fault ↦ (number_reading word.now ≡ Err fault.problem) × (fault.word.now ≡ word.now) ] }
{
    read_number(word).map_err(|problem| problem.of(word))
}

/// The partitions that are listed between commas.
fn partition_set(list: &str) -> Result<PartitionSet, Fault<'_>>
    ensures { elim result [ Ok set ↦ ListsAll list.now (members set) | Err fault ↦ partition_reading fault.word.now ≡ Err fault.problem ] }
{
    let mut set = PartitionSet::new();
    for word in list.split(',') {
        let partition = read_partition(word).map_err(|problem| problem.of(word))?;
        set.add(partition);
    }
    Ok(set)
}
