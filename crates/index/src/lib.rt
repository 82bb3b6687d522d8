// Partitions of one directory, after GIGA+: which partition numbers make a map, which placements each partition has, and which server
// holds it.
#![tactic(auto)]

mod map;
mod partition_set;
mod range;
mod settings;

pub use map::Map;
pub use partition_set::PartitionSet;
pub use range::PlacementRange;
pub use settings::{Settings, SettingsRefusal};
