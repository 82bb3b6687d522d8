ghost use Rattle.std.specs.Prelude.{◌≡◌, [], Some, if◌then◌else◌, codes, nat_eq};
ghost use Rattle.index.specs.Ranges.{part_for};
ghost use Rattle.index.specs.Servers.{holder, has_server};
ghost use Rattle.index.specs.Values.{has, range_of};

use index::{Map, PlacementRange, Settings};
use std::fmt;

/// Where placements belong: the settings, and a map.
#[derive(Clone, Copy)]
pub(crate) struct Layout {
    pub(crate) settings: Settings,
    pub(crate) map: Map,
}

impl Layout {
    /// Where a placement belongs.
    pub(crate) fn locate(&self, placement: u32) -> Location
        ensures placement { result.placement ≡ placement }
        ensures partition { result.partition ≡ part_for (has self.now.map) placement }
        ensures range { Some result.range ≡ range_of (has self.now.map) result.partition }
        ensures server { result.server ≡ holder self.now.settings.servers self.now.settings.per_server result.partition }
        ensures added { result.is_added ≡ has_server self.now.settings.per_server self.now.settings.servers result.partition }
    {
        let Layout { settings, map } = self;
        let partition = map.partition_for(placement);
        Location {
            placement,
            partition,
            range: map.range(partition).unwrap(),
            server: settings.holder(partition),
            is_added: settings.has_server(partition, settings.servers()),
        }
    }
}

/// The settings and the map, each on a line.
impl fmt::Display for Layout {
    fn fmt<W: fmt::Write>(&self, f: &mut fmt::Formatter<W>) -> fmt::Result {
        let Layout { settings, map } = *self;
        let servers = settings.servers();
        let partitions = settings.per_server();
        write!(
            f,
            "settings: {servers} server{}, {partitions} partition{} per server, threshold {}\nmap: {map}",
            ending(servers),
            ending(partitions),
            settings.threshold()
        )
    }
}

/// Where a placement belongs: its partition, that partition's range and its server, which may not be added yet.
#[derive(Clone, Copy)]
pub(crate) struct Location {
    placement: u32,
    partition: u16,
    range: PlacementRange,
    // Kept: a server and a flag, since the server is known whether or not it is added.
    server: u16,
    is_added: bool,
}

impl fmt::Display for Location {
    fn fmt<W: fmt::Write>(&self, f: &mut fmt::Formatter<W>) -> fmt::Result {
        let Location {
            placement,
            partition,
            range: PlacementRange { first, last },
            server,
            is_added,
        } = *self;
        write!(
            f,
            "0x{placement:08X}: partition {partition}, 0x{first:08X} to 0x{last:08X}, server {server}"
        )?;
        f.write_str(if is_added { "" } else { ", not added yet" })
    }
}

/// The ending of a word for so many.
fn ending(count: u8) -> &'static str
    ensures { result.now ≡ (if nat_eq count 1 then [] else codes "s") }
{
    if count == 1 { "" } else { "s" }
}
