ghost use Rattle.std.specs.Prelude.{◌≡◌, ◌-◌, ◌*◌, ◌^◌, ◌<◌, ◌≤◌};
ghost use Rattle.index.specs.Numbers.{bit, bits};
ghost use Rattle.index.specs.Maps.{IsMap};

use crate::partition_set::PartitionSet;
use crate::range::PlacementRange;
use std::fmt;

/// A set of partition numbers that splitting can lead to, in an array of eight words by value.
#[derive(Clone, Copy, Debug)]
pub struct Map {
    set: PartitionSet,
    ghost lawful: { ∥ IsMap (bits set.words) ∥₁ },
}

impl Map {
    ghost use Rattle.std.specs.Prelude.{◌≡◌, ℕ, ◌||◌, T, ◌++◌, codes, ◌==◌};
    ghost use Rattle.std.specs.Fmt.{WritesOnOk};
    ghost use Rattle.index.specs.Numbers.{size};
    ghost use Rattle.index.specs.Maps.{Fills, filled};
    ghost use Rattle.index.specs.Ranges.{depth, part_for, Alone};
    ghost use Rattle.index.specs.Values.{has, members, depth_of, range_of, listed};

    /// The map with partition 0 alone.
    #[tactic(auto, using(crate::proofs::Filling::filled_none))]
    pub fn root() -> Map
        ensures { (q : ℕ) → has result q ≡ (q == 0) }
    {
        Map::fill(&PartitionSet::new())
    }

    /// The least map that has all partitions of the set.
    pub fn fill(set: &PartitionSet) -> Map
        ensures value { (q : ℕ) → has result q ≡ filled (members set.now) q }
        ensures least { Fills (members set.now) (has result) }
    {
        Map { set: set.filled() }
    }

    /// Whether the map has partition p.
    pub fn has(&self, p: u16) -> bool
        ensures { result ≡ has self.now p }
    {
        self.set.has(p)
    }

    /// The map becomes its union with the other, which is a map.
    pub fn join(&mut self, other: &Map)
        ensures is_map { IsMap (has self.new) }
        ensures both { (q : ℕ) → has self.new q ≡ (has self.old q || has other.now q) }
    {
        *self = self.union(other);
    }

    // The union of two maps.
    fn union(&self, other: &Map) -> Map
        ensures is_map { IsMap (has result) }
        ensures both { (q : ℕ) → has result q ≡ (has self.now q || has other.now q) }
    {
        Map {
            set: self.set.union(&other.set),
        }
    }

    /// How many partitions the map has. Partition 0 is in every map, so that none is empty.
    pub fn len(&self) -> u16
        ensures { result ≡ size (has self.now) 512 }
    {
        self.set.len()
    }

    /// The depth of partition p, where the map has it.
    pub fn depth(&self, p: u16) -> Option<u32>
        ensures { result ≡ depth_of (has self.now) p }
    {
        self.has(p).then(|| self.split_depth(p))
    }

    // The depth of partition p, which the map has.
    fn split_depth(&self, p: u16) -> u32
        requires { T (has self.now p) }
        ensures { result ≡ depth (has self.now) p }
    {
        (0..9)
            .find(|&d| p < power(d) && !self.has(p + power(d)))
            .unwrap_or(9)
    }

    /// The placements that partition p has, where the map has it.
    #[tactic(auto, using(crate::proofs::MapWalks::depths))]
    pub fn range(&self, p: u16) -> Option<PlacementRange>
        ensures { result ≡ range_of (has self.now) p }
    {
        self.depth(p).map(|depth| PlacementRange::at(p, depth))
    }

    /// The partition whose range has the placement: there is exactly one. The walk follows the placement's digits, the most significant
    /// first, for as long as the partition that it is at was split.
    // Kept: a `for` over the digits, since the walk is a form of shifts and masks that the project asks for, and may end at any digit.
    #[tactic(auto, using(crate::proofs::MapWalks::walking))]
    pub fn partition_for(&self, placement: u32) -> u16
        ensures value { result ≡ part_for (has self.now) placement }
        ensures alone { Alone (has self.now) placement result }
    {
        let mut p = 0;
        for d in 0..9 {
            if !self.has(p + power(d)) {
                return p;
            }
            p += digit_at(placement, d);
        }
        p
    }

    // Writes 0, and the other partitions each behind a space.
    fn write_partitions<W: fmt::Write>(&self, f: &mut fmt::Formatter<W>) -> fmt::Result
        ensures { WritesOnOk W.Write.write_str_gives f.old result (codes "0" ++ listed (has self.now) 511) f.new }
    {
        f.write_str("0")?;
        // Kept: an `if` in the loop. Over a `filter` that captures the map the check cannot state this generic method's loop.
        for p in 1..512 {
            if self.has(p) {
                write!(f, " {p}")?;
            }
        }
        Ok(())
    }
}

/// The partitions in decimal and rising, with a space between them. The first is 0, which every map has.
impl fmt::Display for Map {
    ghost use Rattle.std.specs.Prelude.{Some, ◌++◌, codes};
    ghost use Rattle.index.specs.Values.{has, listed};

    ghost output = { λ map. Some (codes "0" ++ listed (has map) 511) };

    fn fmt<W: fmt::Write>(&self, f: &mut fmt::Formatter<W>) -> fmt::Result {
        self.write_partitions(f)
    }
}

// A 1 in binary place e of a partition number.
fn power(e: u32) -> u16
    requires { e < 9 }
    ensures { (result ≡ 2 ^ e) × (result ≤ 256) }
{
    1 << e
}

// Digit d of the placement, the most significant being digit 0, in binary place d of a partition number.
fn digit_at(placement: u32, d: u32) -> u16
    requires { d < 9 }
    ensures { result ≡ bit placement (31 - d) * 2 ^ d }
{
    (((placement >> (31 - d)) & 1) << d) as u16
}
