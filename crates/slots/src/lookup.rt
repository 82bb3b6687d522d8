ghost use Rattle.std.specs.Prelude.{◌≡◌, ◌<◌, ◌≤◌, IfNone, IfSome, length, Some, None};
ghost use Rattle.std.specs.List.{slice_get};
ghost use Rattle.store.specs.Calls.{listed, padded};
ghost use Rattle.store.specs.Entries.{entry_of, has_key, inside};
ghost use Rattle.slots.specs.Held.{held, found_at, entries_by_rank};
ghost use Rattle.slots.specs.Lookup.{HasKeyAt, LacksKey, HasRankAt, LacksRank, TakesOver};
ghost use Rattle.slots.specs.Ranks.{in_rank};
ghost use Rattle.slots.specs.Table.{entry_in};

use crate::chains::Chain;
use crate::links::Family;
use crate::places::{key_chain, rank_chain};
use crate::slot::Item;
use crate::table::SlotTable;
use names::padded;
use store::ListedEntry;

impl Item {
    /// An item with the entry.
    pub(crate) fn holding(partition: u16, name: &[u8], number: u64, rank: u32) -> Item
        requires { length name.now ≤ 32 }
        ensures holds { entry_in result ≡ entry_of partition name.now number }
        ensures long { result.len ≡ length name.now }
        ensures rank { result.rank ≡ rank }
    {
        Item {
            partition,
            len: name.len() as u8,
            name: padded(name),
            number,
            rank,
        }
    }

    /// Whether the item has the key.
    // Kept: a record of an image has the same test, over a type that no crate below both knows.
    fn has_key(&self, partition: u16, name: &[u8]) -> bool
        ensures { result ≡ has_key partition name.now (entry_in self.now) }
    {
        self.partition == partition && self.name() == name
    }

    /// Whether the item has this rank in the partition.
    fn is_ranked(&self, partition: u16, rank: u32) -> bool
        ensures { result ≡ in_rank partition rank self.now }
    {
        self.partition == partition && self.rank == rank
    }
}

impl SlotTable<'_> {
    /// The slot of the entry with the key.
    pub(crate) fn place(&self, partition: u16, name: &[u8]) -> Option<usize>
        ensures hit { IfSome result (HasKeyAt self.now partition name.now) }
        ensures miss { IfNone result (LacksKey self.now partition name.now) }
    {
        let slots = &*self.lent.slots;
        if slots.is_empty() {
            return None;
        }
        let b = key_chain(partition, name, slots.len());
        Chain::new(slots, Family::Key, b)
            .find(|(_, item)| item.has_key(partition, name))
            .map(|(i, _)| i)
    }

    /// The record number of the entry in slot i.
    // Kept: three calls ask that slot i is in use. A type for such numbers would be tied to one state of the table.
    pub(crate) fn number_at(&self, i: usize) -> u64
        requires { i < self.now.used }
        ensures { found_at self.now i ≡ Some result }
    {
        self.lent.slots[i].item.number
    }

    /// What is told of the entry in slot i. Its name and then zeros go into the caller's bytes.
    pub(crate) fn listed_at(&self, i: usize, name: &mut [u8; 32]) -> ListedEntry
        requires { i < self.now.used }
        ensures gives { listed (slice_get (held self.now) i) ≡ Some result }
        ensures writes { name.new ≡ padded (slice_get (held self.now) i) name.old }
    {
        let slots = &*self.lent.slots;
        let item = &slots[i].item;
        *name = padded(item.name());
        ListedEntry {
            len: item.len,
            number: item.number,
        }
    }

    /// How many entries a partition has.
    pub(crate) fn count_in(&self, partition: u16) -> u32
        ensures { result ≡ length (inside (entries_by_rank self.now) partition) }
    {
        self.counts.get(partition as usize).copied().unwrap_or(0)
    }

    /// The slot of the entry with this rank in the partition.
    // Kept: it and `place` are a few calls each, and a function for both would take what they differ in: the chain, the family and the test.
    fn at_rank(&self, partition: u16, rank: u32) -> Option<usize>
        ensures hit { IfSome result (HasRankAt self.now partition rank) }
        ensures miss { IfNone result (LacksRank self.now partition rank) }
    {
        let slots = &*self.lent.slots;
        if slots.is_empty() {
            return None;
        }
        let b = rank_chain(partition, rank, slots.len());
        Chain::new(slots, Family::Rank, b)
            .find(|(_, item)| item.is_ranked(partition, rank))
            .map(|(i, _)| i)
    }

    /// The slot of the last entry of a partition, that of slot i, and its item with the rank of slot i: it takes over when that entry goes.
    pub(crate) fn heir(&self, i: usize) -> (usize, Item)
        requires { i < self.now.used }
        ensures { TakesOver self.now i result.0 result.1 }
    {
        let slots = &*self.lent.slots;
        let gone = &slots[i].item;
        let last = self.counts[gone.partition as usize] - 1;
        let j = self.at_rank(gone.partition, last).unwrap();
        let mut item = slots[j].item;
        item.rank = gone.rank;
        (j, item)
    }

    /// The slot of entry k of a partition.
    // Kept: an `if`, since what it answers is an `Option` already.
    pub(crate) fn kth(&self, partition: u16, k: usize) -> Option<usize>
        ensures hit { IfSome result (λ i. (i < self.now.used) × (slice_get (inside (entries_by_rank self.now) partition) k ≡ slice_get (held self.now) i)) }
        ensures miss { IfNone result (slice_get (inside (entries_by_rank self.now) partition) k ≡ None) }
    {
        if k < self.count_in(partition) as usize {
            self.at_rank(partition, k as u32)
        } else {
            None
        }
    }
}
