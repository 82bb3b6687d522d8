ghost use Rattle.std.specs.Prelude.{◌≡◌, ◌≤◌, length, take};

use crate::links::{Link, Links};

/// An entry in its slot: its partition, the first `len` bytes of `name`, its record number, and its rank among the entries of its
/// partition. A slot whose item has `len` 0 is vacant.
// Kept: a slot is lent memory of one size, so it has room for the longest name and says how much is in use, and 0 where it is vacant: an
// `Option` of an item would have its tag beside it in each slot.
#[derive(Clone, Copy)]
pub(crate) struct Item {
    pub(crate) partition: u16,
    pub(crate) len: u8,
    pub(crate) name: [u8; 32],
    pub(crate) number: u64,
    pub(crate) rank: u32,
    ghost short: { len ≤ 32 },
}

impl Item {
    /// The name of the entry.
    pub(crate) fn name(&self) -> &[u8]
        ensures is { result.now ≡ take self.now.len self.now.name }
        ensures long { length result.now ≡ self.now.len }
    {
        &self.name[..self.len as usize]
    }
}

/// A place for an entry, in a slice that the caller lends to a `SlotTable`. It has the links of both families of chains.
// Kept: the slots are a plain slice that the caller lends, in which an entry moves to another slot, so a link is a slot's number.
#[derive(Clone, Copy)]
pub struct Slot {
    pub(crate) item: Item,
    pub(crate) links: [Links; 2],
    ghost two: { length links ≡ 2 },
}

impl Slot {
    pub const EMPTY: Slot = Slot {
        item: Item {
            partition: 0,
            len: 0,
            name: [0; 32],
            number: 0,
            rank: 0,
        },
        links: [Links {
            head: Link::NONE,
            next: Link::NONE,
        }; 2],
    };
}
