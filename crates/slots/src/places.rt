ghost use Rattle.std.specs.Prelude.{◌≡◌, ℕ, ◌<◌, ◌≤◌, length, take, slice_index_or, slice_set};
ghost use Rattle.slots.specs.declared.slot.Item.{Item as Stored};
ghost use Rattle.slots.specs.Columns.{BothLinked, code, lengths, items, key_code, rank_code};
ghost use Rattle.slots.specs.Links.{family_number};
ghost use Rattle.slots.specs.Table.{Free};

use crate::chains::{link, unlink};
use crate::links::Family;
use crate::slot::{Item, Slot};
use crate::table::Lent;

/// What the chains multiply by: a prime near 2^32 divided by the golden ratio, so that neighbours lie far apart in a table of any size.
const SPREAD: u32 = 2_654_435_761;

/// The chain of a key, among n.
// Kept: three calls say that a chain's number is below n. A type for such numbers would be tied to one n.
pub(crate) fn key_chain(partition: u16, name: &[u8], n: usize) -> usize
    requires { 0 < n }
    ensures is { result ≡ key_code n partition name.now }
    ensures below { result < n }
{
    let hash = name.iter().fold(u32::from(partition), |hash, &byte| {
        hash.wrapping_mul(SPREAD).wrapping_add(u32::from(byte))
    });
    hash as usize % n
}

/// The chain of a rank in a partition, among n.
pub(crate) fn rank_chain(partition: u16, rank: u32, n: usize) -> usize
    requires { 0 < n }
    ensures is { result ≡ rank_code n partition rank }
    ensures below { result < n }
{
    (partition as usize * SPREAD as usize + rank as usize) % n
}

impl Item {
    /// The chain of a family, among n, that the item is in.
    pub(crate) fn chain(&self, family: Family, n: usize) -> usize
        requires { (0 < n) × (0 < self.now.len) }
        ensures is { result ≡ code (family_number family) n self.now }
        ensures below { result < n }
    {
        match family {
            Family::Key => key_chain(self.partition, self.name(), n),
            Family::Rank => rank_chain(self.partition, self.rank, n),
        }
    }
}

/// Takes the entry out of slot i.
fn vacate(slots: &mut [Slot], i: usize)
    requires place { i < length slots.old }
    requires linked { BothLinked slots.old }
    requires filled { 0 < lengths slots.old i }
    ensures linked { BothLinked slots.new }
    ensures now { (r : Stored) × (r.len ≡ 0) × (items slots.new ≡ slice_set (items slots.old) i r) }
{
    unlink(slots, Family::Key, i);
    unlink(slots, Family::Rank, i);
    slots[i].item.len = 0;
}

/// Puts an entry into slot i, which is vacant.
fn occupy(slots: &mut [Slot], i: usize, item: Item)
    requires place { (i < length slots.old) × ((length slots.old ≤ 1048576) × (0 < item.len)) }
    requires linked { BothLinked slots.old }
    requires vacant { lengths slots.old i ≡ 0 }
    ensures linked { BothLinked slots.new }
    ensures now { items slots.new ≡ slice_set (items slots.old) i item }
{
    link(slots, Family::Key, i, &item);
    link(slots, Family::Rank, i, &item);
    slots[i].item = item;
}

impl Lent<'_> {
    /// Vacates all slots.
    pub(crate) fn empty(&mut self)
        ensures free { Free 0 self.new.slots.now }
        ensures size { length self.new.slots.now ≡ length self.old.slots.now }
    {
        self.slots.fill(Slot::EMPTY);
    }

    /// Puts an entry into slot i, which is vacant.
    pub(crate) fn add(&mut self, i: usize, item: Item)
        requires place { (i < length self.old.slots.now) × (0 < item.len) }
        requires vacant { lengths self.old.slots.now i ≡ 0 }
        ensures now { items self.new.slots.now ≡ slice_set (items self.old.slots.now) i item }
    {
        occupy(self.slots, i, item);
    }

    /// Puts another entry into slot i.
    pub(crate) fn rewrite(&mut self, i: usize, item: Item)
        requires place { (i < length self.old.slots.now) × (0 < item.len) }
        requires filled { 0 < lengths self.old.slots.now i }
        ensures now { items self.new.slots.now ≡ slice_set (items self.old.slots.now) i item }
    {
        vacate(self.slots, i);
        occupy(self.slots, i, item);
    }

    /// Takes the entry out of slot i, and puts that of the last slot in use there.
    pub(crate) fn remove(&mut self, last: usize, i: usize)
        requires place { (i ≤ last) × (last < length self.old.slots.now) }
        requires filled { (0 < lengths self.old.slots.now i) × (0 < lengths self.old.slots.now last) }
        ensures vacant { lengths self.new.slots.now last ≡ 0 }
        ensures others { (j : ℕ) → last < j → lengths self.new.slots.now j ≡ lengths self.old.slots.now j }
        ensures now { (d : Stored) → take last (items self.new.slots.now) ≡ take last (slice_set (items self.old.slots.now) i (slice_index_or (items self.old.slots.now) last d)) }
        ensures size { length self.new.slots.now ≡ length self.old.slots.now }
    {
        let item = self.slots[last].item;
        vacate(self.slots, last);
        if i == last {
            return;
        }
        self.rewrite(i, item);
    }
}
