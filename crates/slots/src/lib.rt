// A store in slots that the caller lends. Its entries lie in chains by key and by rank, so that each call but clear looks at few of them.
#![tactic(auto)]

ghost use Rattle.std.specs.Prelude.{◌≡◌, []};
ghost use Rattle.names.specs.Names.{class};
ghost use Rattle.store.specs.Calls.{put_answer, PutLeaves, TakeLeaves, move_answer, MoveLeaves};
ghost use Rattle.store.specs.Entries.{entry_of, found};
ghost use Rattle.slots.specs.Held.{ChangesWithin, entries_by_rank, room_of};
ghost use Rattle.slots.specs.Lawful.{lawful, weighty, within};

mod chains;
mod links;
mod lookup;
mod making;
mod places;
mod slot;
mod table;

use crate::making::no_counts;
use crate::slot::Item;
pub use making::SlotsRefusal;
pub use slot::Slot;
use store::{LAST_PARTITION, ListedEntry, MoveError, PutError, Store, is_key};
pub use table::SlotTable;

impl Store for SlotTable<'_> {
    ghost entries = { entries_by_rank };

    ghost room = { room_of };

    ghost lawful = { lawful };

    ghost bounded = { λ s. s.lent.few };

    ghost weighty = { weighty };

    ghost within = { within };

    fn find(&self, partition: u16, name: &[u8]) -> Option<u64> {
        let slot = self.place(partition, name)?;
        Some(self.number_at(slot))
    }

    fn put(&mut self, partition: u16, name: &[u8], number: u64) -> Result<(), PutError>
        ensures gives { result ≡ put_answer class (room_of self.old) (entries_by_rank self.old) partition name.now }
        ensures leaves { PutLeaves result (entries_by_rank self.old) (entry_of partition name.now number) (entries_by_rank self.new) }
        ensures within { ChangesWithin self.old self.new }
    {
        if !is_key(partition, name) {
            return Err(PutError::BadKey);
        }
        if self.place(partition, name).is_some() {
            return Err(PutError::Present);
        }
        if self.used >= self.lent.slots.len() {
            return Err(PutError::Full);
        }
        // Kept: `as` is proved to lose nothing, and `usize::from` in an index says no more.
        let rank = self.counts[partition as usize];
        let item = Item::holding(partition, name, number, rank);
        self.lent.add(self.used, item);
        self.used += 1;
        self.counts[partition as usize] += 1;
        Ok(())
    }

    fn take(&mut self, partition: u16, name: &[u8]) -> Option<u64>
        ensures gives { result ≡ found (entries_by_rank self.old) partition name.now }
        ensures leaves { TakeLeaves result (entries_by_rank self.old) partition name.now (entries_by_rank self.new) }
        ensures within { ChangesWithin self.old self.new }
    {
        let i = self.place(partition, name)?;
        let number = self.number_at(i);
        let (j, heir) = self.heir(i);
        let last = self.used - 1;
        self.lent.rewrite(j, heir);
        self.lent.remove(last, i);
        self.used = last;
        self.counts[partition as usize] -= 1;
        Some(number)
    }

    fn relocate(&mut self, from: u16, to: u16, name: &[u8]) -> Result<(), MoveError>
        ensures gives { result ≡ move_answer (entries_by_rank self.old) from to name.now }
        ensures leaves { MoveLeaves result (entries_by_rank self.old) from to name.now (entries_by_rank self.new) }
        ensures within { ChangesWithin self.old self.new }
    {
        let i = self.place(from, name).ok_or(MoveError::Absent)?;
        if to > LAST_PARTITION {
            return Err(MoveError::Absent);
        }
        if self.place(to, name).is_some() {
            return Err(MoveError::Present);
        }
        let (j, heir) = self.heir(i);
        let mut moved = self.lent.slots[i].item;
        moved.partition = to;
        moved.rank = self.counts[to as usize];
        self.lent.rewrite(j, heir);
        self.lent.rewrite(i, moved);
        self.counts[from as usize] -= 1;
        self.counts[to as usize] += 1;
        Ok(())
    }

    fn count(&self, partition: u16) -> usize {
        self.count_in(partition) as usize
    }

    fn entry(&self, partition: u16, k: usize, name: &mut [u8; 32]) -> Option<ListedEntry> {
        let i = self.kth(partition, k)?;
        Some(self.listed_at(i, name))
    }

    fn clear(&mut self)
        ensures empties { entries_by_rank self.new ≡ [] }
        ensures within { ChangesWithin self.old self.new }
    {
        self.lent.empty();
        self.used = 0;
        self.counts = no_counts();
    }
}
