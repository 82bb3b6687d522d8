ghost use Rattle.std.specs.Prelude.{◌≡◌, ◌+◌, ◌≤◌, [], length, drop};
ghost use Rattle.names.specs.Names.{class};
ghost use Rattle.store.specs.Calls.{put_answer, PutLeaves, TakeLeaves, move_answer, MoveLeaves};
ghost use Rattle.store.specs.Entries.{entry_of, found};
ghost use Rattle.image.specs.Format.{encoded};
ghost use Rattle.image.specs.Held.{own_bytes, held, room_of, ChangesWithin, put_order, take_order, move_order};
ghost use Rattle.image.specs.Lawful.{bounded, weighty, within};
ghost use Rattle.image.specs.Promises.{Sought};
ghost use Rattle.image.specs.Reading.{listed};

use crate::field::Record;
use crate::packed::PackedImage;
use crate::search::{Placed, count_inside, nth_inside, records_end, seek};
use crate::tag::Tag;
use crate::write::{close_up, wipe, write_field, write_record};
use names::padded;
use store::{LAST_PARTITION, ListedEntry, MoveError, PutError, Store, is_key};

impl PackedImage<'_> {
    /// The bytes that the store lies in.
    fn own_bytes(&self) -> &[u8]
        ensures { result.now ≡ own_bytes self.now }
    {
        &self.image[..self.len]
    }

    /// The record of the entry with this key, or where the records end.
    fn look(&self, partition: u16, name: &[u8]) -> Result<Placed, usize>
        ensures { Sought result (held class self.now) partition name.now }
    {
        seek(self.own_bytes(), partition, name)
    }

    /// Where the records end that stand from `at` on.
    fn end_from(&self, at: usize) -> usize
        requires { at ≤ self.now.len }
        ensures { result ≡ at + length (encoded (listed class (drop at (own_bytes self.now)))) }
    {
        at + records_end(&self.own_bytes()[at..])
    }
}

impl Store for PackedImage<'_> {
    ghost entries = { held class };

    ghost room = { room_of };

    ghost lawful = { λ s. s.filled.keys };

    ghost bounded = { bounded };

    ghost weighty = { weighty };

    ghost within = { within };

    fn find(&self, partition: u16, name: &[u8]) -> Option<u64> {
        let held = self.look(partition, name).ok()?;
        Some(held.number)
    }

    fn put(&mut self, partition: u16, name: &[u8], number: u64) -> Result<(), PutError>
        ensures gives { result ≡ put_answer class (room_of self.old) (held class self.old) partition name.now }
        ensures order { held class self.new ≡ put_order result (held class self.old) (entry_of partition name.now number) }
        ensures leaves { PutLeaves result (held class self.old) (entry_of partition name.now number) (held class self.new) }
        ensures within { ChangesWithin self.old self.new }
    {
        if !is_key(partition, name) {
            return Err(PutError::BadKey);
        }
        let Err(end) = self.look(partition, name) else {
            return Err(PutError::Present);
        };
        let record = Record {
            partition,
            name,
            number,
        };
        let length = record.length();
        if self.len - end < length {
            return Err(PutError::Full);
        }
        write_record(&mut self.image[end..end + length], &record);
        Ok(())
    }

    fn take(&mut self, partition: u16, name: &[u8]) -> Option<u64>
        ensures gives { result ≡ found (held class self.old) partition name.now }
        ensures order { held class self.new ≡ take_order result (held class self.old) partition name.now }
        ensures leaves { TakeLeaves result (held class self.old) partition name.now (held class self.new) }
        ensures within { ChangesWithin self.old self.new }
    {
        let Ok(held) = self.look(partition, name) else {
            return None;
        };
        let end = self.end_from(held.place);
        close_up(&mut self.image[held.place..end], held.length);
        Some(held.number)
    }

    fn relocate(&mut self, from: u16, to: u16, name: &[u8]) -> Result<(), MoveError>
        ensures gives { result ≡ move_answer (held class self.old) from to name.now }
        ensures order { held class self.new ≡ move_order result (held class self.old) from to name.now }
        ensures leaves { MoveLeaves result (held class self.old) from to name.now (held class self.new) }
        ensures within { ChangesWithin self.old self.new }
    {
        if to > LAST_PARTITION {
            return Err(MoveError::Absent);
        }
        let Ok(held) = self.look(from, name) else {
            return Err(MoveError::Absent);
        };
        if self.look(to, name).is_ok() {
            return Err(MoveError::Present);
        }
        write_field(
            &mut self.image[held.place..held.place + 5],
            Tag::Partition,
            &to.to_be_bytes(),
        );
        Ok(())
    }

    fn count(&self, partition: u16) -> usize {
        count_inside(self.own_bytes(), partition)
    }

    fn entry(&self, partition: u16, k: usize, name: &mut [u8; 32]) -> Option<ListedEntry> {
        let record = nth_inside(self.own_bytes(), partition, k)?;
        *name = padded(record.name);
        Some(ListedEntry {
            len: record.name.len() as u8,
            number: record.number,
        })
    }

    fn clear(&mut self)
        ensures empties { held class self.new ≡ [] }
        ensures within { ChangesWithin self.old self.new }
    {
        let end = self.end_from(0);
        wipe(&mut self.image[..end]);
    }
}
