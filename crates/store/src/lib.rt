// What a store is: a set of entries under a capacity, and the calls on it.
#![tactic(auto)]

ghost use Rattle.std.specs.Prelude.{◌≡◌, ℕ, ◌≤◌, true, List, [], length};
ghost use Rattle.std.specs.List.{slice_get};
ghost use Rattle.names.specs.Names.{class};
ghost use Rattle.store.specs.Calls.{put_answer, PutLeaves, TakeLeaves, move_answer, MoveLeaves, listed, padded};
ghost use Rattle.store.specs.Entries.{Entry, Room, entry_of, found, inside, used, sound};

mod answers;
mod keys;
mod laws;

pub use answers::{ListedEntry, MoveError, PutError};
pub use keys::{LAST_PARTITION, is_key};
pub use laws::{bad_keys_are_unanswered, entries_are_listed_once};

/// A set of entries under a capacity. An entry is a partition, a short form and a record number; partition and short form are its key.
// Kept: the key is two arguments. Of a struct that holds the name a clause would say `key.entry.partition` and `key.entry.name.now`.
pub trait Store {
    /// The entries, in the store's own order.
    ghost entries: { Self → List Entry };

    /// The capacity, and the weight of a name of each length. No call changes them.
    ghost room: { Self → Room };

    /// The record number of the entry with this key, or absent.
    fn find(&self, partition: u16, name: &[u8]) -> Option<u64>
        ensures { result ≡ found (entries self.now) partition name.now };

    /// Adds an entry, unless its key is a bad one, its partition has the name already, or its weight does not fit.
    fn put(&mut self, partition: u16, name: &[u8], number: u64) -> Result<(), PutError>
        ensures gives { result ≡ put_answer class (room self.old) (entries self.old) partition name.now }
        ensures leaves { PutLeaves result (entries self.old) (entry_of partition name.now number) (entries self.new) }
        ensures keeps { room self.new ≡ room self.old };

    /// Removes the entry with this key and answers its record number, or absent.
    fn take(&mut self, partition: u16, name: &[u8]) -> Option<u64>
        ensures gives { result ≡ found (entries self.old) partition name.now }
        ensures leaves { TakeLeaves result (entries self.old) partition name.now (entries self.new) }
        ensures keeps { room self.new ≡ room self.old };

    /// Passes the entry with this key from one partition to another. It is never too heavy there.
    fn relocate(&mut self, from: u16, to: u16, name: &[u8]) -> Result<(), MoveError>
        ensures gives { result ≡ move_answer (entries self.old) from to name.now }
        ensures leaves { MoveLeaves result (entries self.old) from to name.now (entries self.new) }
        ensures keeps { room self.new ≡ room self.old };

    /// How many entries a partition has.
    fn count(&self, partition: u16) -> usize
        ensures { result ≡ length (inside (entries self.now) partition) };

    /// Entry `k` of a partition, counted from 0 in the store's order. Its name and then zeros go into the caller's bytes. From the
    /// count on it is absent, and no byte is written.
    // Kept: the caller lends 32 bytes and is told the length, which is the form that the project asks for.
    fn entry(&self, partition: u16, k: usize, name: &mut [u8; 32]) -> Option<ListedEntry>
        ensures gives { result ≡ listed (slice_get (inside (entries self.now) partition) k) }
        ensures writes { name.new ≡ padded (slice_get (inside (entries self.now) partition) k) name.old };

    /// Removes every entry.
    fn clear(&mut self)
        ensures empties { entries self.new ≡ [] }
        ensures keeps { room self.new ≡ room self.old };

    /// Every key is a good one, and none comes twice.
    ghost lawful: { (s : Self) → sound class (entries s) ≡ true };

    ghost bounded: { (s : Self) → (room s).capacity ≤ 1048576 };

    ghost weighty: { (s : Self) (len : ℕ) → 1 ≤ (room s).weight len };

    /// The weights of all entries are within the capacity.
    ghost within: { (s : Self) → used (room s).weight (entries s) ≤ (room s).capacity };
}
