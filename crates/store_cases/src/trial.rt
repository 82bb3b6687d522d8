use std::io;
use store::{ListedEntry, Store};

const LONG: &str = "0123456789ABCDEF0123456789ABCDEF0";

/// A store whose calls are printed, with what they answer.
#[derive(Drop)]
pub(crate) struct Trial<'a, R, S> {
    pub(crate) rt: &'a R,
    pub(crate) store: S,
}

impl<R: Print, S: Store> Trial<'_, R, S> {
    /// The store, when its calls are over.
    pub(crate) fn into_store(self) -> S {
        let Trial { rt: _, store } = self;
        store
    }

    /// A key is found from its put to its take.
    pub(crate) fn basics(&mut self) -> io::Result<()> {
        self.find(2, "A")?;
        self.put(2, "A", 7)?;
        self.find(2, "A")?;
        self.put(2, "A", 8)?;
        self.find(2, "A")?;
        self.find(3, "A")?;
        self.find(2, "a")?;
        self.list(2)?;
        self.take(2, "A")?;
        self.take(2, "A")?;
        self.list(2)
    }

    /// The capacity counts the entries of all partitions, and what is taken makes room again.
    pub(crate) fn fill_up(&mut self) -> io::Result<()> {
        self.put(0, "A", 1)?;
        self.put(0, "B", 2)?;
        self.put(511, "A", 4)?;
        self.put(1, "C", 8)?;
        self.put(0, "A", 8)?;
        self.list(0)?;
        self.list(511)?;
        self.take(0, "A")?;
        self.put(1, "C", 8)?;
        self.list(0)?;
        self.list(1)
    }

    /// A full store moves entries too. It holds B in 0, A in 511 and C in 1.
    pub(crate) fn moves(&mut self) -> io::Result<()> {
        self.relocate(0, 1, "B")?;
        self.relocate(0, 1, "B")?;
        self.relocate(1, 1, "B")?;
        self.list(0)?;
        self.list(1)?;
        self.find(1, "B")?;
        self.take(1, "C")?;
        self.put(1, "A", 16)?;
        self.relocate(511, 1, "A")?;
        self.relocate(511, 1, "C")?;
        self.list(1)?;
        self.clear();
        self.list(1)?;
        self.find(511, "A")
    }

    /// Partitions above 511 and names that are no short forms.
    pub(crate) fn bad_keys(&mut self) -> io::Result<()> {
        self.put(512, "A", 1)?;
        self.put(65535, "A", 1)?;
        self.put(1, "", 1)?;
        self.put(1, "A B", 1)?;
        self.put(1, "A/B", 1)?;
        self.put(1, LONG, 1)?;
        self.find(512, "A")?;
        self.take(1, "A/B")?;
        self.list(512)?;
        self.put(511, "A", 1)?;
        self.relocate(511, 512, "A")?;
        self.relocate(512, 511, "A")?;
        self.relocate(511, 0, "")?;
        self.find(511, "A")
    }

    pub(crate) fn clear(&mut self) {
        self.store.clear();
    }

    pub(crate) fn put(&mut self, partition: u16, name: &str, number: u64) -> io::Result<()> {
        match self.store.put(partition, name.as_bytes(), number) {
            Ok(()) => println!(self.rt; "put {partition} \"{name}\" {number}: Added"),
            Err(error) => println!(self.rt; "put {partition} \"{name}\" {number}: {error:?}"),
        }
    }

    pub(crate) fn find(&self, partition: u16, name: &str) -> io::Result<()> {
        let answer = self.store.find(partition, name.as_bytes());
        println!(self.rt; "find {partition} \"{name}\": {answer:?}")
    }

    // Kept: beside `find`, which differs in the call and in a word, since each is two lines; so are `put` and `relocate`.
    pub(crate) fn take(&mut self, partition: u16, name: &str) -> io::Result<()> {
        let answer = self.store.take(partition, name.as_bytes());
        println!(self.rt; "take {partition} \"{name}\": {answer:?}")
    }

    pub(crate) fn relocate(&mut self, from: u16, to: u16, name: &str) -> io::Result<()> {
        match self.store.relocate(from, to, name.as_bytes()) {
            Ok(()) => println!(self.rt; "move {from} to {to} \"{name}\": Moved"),
            Err(error) => println!(self.rt; "move {from} to {to} \"{name}\": {error:?}"),
        }
    }

    /// Counts and lists a partition. The order is open, so the record numbers are added up, and each entry listed is looked up again.
    pub(crate) fn list(&self, partition: u16) -> io::Result<()> {
        let count = self.store.count(partition);
        let mut total = 0u64;
        let mut again = 0usize;
        // Kept: each entry is looked up again in between, so that a chain would hold the whole loop.
        for k in 0..count {
            let mut name = [0xFF; 32];
            if let Some(entry) = self.store.entry(partition, k, &mut name) {
                total = total.saturating_add(entry.number);
                if self.is_found(partition, &name, entry) {
                    again = again.saturating_add(1);
                }
            }
        }
        println!(self.rt;
            "list {partition}: {count} entries, numbers add up to {total}, found again {again}, nothing past them {}",
            self.is_absent(partition, count)
        )
    }

    /// Whether the name that was listed is in the partition with the number that was listed, and zeros stand behind it.
    fn is_found(&self, partition: u16, bytes: &[u8; 32], entry: ListedEntry) -> bool {
        bytes.split_at_checked(usize::from(entry.len)).is_some_and(|(name, rest)| {
            !name.contains(&0)
                && rest.iter().all(|byte| *byte == 0)
                && self.store.find(partition, name) == Some(entry.number)
        })
    }

    /// Whether entry k is absent and its call writes no byte.
    fn is_absent(&self, partition: u16, k: usize) -> bool {
        let mut bytes = [0xFF; 32];
        self.store.entry(partition, k, &mut bytes).is_none() && bytes == [0xFF; 32]
    }
}
