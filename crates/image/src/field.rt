ghost use Rattle.std.specs.Prelude.{◌≡◌, length};
ghost use Rattle.store.specs.Entries.{has_key};
ghost use Rattle.image.specs.Format.{weight};
ghost use Rattle.image.specs.Promises.{entry_in};

/// A field of a record. A name lies in the image.
#[derive(Clone, Copy, PartialEq, Eq, Debug)]
pub(crate) enum Field<'a> {
    Partition(u16),
    Name(&'a [u8]),
    Number(u64),
}

/// A record of an image. Its name lies in the image.
#[derive(Clone, Copy, PartialEq, Eq, Debug)]
pub struct Record<'a> {
    pub partition: u16,
    pub name: &'a [u8],
    pub number: u64,
}

impl Record<'_> {
    /// Whether the record's entry has this key.
    pub(crate) fn has_key(&self, partition: u16, name: &[u8]) -> bool
        ensures { result ≡ has_key partition name.now (entry_in self.now) }
    {
        self.partition == partition && self.name == name
    }

    /// How many bytes the record has.
    pub(crate) fn length(&self) -> usize
        ensures { result ≡ weight (length self.now.name.now) }
    {
        19 + self.name.len()
    }
}
