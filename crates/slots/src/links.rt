ghost use Rattle.std.specs.Prelude.{◌≡◌, ◌+◌, ◌<◌};
ghost use Rattle.slots.specs.Links.{family_number, slot_of};

/// The two families of chains: by the key of an entry, and by its rank.
#[derive(Clone, Copy)]
pub(crate) enum Family {
    Key,
    Rank,
}

impl Family {
    /// Its place among the links of a slot.
    pub(crate) fn index(self) -> usize
        ensures is { result ≡ family_number self }
        ensures below { result < 2 }
    {
        self as usize
    }
}

/// The slot that a chain goes on to, or none: one more than the slot's number, or 0.
// Kept: an `Option<u32>` has its tag beside the number, so that each of a slot's four links would take 8 bytes in place of 4.
#[derive(Clone, Copy)]
pub(crate) struct Link(pub(crate) u32);

impl Link {
    pub(crate) const NONE: Link = Link(0);

    /// The link to slot i.
    pub(crate) fn to(i: usize) -> Link
        requires { i < 1048576 }
        ensures { result.0 ≡ i + 1 }
    {
        Link((i + 1) as u32)
    }

    /// The slot that it goes to.
    pub(crate) fn slot(self) -> Option<usize>
        ensures { result ≡ slot_of self.0 }
    {
        (self.0 as usize).checked_sub(1)
    }
}

/// What a slot has of the chains of a family: the head of one chain, and the next after its own entry in that entry's chain.
#[derive(Clone, Copy)]
pub(crate) struct Links {
    pub(crate) head: Link,
    pub(crate) next: Link,
}
