ghost use Rattle.std.specs.Prelude.{◌≡◌, ◌≤◌, true, length, take};
ghost use Rattle.names.specs.Names.{class};
ghost use Rattle.store.specs.Entries.{sound};
ghost use Rattle.slots.specs.Columns.{BothLinked, items};
ghost use Rattle.slots.specs.Ranks.{Ranked};
ghost use Rattle.slots.specs.Table.{entries_in, Free, Counts};

use crate::slot::Slot;

/// The slots that a table lies in. Their links are as the items in them say.
#[derive(Drop)]
pub(crate) struct Lent<'a> {
    pub(crate) slots: &'a mut [Slot],
    ghost few: { length slots.now ≤ 1048576 },
    ghost linked: { BothLinked slots.now },
}

/// A store in slots that the caller lends. The entries lie in the first `used` of those that are lent for it, and in chains by key and by
/// rank; the ranks of a partition's entries are the numbers below its count. The table never touches the slots beyond.
#[derive(Drop)]
pub struct SlotTable<'a> {
    pub(crate) lent: Lent<'a>,
    pub(crate) beyond: &'a mut [Slot],
    pub(crate) used: usize,
    pub(crate) counts: [u32; 512],
    ghost within: { used ≤ length lent.slots.now },
    ghost lawful: { sound class (entries_in used (items lent.slots.now)) ≡ true },
    ghost free: { Free used lent.slots.now },
    ghost wide: { length counts ≡ 512 },
    ghost ranks: { Ranked counts (take used (items lent.slots.now)) },
    ghost counted: { Counts counts (entries_in used (items lent.slots.now)) },
}
