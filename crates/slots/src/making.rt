ghost use Rattle.std.specs.Prelude.{◌≡◌, ◌≤◌, [], length, drop, Some};
ghost use Rattle.slots.specs.Held.{beyond, entries_by_rank, room_of, room_for};
ghost use Rattle.slots.specs.Making.{refusal_number, refusal_words, slots_answer, slots_refusal, slots_taken};
ghost use Rattle.slots.specs.Ranks.{Ranked};
ghost use Rattle.slots.specs.Table.{Counts, Free};

use crate::slot::Slot;
use crate::table::{Lent, SlotTable};
use std::error::Error;
use std::fmt;

/// The most slots that a table may lie in.
const MOST: usize = 1_048_576;

/// Why slots are refused, with the number of the refusal in answers.
#[derive(Clone, Copy, PartialEq, Eq, Debug)]
pub enum SlotsRefusal {
    /// There are more than 1,048,576.
    TooMany = 32,
}

impl SlotsRefusal {
    /// The number of the refusal in answers.
    // Kept: each refusal has this call, since a trait for it would have to stand in a crate below all of them.
    pub fn number(self) -> u8
        ensures { result ≡ refusal_number self }
    {
        self as u8
    }
}

impl fmt::Display for SlotsRefusal {
    ghost output = { λ refusal. Some (refusal_words refusal) };

    fn fmt<W: fmt::Write>(&self, f: &mut fmt::Formatter<W>) -> fmt::Result {
        f.write_str(match self {
            SlotsRefusal::TooMany => "there are too many slots",
        })
    }
}

impl Error for SlotsRefusal {}

/// The counts of a table that has no entry.
pub(crate) fn no_counts() -> [u32; 512]
    ensures wide { length result ≡ 512 }
    ensures ranked { Ranked result [] }
    ensures counted { Counts result [] }
{
    [0; 512]
}

impl<'a> Lent<'a> {
    /// Vacates slots that a table may lie in.
    fn over(slots: &'a mut [Slot]) -> Lent<'a>
        requires { length slots.old ≤ 1048576 }
        ensures size { length result.slots.now ≡ length slots.old }
        ensures free { Free 0 result.slots.now }
    {
        slots.fill(Slot::EMPTY);
        Lent { slots }
    }
}

impl<'a> SlotTable<'a> {
    /// Refuses more slots than a table may lie in.
    pub fn check(slots: &[Slot]) -> Result<(), SlotsRefusal>
        ensures { slots_answer result ≡ slots_refusal (length slots.now) }
    {
        if slots.len() <= MOST {
            Ok(())
        } else {
            Err(SlotsRefusal::TooMany)
        }
    }

    /// An empty table whose capacity is the number of slots, whatever they held. Over slots that `check` refuses it has capacity 0.
    pub fn new(slots: &'a mut [Slot]) -> SlotTable<'a>
        ensures empty { entries_by_rank result ≡ [] }
        ensures room { room_of result ≡ room_for (slots_taken (length slots.old)) }
        ensures spares { beyond result ≡ drop (slots_taken (length slots.old)) slots.old }
    {
        let n = SlotTable::check(slots).map_or(0, |()| slots.len());
        let (slots, beyond) = slots.split_at_mut(n);
        SlotTable {
            lent: Lent::over(slots),
            beyond,
            used: 0,
            counts: no_counts(),
        }
    }
}
