ghost use Rattle.std.specs.Prelude.{◌≡◌, ℕ, ◌-◌, ◌<◌, ◌≤◌, length};
ghost use Rattle.slots.specs.Chains.{Point, Pointed, except};
ghost use Rattle.slots.specs.Columns.{Linked, Chained, Framed, code, codes, items, heads, lengths, nexts};
ghost use Rattle.slots.specs.Links.{family_number};
ghost use Rattle.slots.specs.Pointers.{place_of, chain_of, stands_in};

use crate::links::{Family, Link};
use crate::slot::{Item, Slot};

/// A walk of a chain of a family, from its head on: it gives the number and the item of each slot. The numbers fall.
#[derive(Drop)]
pub(crate) struct Chain<'a> {
    slots: &'a [Slot],
    family: Family,
    at: Link,
    ghost linked: { Linked (family_number family) slots.now },
    ghost within: { at.0 ≤ length slots.now },
    ghost coded: { 0 < at.0 → codes (family_number family) (length slots.now) (items slots.now) (at.0 - 1) < length slots.now },
}

impl<'a> Chain<'a> {
    ghost use Rattle.slots.specs.Walk.{chain_below, slots_left};

    /// The walk of chain b.
    pub(crate) fn new(slots: &'a [Slot], family: Family, b: usize) -> Chain<'a>
        requires below { b < length slots.now }
        requires linked { Linked (family_number family) slots.now }
        ensures slots { result.slots.now ≡ slots.now }
        ensures left { slots_left result ≡ chain_below (family_number family) slots.now (length slots.now) b }
    {
        Chain {
            slots,
            family,
            at: slots[b].links[family.index()].head,
        }
    }
}

impl<'a> Iterator for Chain<'a> {
    ghost use Rattle.std.specs.Iterator.{YieldsFirstBy, item_count};
    ghost use Rattle.slots.specs.Walk.{items_left};

    type Item = (usize, &'a Item);

    ghost next_gives = { YieldsFirstBy (λ slot. (slot.0, slot.1.now)) items_left };

    ghost remaining = { item_count items_left };

    fn next(&mut self) -> Option<(usize, &'a Item)> {
        let i = self.at.slot()?;
        let slot = &self.slots[i];
        self.at = slot.links[self.family.index()].next;
        Some((i, &slot.item))
    }
}

/// Where a link stands in a family: it is the head of a chain, or what is next after a slot.
#[derive(Clone, Copy)]
pub(crate) enum Pointer {
    Head(usize),
    Next(usize),
}

impl Pointer {
    /// The link there.
    fn link(self, slots: &[Slot], family: Family) -> Link
        requires { stands_in self < length slots.now }
        ensures head { (b : ℕ) → chain_of b self ≡ b → place_of (length slots.now) self ≡ length slots.now → result.0 ≡ heads (family_number family) slots.now b }
        ensures next { place_of (length slots.now) self < length slots.now → result.0 ≡ nexts (family_number family) slots.now (place_of (length slots.now) self) }
    {
        match self {
            Pointer::Head(b) => slots[b].links[family.index()].head,
            Pointer::Next(i) => slots[i].links[family.index()].next,
        }
    }

    /// Sets that link.
    fn set(self, slots: &mut [Slot], family: Family, link: Link)
        requires { stands_in self < length slots.old }
        ensures pointed { (b : ℕ) → chain_of b self ≡ b → Pointed (length slots.old) b (place_of (length slots.old) self) link.0 (heads (family_number family) slots.old) (nexts (family_number family) slots.old) (heads (family_number family) slots.new) (nexts (family_number family) slots.new) }
        ensures framed { Framed (family_number family) slots.old slots.new }
    {
        match self {
            // Kept: the check takes a write into an array field of a slot only through a variable that refers to the slot.
            Pointer::Head(b) => {
                let slot = &mut slots[b];
                slot.links[family.index()].head = link;
            }
            Pointer::Next(i) => {
                let slot = &mut slots[i];
                slot.links[family.index()].next = link;
            }
        }
    }
}

/// The pointer of chain b that passes slot i: the first from the head on that points to i or below.
fn seek(slots: &[Slot], family: Family, b: usize, i: usize) -> Pointer
    requires sizes { (b < length slots.now) × (i < length slots.now) }
    requires linked { Linked (family_number family) slots.now }
    ensures chain { chain_of b result ≡ b }
    ensures stands { stands_in result < length slots.now }
    ensures point { (v : ℕ) × Point (codes (family_number family) (length slots.now) (items slots.now)) (length slots.now) b i (place_of (length slots.now) result) v }
{
    Chain::new(slots, family, b)
        .map(|(j, _)| j)
        .take_while(|j| *j > i)
        .last()
        .map_or(Pointer::Head(b), Pointer::Next)
}

// Kept: a struct of the slots and the family would promise in each method that the family stays, and would be made anew for each call.
// Kept: while a slot leaves its chains or comes into others the links do not fit the items, so that a type cannot keep that they do.

/// Takes slot i out of its chain.
pub(crate) fn unlink(slots: &mut [Slot], family: Family, i: usize)
    requires place { i < length slots.old }
    requires linked { Linked (family_number family) slots.old }
    requires filled { 0 < lengths slots.old i }
    ensures chained { Chained (family_number family) (except i (length slots.old) (codes (family_number family) (length slots.old) (items slots.old))) slots.new }
    ensures framed { Framed (family_number family) slots.old slots.new }
{
    let item = slots[i].item;
    let b = item.chain(family, slots.len());
    let pointer = seek(slots, family, b, i);
    let after = Pointer::Next(i).link(slots, family);
    pointer.set(slots, family, after);
}

/// Puts slot i, which is in no chain, into the chain that an item is in.
pub(crate) fn link(slots: &mut [Slot], family: Family, i: usize, item: &Item)
    requires place { (i < length slots.old) × ((length slots.old ≤ 1048576) × (0 < item.now.len)) }
    requires linked { Linked (family_number family) slots.old }
    requires vacant { lengths slots.old i ≡ 0 }
    ensures chained { Chained (family_number family) (except i (code (family_number family) (length slots.old) item.now) (codes (family_number family) (length slots.old) (items slots.old))) slots.new }
    ensures framed { Framed (family_number family) slots.old slots.new }
{
    let b = item.chain(family, slots.len());
    let pointer = seek(slots, family, b, i);
    let after = pointer.link(slots, family);
    Pointer::Next(i).set(slots, family, after);
    pointer.set(slots, family, Link::to(i));
}
