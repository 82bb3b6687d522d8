use std::io;
use std::time::{Duration, Instant};
use store::Store;

/// How long the calls of one kind took, and how many of them were answered as they should be.
#[derive(Clone, Copy, Default)]
pub(crate) struct Spent {
    pub(crate) time: Duration,
    pub(crate) right: u64,
}

impl Spent {
    pub(crate) fn add(&mut self, other: Spent) {
        self.time = self.time.saturating_add(other.time);
        self.right = self.right.saturating_add(other.right);
    }
}

/// The kinds of calls, in the order in which `round` makes them.
// Kept: the names stand apart from the times and counts, which each round makes anew.
pub(crate) const CALLS: [&str; 6] = ["put", "find", "count", "entry k", "move", "take"];

/// Makes each call for every entry: the store is filled, and emptied again. A move takes an entry half way round.
pub(crate) fn round<S: Store>(
    rt: &HostRuntime,
    store: &mut S,
    count: u32,
) -> io::Result<[Spent; 6]> {
    Ok([
        time(rt, count, |i| put_entry(store, i))?,
        time(rt, count, |i| {
            store.find(home(i), &name_of(i)) == Some(u64::from(i))
        })?,
        time(rt, count, |i| store.count(home(i)) > 0)?,
        time(rt, count, |i| {
            let k = (i / 512) as usize;
            store.entry(home(i), k, &mut [0; 32]).is_some()
        })?,
        time(rt, count, |i| {
            store.relocate(home(i), away(i), &name_of(i)).is_ok()
        })?,
        time(rt, count, |i| {
            store.take(away(i), &name_of(i)) == Some(u64::from(i))
        })?,
    ])
}

/// Makes a call for each of `count` entries. `call` says whether it was answered as it should be.
fn time<F: FnMut(u32) -> bool>(rt: &HostRuntime, count: u32, mut call: F) -> io::Result<Spent>
    requires { F.IsAlwaysCallable call }
{
    let start = Instant::now(rt)?;
    let mut right = 0u64;
    // Kept: after `filter` and `count` it stays open that the call may be made again.
    for turn in 0..count {
        if call(scattered(turn, count)) {
            right = right.saturating_add(1);
        }
    }
    let time = start.elapsed(rt)?;
    Ok(Spent { time, right })
}

/// Puts every entry.
pub(crate) fn fill<S: Store>(store: &mut S, count: u32) {
    for i in 0..count {
        put_entry(store, scattered(i, count));
    }
}

/// Puts entry `i`, and says whether it was added.
fn put_entry<S: Store>(store: &mut S, i: u32) -> bool {
    store.put(home(i), &name_of(i), u64::from(i)).is_ok()
}

/// The partition of entry `i`: the entries are spread over all partitions.
fn home(i: u32) -> u16 {
    (i % 512) as u16
}

/// The partition that entry `i` is moved to.
fn away(i: u32) -> u16 {
    ((i % 512 + 256) % 512) as u16
}

/// The entries in another order than that of their numbers: 7919 is prime and divides none of the counts.
fn scattered(turn: u32, count: u32) -> u32 {
    (u64::from(turn) * 7919)
        .checked_rem(u64::from(count))
        .map_or(0, |i| i as u32)
}

/// The sensor name of entry `i`: eight hexadecimal digits.
fn name_of(i: u32) -> [u8; 8] {
    let mut name = [0; 8];
    let mut rest = i;
    for digit in name.iter_mut().rev() {
        *digit = b"0123456789ABCDEF"[(rest % 16) as usize];
        rest /= 16;
    }
    name
}
