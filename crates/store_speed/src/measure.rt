use crate::load::{CALLS, Spent, fill, round};
use image::PackedImage;
use slots::{Slot, SlotTable};
use std::io;
use std::time::Instant;
use store::Store;

/// Slot tables that are filled to the last slot.
pub(crate) fn tables(rt: &HostRuntime) -> anyhow::Result<()> {
    for (count, rounds) in [(1_000, 1_000), (30_000, 33), (1_000_000, 1)] {
        table(rt, count, rounds)?;
    }
    Ok(())
}

/// A slot table with so many entries, filled and emptied so many times.
pub(crate) fn table(rt: &HostRuntime, count: u32, rounds: u32) -> anyhow::Result<()> {
    println!(rt; "slot table, {count} entries:")?;
    let mut slots = vec![in rt.alloc(); Slot::EMPTY; count as usize]?;
    measure(rt, &mut SlotTable::new(slots.as_mut_slice()), count, rounds)?;
    Ok(())
}

/// Images that are filled to the last byte.
pub(crate) fn images(rt: &HostRuntime) -> anyhow::Result<()> {
    for (count, rounds) in [(100, 100), (1_000, 10), (2_400, 4)] {
        image(rt, count, rounds)?;
    }
    Ok(())
}

/// Each entry has 27 bytes: 19, and a name of 8.
fn image(rt: &HostRuntime, count: u32, rounds: u32) -> anyhow::Result<()> {
    println!(rt; "packed image, {count} entries:")?;
    let mut bytes = vec![in rt.alloc(); 0u8; 27 * count as usize]?;
    let mut image = PackedImage::open(bytes.as_mut_slice());
    measure(rt, &mut image, count, rounds)?;
    fill(&mut image, count);
    opening(rt, image.into_bytes())?;
    Ok(())
}

/// Prints the mean time of each call, over so many rounds in which the store is filled and emptied.
fn measure<S: Store>(rt: &HostRuntime, store: &mut S, count: u32, rounds: u32) -> io::Result<()> {
    let mut totals = [Spent::default(); 6];
    for _ in 0..rounds {
        for (total, spent) in totals.iter_mut().zip(round(rt, store, count)?) {
            total.add(spent);
        }
    }
    let made = u64::from(rounds).saturating_mul(u64::from(count));
    let mut right = 0u64;
    for (name, total) in CALLS.iter().zip(totals) {
        let mean = total
            .time
            .as_nanos()
            .checked_div(u128::from(made))
            .unwrap_or(0);
        println!(rt; "  {name}: {mean} ns")?;
        right = right.saturating_add(total.right);
    }
    println!(rt; "  answered rightly: {right} of {}", made.saturating_mul(6))
}

/// Prints how long the check of an image takes.
fn opening(rt: &HostRuntime, image: &[u8]) -> io::Result<()> {
    let start = Instant::now(rt)?;
    let accepted = PackedImage::check(image).is_ok();
    let spent = start.elapsed(rt)?.as_micros();
    println!(rt; "  check: {spent} us, accepted {accepted}")
}
