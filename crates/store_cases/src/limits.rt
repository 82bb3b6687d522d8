use crate::trial::Trial;
use image::PackedImage;
use slots::{Slot, SlotTable};
use std::io;

/// Two entries with names of one byte weigh 40: a buffer of 39 bytes is full for the second.
pub(crate) fn image_limits(rt: &impl Print) -> io::Result<()> {
    println!(rt; "an image of 39 bytes:")?;
    let mut bytes = [0; 39];
    two_entries(rt, &mut bytes)?;
    println!(rt; "an image of 40 bytes:")?;
    let mut bytes = [0; 40];
    two_entries(rt, &mut bytes)
}

/// Puts two entries into an image, prints its bytes, and takes the first out again.
fn two_entries(rt: &impl Print, bytes: &mut [u8]) -> io::Result<()> {
    let store = PackedImage::open(bytes);
    let mut trial = Trial { rt, store };
    trial.put(2, "A", 7)?;
    trial.put(2, "B", 8)?;
    let bytes = trial.into_store().into_bytes();
    dump(rt, bytes)?;
    let store = PackedImage::open(bytes);
    let mut trial = Trial { rt, store };
    trial.list(2)?;
    trial.take(2, "A")?;
    dump(rt, trial.into_store().into_bytes())
}

fn dump(rt: &impl Print, bytes: &[u8]) -> io::Result<()> {
    print!(rt; "bytes")?;
    for byte in bytes {
        print!(rt; " {byte:02X}")?;
    }
    println!(rt; "")
}

/// A store over a refused buffer is empty, of capacity 0, and touches nothing.
pub(crate) fn refused_image(rt: &impl Print) -> io::Result<()> {
    println!(rt; "an image that is refused:")?;
    let mut bytes = [0, 0, 9, 0, 0, 0, 0, 0, 0, 0, 0, 0, 0, 0, 0, 0, 0, 0, 0, 0];
    let store = PackedImage::open(&mut bytes);
    let mut trial = Trial { rt, store };
    trial.put(2, "A", 7)?;
    trial.list(2)?;
    trial.clear();
    dump(rt, trial.into_store().into_bytes())
}

/// The most slots, and one more.
pub(crate) fn slot_limits(rt: &HostRuntime) -> anyhow::Result<()> {
    let mut slots = vec![in rt.alloc(); Slot::EMPTY; 1_048_576]?;
    over(rt, slots.as_mut_slice())?;
    slots.push(Slot::EMPTY)?;
    over(rt, slots.as_mut_slice())?;
    Ok(())
}

fn over(rt: &impl Print, slots: &mut [Slot]) -> io::Result<()> {
    match SlotTable::check(slots) {
        Ok(()) => println!(rt; "{} slots: accepted", slots.len())?,
        Err(refusal) => println!(rt; "{} slots: refused {}", slots.len(), refusal.number())?,
    }
    let store = SlotTable::new(slots);
    let mut trial = Trial { rt, store };
    trial.put(2, "A", 7)?;
    trial.find(2, "A")?;
    trial.list(2)
}
