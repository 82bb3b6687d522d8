// The calls of a store, over the slot table and the packed image alike. The file `stdout` has what each must answer, worked out by hand.
#![tactic(auto)]

mod limits;
mod trial;

use image::PackedImage;
use limits::{image_limits, refused_image, slot_limits};
use slots::{Slot, SlotTable};
use std::io;
use store::Store;
use trial::Trial;

/// Three entries with names of one byte fill either store.
fn main(rt: HostRuntime) -> anyhow::Result<()> {
    let mut slots = [Slot::EMPTY; 3];
    println!(rt; "slot table:")?;
    exercise(&rt, SlotTable::new(&mut slots))?;
    let mut bytes = [0; 60];
    println!(rt; "packed image:")?;
    exercise(&rt, PackedImage::open(&mut bytes))?;
    image_limits(&rt)?;
    refused_image(&rt)?;
    slot_limits(&rt)
}

/// The same calls over any store that holds three entries with names of one byte, and no more.
fn exercise<S: Store + Drop>(rt: &impl Print, store: S) -> io::Result<()> {
    let mut trial = Trial { rt, store };
    trial.basics()?;
    trial.fill_up()?;
    trial.moves()?;
    trial.bad_keys()
}
