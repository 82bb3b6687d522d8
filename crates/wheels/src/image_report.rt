use crate::quoted::Word;
use image::{ImageRefusal, PackedImage, Records};
use std::io;

/// Prints the entries of a packed image, or why it is refused.
pub(crate) fn report_image(rt: &impl Print, image: &[u8]) -> io::Result<()> {
    match PackedImage::check(image) {
        Ok(()) => report_entries(rt, image),
        Err(refusal) => report_refusal(rt, refusal),
    }
}

/// Prints how many entries an image has, and each on a line, in the image's order.
fn report_entries(rt: &impl Print, image: &[u8]) -> io::Result<()> {
    println!(rt; "{} entries", Records::of(image).count())?;
    for record in Records::of(image) {
        let partition = record.partition;
        let number = record.number;
        println!(rt; "partition {partition} {} {number}", Word(record.name))?;
    }
    Ok(())
}

fn report_refusal(rt: &impl Print, refusal: ImageRefusal) -> io::Result<()> {
    let number = refusal.number();
    match refusal {
        ImageRefusal::TooLarge => println!(rt; "refused {number}"),
        ImageRefusal::Malformed(fault) => println!(rt; "refused {number}: {fault}"),
    }
}
