use crate::layout::Layout;
use crate::quoted::Quoted;
use names::shorten;
use placement::{DigestPlacement, Placement, PrefixPlacement};
use std::io;

/// Prints the raw name, and its short form with where its placements belong, or why it is refused.
pub(crate) fn report(rt: &impl Print, layout: &Layout, raw: &[u8]) -> io::Result<()> {
    println!(rt; "{}", Quoted(raw))?;
    let name = match shorten(raw) {
        Ok(name) => name,
        Err(refusal) => {
            let number = refusal.number();
            return println!(rt; "  refused {number}: {refusal}");
        }
    };
    let short = name.as_bytes();
    let digest = layout.locate(DigestPlacement.place(short));
    let prefix = layout.locate(PrefixPlacement.place(short));
    println!(rt; "  short form {}", Quoted(short))?;
    println!(rt; "  digest placement {digest}")?;
    println!(rt; "  prefix placement {prefix}")
}
