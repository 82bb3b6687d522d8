ghost use Rattle.std.specs.Prelude.{◌≡◌};
ghost use Rattle.names.specs.Names.{class};

/// What a byte counts for in a name.
#[derive(Clone, Copy, PartialEq, Eq, Debug)]
pub enum ByteClass {
    /// A name that has one is refused.
    Forbidden,
    /// Not in the short form.
    Dropped,
    /// In the short form.
    Kept,
}

/// The class of a byte, by the byte table.
// Kept: a table is looked up here, and no byte is converted, so `class_of(byte)` says more than a `From` would.
pub fn class_of(byte: u8) -> ByteClass
    ensures { result ≡ class byte }
{
    match byte {
        0x00 | 0x2F => ByteClass::Forbidden,
        0x20 => ByteClass::Dropped,
        _ => ByteClass::Kept,
    }
}
