use std::fmt;

/// A digest as 32 hexadecimal digits.
// Kept: `digest_speed` has the same, since the two programs share only `placement`, where a type that prints would be public for them alone.
#[derive(Clone, Copy)]
pub(crate) struct Digest(pub(crate) [u8; 16]);

impl fmt::Display for Digest {
    fn fmt<W: fmt::Write>(&self, f: &mut fmt::Formatter<W>) -> fmt::Result {
        for byte in self.0 {
            write!(f, "{byte:02x}")?;
        }
        Ok(())
    }
}
