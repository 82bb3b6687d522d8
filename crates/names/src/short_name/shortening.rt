ghost use Rattle.std.specs.Prelude.{◌≡◌, ◌≤◌, true, length, IfOk};
ghost use Rattle.std.specs.List.{list_all};
ghost use Rattle.names.specs.Names.{class, is_kept, length_fits, is_short, shortened};
ghost use Rattle.names.specs.Shortening.{answer, KeptBytes};

use crate::byte_class::{ByteClass, class_of};
use crate::name_refusal::NameRefusal;
use crate::short_name::{MAX_LENGTH, ShortName};

fn length_fits(name: &[u8]) -> bool
    ensures { result ≡ length_fits name.now }
{
    matches!(name.len(), 1..=MAX_LENGTH)
}

fn is_kept(byte: u8) -> bool
    ensures { result ≡ is_kept class byte }
{
    class_of(byte) == ByteClass::Kept
}

fn all_kept(name: &[u8]) -> bool
    ensures { result ≡ list_all (is_kept class) name.now }
{
    name.iter().all(|byte| is_kept(*byte))
}

/// Whether a name is a short form.
pub fn is_short(name: &[u8]) -> bool
    ensures { result ≡ is_short class name.now }
{
    length_fits(name) && all_kept(name)
}

/// The kept bytes of a name, with zeros behind them, and how many they are, unless it has a forbidden byte.
fn kept_bytes(name: &[u8]) -> Result<([u8; MAX_LENGTH], u8), NameRefusal>
    requires { length name.now ≤ 32 }
    ensures { KeptBytes result name.now }
{
    let mut bytes = [0; MAX_LENGTH];
    let mut len = 0;
    // Kept: one pass in which a byte's place is counted. A chain for each test takes two, and after a `zip` with `bytes.iter_mut()` no proof
    // knows what the bytes are.
    for byte in name {
        match class_of(*byte) {
            ByteClass::Forbidden => return Err(NameRefusal::Forbidden),
            ByteClass::Dropped => {}
            ByteClass::Kept => {
                bytes[len as usize] = *byte;
                len += 1;
            }
        }
    }
    Ok((bytes, len))
}

/// The short form of a name as it arrived. A short form that is shortened again stays as it is.
// Kept: `shorten` is the rules' word; a `TryFrom` would put its three promises into one ghost member.
pub fn shorten(raw: &[u8]) -> Result<ShortName, NameRefusal>
    ensures answered { answer result ≡ shortened class raw.now }
    ensures short { IfOk result (λ name. is_short class name.bytes ≡ true) }
    ensures again { IfOk result (λ name. shortened class name.bytes ≡ (0, name.bytes)) }
{
    if !length_fits(raw) {
        return Err(NameRefusal::Length);
    }
    let (bytes, len) = kept_bytes(raw)?;
    if len == 0 {
        return Err(NameRefusal::Empty);
    }
    Ok(ShortName { bytes, len })
}
