ghost use Rattle.std.specs.Prelude.{◌≡◌, ◌≤◌, length, take};
ghost use Rattle.names.specs.Shortening.{padded};

use crate::short_name::MAX_LENGTH;

/// The bytes of a name and then zeros, 32 in all. Of a longer name they are its first 32.
pub fn padded(name: &[u8]) -> [u8; MAX_LENGTH]
    ensures value { result ≡ padded (take 32 name.now) }
    ensures short { length name.now ≤ 32 → result ≡ padded name.now }
{
    let len = name.len().min(MAX_LENGTH);
    let mut bytes = [0; MAX_LENGTH];
    bytes[..len].copy_from_slice(&name[..len]);
    bytes
}
