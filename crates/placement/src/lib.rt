// Placements: fixed functions from byte strings to numbers of 32 bits, and the MD5 message digest.
#![tactic(auto)]

ghost use Rattle.std.specs.Prelude.{◌≡◌, ℕ, ◌^◌, ◌<◌, List};
ghost use Rattle.placement.specs.Placements.{leading, digest_placement, prefix_placement, leading_small};
ghost use Rattle.placement.specs.Rfc1321.{digest};

use std::array;

mod rfc1321;

pub use rfc1321::md5;

/// A fixed function from byte strings to numbers of 32 bits.
pub trait Placement {
    /// The function.
    ghost placed: { Self → List ℕ → ℕ };

    /// Its value at a name.
    fn place(&self, name: &[u8]) -> u32
        ensures { result ≡ placed self.now name.now };

    /// Its values have 32 bits.
    ghost small: { (s : Self) (name : List ℕ) → placed s name < 2 ^ 32 };
}

/// The first four bytes of the name's MD5 digest, the most significant first.
#[derive(Clone, Copy, Debug)]
pub struct DigestPlacement;

impl Placement for DigestPlacement {
    ghost placed = { λ _. digest_placement };

    ghost small = { λ _ name. leading_small (digest name) };

    fn place(&self, name: &[u8]) -> u32 {
        first_four(&md5(name))
    }
}

/// The first four bytes of the name, the most significant first, with 0 for a missing byte.
#[derive(Clone, Copy, Debug)]
pub struct PrefixPlacement;

impl Placement for PrefixPlacement {
    ghost placed = { λ _. prefix_placement };

    ghost small = { λ _. leading_small };

    fn place(&self, name: &[u8]) -> u32 {
        first_four(name)
    }
}

// The number that the first four bytes make, the most significant first, with 0 for a missing byte.
fn first_four(bytes: &[u8]) -> u32
    ensures { result ≡ leading bytes.now }
{
    u32::from_be_bytes(array::from_fn(|i| bytes.get(i).copied().unwrap_or(0)))
}
