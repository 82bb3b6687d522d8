ghost use Rattle.std.specs.Prelude.{◌≡◌, ◌≤◌, ◌-◌, ◌++◌, true, length, take, drop, replicate};
ghost use Rattle.std.proofs.Common.{sym, subst, ap, ◌∙◌, length-take-le, take-append-drop};
ghost use Rattle.names.specs.Names.{class, is_short};
ghost use Rattle.names.specs.Shortening.{ShortForm, padded, padded_short, same_short};

use std::marker::Model;

mod shortening;

pub use shortening::{is_short, shorten};

/// The most bytes that a name has.
pub const MAX_LENGTH: usize = 32;

/// A name's short form, which a contract sees as a `ShortForm`: its bytes, and that they are one. Names are the same where their short forms are equal.
#[derive(Clone, Copy, PartialEq, Eq, Debug)]
pub struct ShortName {
    // Kept: an array and a length, since no library crate allocates and a name is a value to copy.
    bytes: [u8; MAX_LENGTH],
    len: u8,
    ghost short: { is_short class (take len bytes) ≡ true },
}

// The first `len` of the bytes, all kept ones. Zeros follow, so equal short forms are equal fields.
impl Model for ShortName {
    ghost Value = { ShortForm };

    ghost view = { λ name. record { bytes = take name.len name.bytes; short = name.short } };

    ghost invariant = { λ name. record {
      size : length name.bytes ≡ 32;
      within : name.len ≤ 32;
      rest : drop name.len name.bytes ≡ replicate (32 - name.len) 0;
    } };

    ghost inverse = { λ form. record { bytes = padded form.bytes; len = length form.bytes; short = padded_short form.bytes form.short } };

    ghost inverse_ok = { λ name h.
        let count = length-take-le name.len name.bytes (subst (λ n. name.len ≤ n) (sym h.size) h.within) in
        let zeros = ap (λ n. replicate (32 - n) 0) count ∙ sym h.rest in
        let whole = ap (λ rest. take name.len name.bytes ++ rest) zeros ∙ take-append-drop name.len name.bytes in
        let short = same_short (λ j. take (count j) (whole j)) (padded_short (take name.len name.bytes) name.short) name.short in
        λ i. record { bytes = whole i; len = count i; short = short i } };
}

impl ShortName {
    /// The bytes of the short form, without the zeros.
    pub fn as_bytes(&self) -> &[u8]
        ensures value { result.now ≡ self.now.bytes }
        ensures short { is_short class result.now ≡ true }
    {
        // Kept: `as` is proved to lose nothing, and `usize::from` in an index says no more.
        &self.bytes[0..self.len as usize]
    }

    /// How many bytes the short form has: 1 to 32.
    // Kept: Rust offers a `len` beside an `is_empty`, and that would be false of every short form.
    pub fn length(&self) -> usize
        ensures value { result ≡ length self.now.bytes }
        ensures short { is_short class self.now.bytes ≡ true }
    {
        self.len as usize
    }
}
