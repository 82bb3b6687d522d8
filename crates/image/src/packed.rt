ghost use Rattle.std.specs.Prelude.{◌≤◌, length, take};
ghost use Rattle.image.specs.Filled.{IsFilled};

/// A store that lies in the first `len` of the caller's bytes, as the records of its entries and then zeros.
#[derive(Drop)]
pub struct PackedImage<'a> {
    pub(crate) image: &'a mut [u8],
    // Kept: the whole buffer goes back to its owner, so the part before `len` cannot be split off for good.
    pub(crate) len: usize,
    ghost within: { len ≤ length image.now },
    ghost few: { len ≤ 65536 },
    ghost filled: { IsFilled len (take len image.now) },
}
