ghost use Rattle.std.specs.Prelude.{◌≡◌, ◌+◌, ◌-◌, ◌*◌, ◌/◌, ◌%◌, ◌^◌, ◌<◌, ◌≤◌, bit_and, bit_or};
ghost use Rattle.index.specs.Ranges.{start};

/// The placements that a partition has, from the first to the last.
#[derive(Clone, Copy, PartialEq, Eq, Debug)]
pub struct PlacementRange {
    pub first: u32,
    pub last: u32,
}

impl PlacementRange {
    // The range of partition p at a depth.
    pub(crate) fn at(p: u16, depth: u32) -> PlacementRange
        requires { (p < 2 ^ depth) × (depth ≤ 9) }
        ensures first { result.first ≡ start p }
        ensures last { result.last ≡ start p + (2 ^ (32 - depth) - 1) }
    {
        let first = reverse_bits(u32::from(p));
        let last = first + (u32::MAX >> depth);
        PlacementRange { first, last }
    }
}

// Each group of `by` bits under the mask changes places with the group above it.
fn swap(x: u32, by: u32, mask: u32) -> u32
    requires { by < 32 }
    ensures { result ≡ bit_or (bit_and (x / 2 ^ by) mask) ((bit_and x mask * 2 ^ by) % 2 ^ 32) }
{
    ((x >> by) & mask) | ((x & mask) << by)
}

// The 32 bits in reverse order.
// Kept: five exchanges by shifts and masks, the form that the project asks for, and no `u32::reverse_bits`.
fn reverse_bits(x: u32) -> u32
    ensures { result ≡ start x }
{
    let singles = swap(x, 1, 0x5555_5555);
    let pairs = swap(singles, 2, 0x3333_3333);
    let nibbles = swap(pairs, 4, 0x0f0f_0f0f);
    let bytes = swap(nibbles, 8, 0x00ff_00ff);
    swap(bytes, 16, 0x0000_ffff)
}
