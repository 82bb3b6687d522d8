ghost use Rattle.std.specs.Prelude.{◌≡◌, ℕ, ◌*◌, ◌<◌, ◌≤◌, false, ◌&&◌, ◌||◌, ◌==◌, nat_lt};
ghost use Rattle.index.specs.Numbers.{size};
ghost use Rattle.index.specs.Maps.{Fills, filled};
ghost use Rattle.index.specs.Levels.{lowered};
ghost use Rattle.index.specs.Values.{members};

use std::array;

/// Any set of partition numbers, a bit for each number below 512.
#[derive(Clone, Copy, Debug)]
pub struct PartitionSet {
    words: [u64; 8],
}

impl PartitionSet {
    /// The set with no partition.
    pub fn new() -> PartitionSet
        ensures { (q : ℕ) → members result q ≡ false }
    {
        PartitionSet { words: [0; 8] }
    }

    /// Whether the set has partition p.
    pub fn has(&self, p: u16) -> bool
        ensures { result ≡ members self.now p }
    {
        p < 512 && (self.words[usize::from(p / 64)] >> (p % 64)) & 1 == 1
    }

    /// Adds partition p, and answers whether there is one: a number above 511 is none, and adds nothing.
    // Kept: an answer that may be left, since a `Result` would ask each caller to take it up.
    pub fn add(&mut self, p: u16) -> bool
        ensures answer { result ≡ nat_lt p 512 }
        ensures after { (q : ℕ) → members self.new q ≡ (members self.old q || (nat_lt p 512 && q == p)) }
    {
        if p > 511 {
            return false;
        }
        self.insert(p);
        true
    }

    // Adds partition p.
    fn insert(&mut self, p: u16)
        requires { p < 512 }
        ensures { (q : ℕ) → members self.new q ≡ (members self.old q || q == p) }
    {
        self.words[usize::from(p / 64)] |= 1 << (p % 64);
    }

    // How many partitions the set has.
    pub(crate) fn len(&self) -> u16
        ensures { result ≡ size (members self.now) 512 }
    {
        let mut n = 0;
        // Kept: a `sum` of the words' ones leaves open that it fits, since the proof then does not know that each word has 64 bits.
        for word in &self.words {
            n += word.count_ones() as u16;
        }
        n
    }

    // The partitions of either set.
    pub(crate) fn union(&self, other: &PartitionSet) -> PartitionSet
        ensures { (q : ℕ) → members result q ≡ (members self.now q || members other.now q) }
    {
        PartitionSet {
            words: array::from_fn(|i| self.words[i] | other.words[i]),
        }
    }

    // The least map that has all of the set; of the empty set, the map with 0 alone. Level by level from the top, each number brings the
    // one that is left of it when the binary digit below its highest is taken out, and 0 is in every map.
    pub(crate) fn filled(mut self) -> PartitionSet
        ensures value { (q : ℕ) → members result q ≡ filled (members self) q }
        ensures least { Fills (members self) (members result) }
    {
        self.lower_words();
        self.lower_half();
        self.lower_bits(16);
        self.lower_bits(8);
        self.lower_bits(4);
        self.lower_bits(2);
        self.lower_bits(1);
        self.insert(0);
        self
    }

    // The two levels of filling up that are whole words, of two words and of one.
    fn lower_words(&mut self)
        ensures { (q : ℕ) → members self.new q ≡ lowered 64 (lowered 128 (members self.old)) q }
    {
        self.words[2] |= self.words[4] | self.words[6];
        self.words[3] |= self.words[5] | self.words[7];
        self.words[1] |= self.words[2] | self.words[3];
    }

    // The level that is the upper half of the first word.
    fn lower_half(&mut self)
        ensures { (q : ℕ) → members self.new q ≡ lowered 32 (members self.old) q }
    {
        self.words[0] |= (self.words[1] | (self.words[1] >> 32)) << 32;
    }

    // A level that is `by` bits of the first word.
    fn lower_bits(&mut self, by: u32)
        requires { by ≤ 16 }
        ensures { (q : ℕ) → members self.new q ≡ lowered by (members self.old) q }
    {
        let level = ((1 << by) - 1) << by;
        self.words[0] |= ((self.words[0] >> by) | (self.words[0] >> (2 * by))) & level;
    }
}
