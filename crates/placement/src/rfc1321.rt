// The MD5 message digest, after RFC 1321, whose names it keeps: X is the block, T the table of sines, and [abcd k s i] an operation.
ghost use Rattle.std.specs.Prelude.{◌≡◌, ℕ, ◌+◌, ◌*◌, ◌/◌, ◌%◌, ◌<◌, ◌≤◌, ◌++◌, List, length, take, drop, refl};
ghost use Rattle.std.specs.List.{fold};
ghost use Rattle.std.proofs.Common.{rules};
ghost use Rattle.placement.specs.Rfc1321.{auxiliary, mixed, word, sines, word_numbers, shifts, shift, Buffer, operation, operations, round, block, initial, blocks, padding, padded, output, digest};

use std::marker::Model;

// The four words A, B, C, D.
#[derive(Clone, Copy)]
struct Words {
    a: u32,
    b: u32,
    c: u32,
    d: u32,
}

impl Model for Words {
    ghost Value = { Buffer };

    ghost view = { λ w. (w.a, w.b, w.c, w.d) };

    ghost inverse = { λ w. record { a = w.0; b = w.1; c = w.2; d = w.3 } };
}

// T[i] at place i - 1: the integer part of 4294967296 times abs(sin(i)).
const SINES: [u32; 64] = [
    0xd76aa478, 0xe8c7b756, 0x242070db, 0xc1bdceee, 0xf57c0faf, 0x4787c62a, 0xa8304613, 0xfd469501,
    0x698098d8, 0x8b44f7af, 0xffff5bb1, 0x895cd7be, 0x6b901122, 0xfd987193, 0xa679438e, 0x49b40821,
    0xf61e2562, 0xc040b340, 0x265e5a51, 0xe9b6c7aa, 0xd62f105d, 0x02441453, 0xd8a1e681, 0xe7d3fbc8,
    0x21e1cde6, 0xc33707d6, 0xf4d50d87, 0x455a14ed, 0xa9e3e905, 0xfcefa3f8, 0x676f02d9, 0x8d2a4c8a,
    0xfffa3942, 0x8771f681, 0x6d9d6122, 0xfde5380c, 0xa4beea44, 0x4bdecfa9, 0xf6bb4b60, 0xbebfbc70,
    0x289b7ec6, 0xeaa127fa, 0xd4ef3085, 0x04881d05, 0xd9d4d039, 0xe6db99e5, 0x1fa27cf8, 0xc4ac5665,
    0xf4292244, 0x432aff97, 0xab9423a7, 0xfc93a039, 0x655b59c3, 0x8f0ccc92, 0xffeff47d, 0x85845dd1,
    0x6fa87e4f, 0xfe2ce6e0, 0xa3014314, 0x4e0811a1, 0xf7537e82, 0xbd3af235, 0x2ad7d2bb, 0xeb86d391,
];

// A round of sixteen operations: which words they add, by how much they rotate, and the auxiliary function that they use.
trait Round {
    // The number of the round, counted from 0.
    ghost NUMBER: { ℕ };

    ghost WORDS: { List ℕ };

    ghost SHIFTS: { List ℕ };

    const NUMBER: usize;

    // The word numbers k of its sixteen operations.
    const WORDS: [usize; 16];

    // The shift amounts s, which it goes through again and again.
    const SHIFTS: [u32; 4];

    fn auxiliary(x: u32, y: u32, z: u32) -> u32
        ensures { result ≡ auxiliary NUMBER x y z };

    ghost counted: { NUMBER < 4 };

    ghost words: { WORDS ≡ take 16 (drop (16 * NUMBER) word_numbers) };

    ghost amounts: { SHIFTS ≡ take 4 (drop (4 * NUMBER) shifts) };
}

// Round 1, with F.
struct Round1;

impl Round for Round1 {
    ghost NUMBER = { 0 };

    ghost WORDS = { take 16 (drop 0 word_numbers) };

    ghost SHIFTS = { take 4 (drop 0 shifts) };

    const NUMBER: usize = 0;

    const WORDS: [usize; 16] = [0, 1, 2, 3, 4, 5, 6, 7, 8, 9, 10, 11, 12, 13, 14, 15];

    const SHIFTS: [u32; 4] = [7, 12, 17, 22];

    fn auxiliary(x: u32, y: u32, z: u32) -> u32 {
        (x & y) | (!x & z)
    }

    ghost counted = { Prim.search rules };

    ghost words = { refl };

    ghost amounts = { refl };
}

// Round 2, with G.
struct Round2;

impl Round for Round2 {
    ghost NUMBER = { 1 };

    ghost WORDS = { take 16 (drop 16 word_numbers) };

    ghost SHIFTS = { take 4 (drop 4 shifts) };

    const NUMBER: usize = 1;

    const WORDS: [usize; 16] = [1, 6, 11, 0, 5, 10, 15, 4, 9, 14, 3, 8, 13, 2, 7, 12];

    const SHIFTS: [u32; 4] = [5, 9, 14, 20];

    fn auxiliary(x: u32, y: u32, z: u32) -> u32 {
        (x & z) | (y & !z)
    }

    ghost counted = { Prim.search rules };

    ghost words = { refl };

    ghost amounts = { refl };
}

// Round 3, with H.
struct Round3;

impl Round for Round3 {
    ghost NUMBER = { 2 };

    ghost WORDS = { take 16 (drop 32 word_numbers) };

    ghost SHIFTS = { take 4 (drop 8 shifts) };

    const NUMBER: usize = 2;

    const WORDS: [usize; 16] = [5, 8, 11, 14, 1, 4, 7, 10, 13, 0, 3, 6, 9, 12, 15, 2];

    const SHIFTS: [u32; 4] = [4, 11, 16, 23];

    fn auxiliary(x: u32, y: u32, z: u32) -> u32 {
        x ^ y ^ z
    }

    ghost counted = { Prim.search rules };

    ghost words = { refl };

    ghost amounts = { refl };
}

// Round 4, with I.
struct Round4;

impl Round for Round4 {
    ghost NUMBER = { 3 };

    ghost WORDS = { take 16 (drop 48 word_numbers) };

    ghost SHIFTS = { take 4 (drop 12 shifts) };

    const NUMBER: usize = 3;

    const WORDS: [usize; 16] = [0, 7, 14, 5, 12, 3, 10, 1, 8, 15, 6, 13, 4, 11, 2, 9];

    const SHIFTS: [u32; 4] = [6, 10, 15, 21];

    fn auxiliary(x: u32, y: u32, z: u32) -> u32 {
        y ^ (x | !z)
    }

    ghost counted = { Prim.search rules };

    ghost words = { refl };

    ghost amounts = { refl };
}

// b + ((a + f + x + t) <<< s).
fn mix(a: u32, b: u32, f: u32, x: u32, t: u32, s: u32) -> u32
    requires { (0 < s) × (s < 32) }
    ensures { result ≡ mixed a b f x t s }
{
    let sum = a.wrapping_add(f).wrapping_add(x).wrapping_add(t);
    b.wrapping_add(sum.rotate_left(s))
}

// The shift amount of operation `n` of a round, counted from 0.
#[tactic(auto, using(crate::proofs::Operations::amount))]
fn shift_amount<R: Round>(n: usize) -> u32
    requires { n < 16 }
    ensures { result ≡ shift (16 * R.NUMBER + n + 1) }
{
    R::SHIFTS[n % 4]
}

// The table T.
#[derive(Drop)]
struct Table {
    values: [u32; 64],
    ghost listed: { values ≡ sines },
}

// What the operations on a block read: the block X and the table T.
#[derive(Clone, Copy)]
struct Operands<'a> {
    x: &'a [u8; 64],
    t: &'a Table,
}

impl Operands<'_> {
    // X[k].
    #[tactic(auto, using(crate::proofs::Operations::word_of))]
    fn word(&self, k: usize) -> u32
        requires { k < 16 }
        ensures { result ≡ word self.now.x.now k }
    {
        let x = self.x;
        let (words, _) = x.as_chunks::<4>();
        u32::from_le_bytes(words[k])
    }

    // Operation `n` of a round, counted from 0.
    fn operation<R: Round>(&self, n: usize, words: Words) -> Words
        requires { n < 16 }
        ensures { result ≡ operation self.now.x.now (16 * R.NUMBER + n + 1) words }
    {
        let Words { a, b, c, d } = words;
        let f = R::auxiliary(b, c, d);
        let x = self.word(R::WORDS[n]);
        let t = self.t.values[16 * R::NUMBER + n];
        let next = mix(a, b, f, x, t, shift_amount::<R>(n));
        Words {
            a: d,
            b: next,
            c: b,
            d: c,
        }
    }

    // Four operations of a round, from operation `n` on, which make each of the words anew.
    // Kept: written out, as the round is, since a loop, in each of six forms, is slower: 178 to 520 MB/s at 1 MiB, best of 100 runs, not 655.
    #[inline(always)]
    #[tactic(auto, using(crate::proofs::Operations::four))]
    fn four_operations<R: Round>(&self, n: usize, words: Words) -> Words
        requires { n + 4 ≤ 16 }
        ensures { result ≡ operations self.now.x.now (16 * R.NUMBER + n + 1) 4 words }
    {
        let words = self.operation::<R>(n, words);
        let words = self.operation::<R>(n + 1, words);
        let words = self.operation::<R>(n + 2, words);
        self.operation::<R>(n + 3, words)
    }

    // The sixteen operations of a round.
    #[inline(always)]
    #[tactic(auto, using(crate::proofs::Operations::more))]
    fn round<R: Round>(&self, words: Words) -> Words
        ensures { result ≡ round self.now.x.now (R.NUMBER + 1) words }
    {
        let words = self.four_operations::<R>(0, words);
        let words = self.four_operations::<R>(4, words);
        let words = self.four_operations::<R>(8, words);
        self.four_operations::<R>(12, words)
    }

    // The words after the block. Not inlined, so that the compiler does not know what the table holds.
    #[inline(never)]
    #[tactic(auto, unfolding(crate::specs::Rfc1321::block))]
    fn block(&self, words: Words) -> Words
        ensures { result ≡ block self.now.x.now words }
    {
        let after = self.round::<Round1>(words);
        let after = self.round::<Round2>(after);
        let after = self.round::<Round3>(after);
        let after = self.round::<Round4>(after);
        Words {
            a: words.a.wrapping_add(after.a),
            b: words.b.wrapping_add(after.b),
            c: words.c.wrapping_add(after.c),
            d: words.d.wrapping_add(after.d),
        }
    }
}

// Where the padding of a message of `n` bytes ends in its last one or two blocks.
fn padded_end(rest: &[u8], n: usize) -> usize
    requires { length rest.now ≡ n % 64 }
    ensures { result ≡ length rest.now + length (padding n) }
{
    if rest.len() < 56 { 64 } else { 128 }
}

// The last one or two blocks of a message of `n` bytes: its `rest`, which fills no block, and the padding.
#[tactic(auto, using(crate::proofs::Tail::padded_rest, crate::proofs::Tail::bytes8))]
fn last_blocks(rest: &[u8], n: usize) -> [u8; 128]
    requires { length rest.now ≡ n % 64 }
    ensures { take (length rest.now + length (padding n)) result ≡ rest.now ++ padding n }
{
    let mut last = [0; 128];
    last[..rest.len()].copy_from_slice(rest);
    last[rest.len()] = 0x80;
    let end = padded_end(rest, n);
    let bits = (n as u64).wrapping_mul(8);
    last[end - 8..end].copy_from_slice(&bits.to_le_bytes());
    last
}

impl Words {
    // A, B, C, D before the first block.
    fn initial() -> Self
        ensures { result ≡ initial }
    {
        Words {
            a: 0x67452301,
            b: 0xefcdab89,
            c: 0x98badcfe,
            d: 0x10325476,
        }
    }

    // The four words, the low-order byte of each first.
    #[tactic(auto, using(crate::proofs::Tail::bytes4))]
    fn output(self) -> [u8; 16]
        ensures { result ≡ output self }
    {
        let mut bytes = [0; 16];
        bytes[0..4].copy_from_slice(&self.a.to_le_bytes());
        bytes[4..8].copy_from_slice(&self.b.to_le_bytes());
        bytes[8..12].copy_from_slice(&self.c.to_le_bytes());
        bytes[12..16].copy_from_slice(&self.d.to_le_bytes());
        bytes
    }
}

impl Table {
    // The words after the blocks, from `words` on.
    fn add(&self, mut words: Words, blocks: &[[u8; 64]]) -> Words
        ensures { result ≡ fold (λ w x. block x w) words blocks.now }
    {
        for x in blocks {
            words = Operands { x, t: self }.block(words);
        }
        words
    }

    // The words after the blocks that a message fills.
    #[tactic(auto, using(crate::proofs::Blocks::blocks_are))]
    fn whole_blocks(&self, message: &[u8]) -> Words
        ensures { result ≡ blocks message.now (length message.now / 64) }
    {
        let (whole, _) = message.as_chunks::<64>();
        self.add(Words::initial(), whole)
    }

    // The words after all blocks of the padded message, from the `words` after those that the message fills.
    #[tactic(auto, using(crate::proofs::Blocks::all_blocks))]
    fn padded_blocks(&self, message: &[u8], words: Words) -> Words
        requires { words ≡ blocks message.now (length message.now / 64) }
        ensures { result ≡ blocks (padded message.now) (length (padded message.now) / 64) }
    {
        let (_, rest) = message.as_chunks::<64>();
        let last = last_blocks(rest, message.len());
        let end = padded_end(rest, message.len());
        let (ends, _) = last[..end].as_chunks::<64>();
        self.add(words, ends)
    }
}

/// The digest of a message of any length.
#[tactic(auto, unfolding(crate::specs::Rfc1321::digest))]
pub fn md5(message: &[u8]) -> [u8; 16]
    ensures { result ≡ digest message.now }
{
    // A copy, so that T[i] is read from memory: the compiler adds a constant last in each operation, which is about a fifth slower.
    let t = Table { values: SINES };
    let words = t.whole_blocks(message);
    t.padded_blocks(message, words).output()
}
