ghost use Rattle.std.specs.Prelude.{◌≡◌, ℕ, ◌+◌, ◌<◌, ◌≤◌, ◌^◌, ◌↔◌, true, false, length, slice_index, IsTrue, MatchOption, bit_and, bit_xor};
ghost use Rattle.std.specs.Simd.Lanes.{chunk, put_chunk, zip2};
ghost use Rattle.dft_base.specs.Packed.{packed_bit};
ghost use Rattle.dft_base.specs.Solutions.{xor};
ghost use Rattle.dft_lanes.specs.Rows.{IsPacked};
ghost use Rattle.dft_lanes.specs.Sums.{odd_common};

use std::simd::prelude::*;

const LANES: usize = 8;

#[inline(always)]
fn xor_block(target: &mut [u64], source: &[u64], at: usize)
    requires target { at + LANES ≤ length target.old }
    requires source { at + LANES ≤ length source.now }
    ensures { target.new ≡ put_chunk at target.old (zip2 bit_xor (chunk at LANES target.old) (chunk at LANES source.now)) }
{
    let sum = u64x8::from_slice(&target[at..]) ^ u64x8::from_slice(&source[at..]);
    sum.copy_to_slice(&mut target[at..]);
}

/// Adds the source's bits, place by place.
pub fn xor_into(target: &mut [u64], source: &[u64])
    requires { length source.now ≡ length target.old }
    ensures words { target.new ≡ zip2 bit_xor target.old source.now }
    ensures bits { (place : ℕ) → packed_bit target.new place ≡ xor (packed_bit target.old place) (packed_bit source.now place) }
{
    let blocks = target.len() / LANES;
    for block in 0..blocks {
        xor_block(target, source, block * LANES);
    }
    for word in blocks * LANES..target.len() {
        target[word] ^= source[word];
    }
}

#[inline(always)]
fn is_zero_block(row: &[u64], at: usize) -> bool
    requires { at + LANES ≤ length row.now }
    ensures { IsTrue result → (k : ℕ) → at ≤ k → k < at + LANES → slice_index row.now k ≡ 0 }
{
    let words = u64x8::from_slice(&row[at..]);
    words.simd_ne(u64x8::splat(0)).to_bitmask() == 0
}

// The place of a word's greatest bit.
#[inline(always)]
fn top_bit(word: u64) -> u32
    requires { 0 < word }
    ensures low { 2 ^ result ≤ word }
    ensures high { word < 2 ^ (result + 1) }
    ensures within { result < 64 }
{
    63 - word.leading_zeros()
}

/// The place of the row's greatest bit, and None where each word is 0.
pub fn highest(row: &[u64]) -> Option<u32>
    requires { length row.now ≤ 2 ^ 26 }
    ensures { MatchOption result ((place : ℕ) → packed_bit row.now place ≡ false)
        (λ top. (packed_bit row.now top ≡ true) × ((place : ℕ) → top < place → packed_bit row.now place ≡ false)) }
{
    let mut end = row.len();
    while end >= LANES && is_zero_block(row, end - LANES) {
        end -= LANES;
    }
    while end > 0 {
        end -= 1;
        if row[end] != 0 {
            return Some(end as u32 * 64 + top_bit(row[end]));
        }
    }
    None
}

#[inline(always)]
fn common_block(a: &[u64], b: &[u64], at: usize) -> u64x8
    requires a { at + LANES ≤ length a.now }
    requires b { at + LANES ≤ length b.now }
    ensures { result ≡ zip2 bit_and (chunk at LANES a.now) (chunk at LANES b.now) }
{
    u64x8::from_slice(&a[at..]) & u64x8::from_slice(&b[at..])
}

/// Whether the rows have an odd number of bits in common.
pub fn parity_and(a: &[u64], b: &[u64]) -> bool
    requires { length a.now ≡ length b.now }
    ensures { result ≡ odd_common a.now b.now }
{
    let blocks = a.len() / LANES;
    let mut lanes = u64x8::splat(0);
    for block in 0..blocks {
        lanes ^= common_block(a, b, block * LANES);
    }
    let mut sum = lanes.reduce_xor();
    for word in blocks * LANES..a.len() {
        sum ^= a[word] & b[word];
    }
    sum.count_ones() % 2 == 1
}

/// Whether the row has the words for so many columns, and no bit past them.
pub fn is_packed(row: &[u64], columns: u32) -> bool
    ensures { IsTrue result ↔ IsPacked columns row.now }
{
    if row.len() != (columns as usize + 63) / 64 {
        return false;
    }
    match highest(row) {
        Some(top) => top < columns,
        None => true,
    }
}
