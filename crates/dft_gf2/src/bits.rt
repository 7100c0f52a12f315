ghost use Rattle.std.specs.Prelude.{◌≡◌, ℕ, ◌+◌, ◌/◌, ◌<◌, ◌≤◌, Bool, true, false, if◌then◌else◌, length, replicate, slice_set, IfOk, MatchOption};
ghost use Rattle.dft_base.specs.Packed.{packed_bit};
ghost use Rattle.dft_base.specs.Solutions.{bit_at, sum_over, xor};
ghost use Rattle.dft_lanes.specs.Rows.{bits_of, IsPacked};
ghost use Rattle.dft_gf2.specs.Ends.{EndsAt};

use dft_lanes::{has_bit, highest, parity_and, put, xor_into};
use std::alloc::{AllocError, Global};
use std::marker::Model;

/// A fixed number of bits, one a place, packed into words. A clause sees them as their list.
pub struct Bits {
    count: u32,
    words: Vec<u64>,
}

// One call for all fields, so that the proof of what owns a value stays short.
impl Drop for Bits {
    fn drop(self) {
        let Bits { count: _, words: _ } = self;
    }
}

impl Model for Bits {
    ghost use Rattle.std.specs.Prelude.{List, Bool};

    ghost Value = { List Bool };

    ghost use Rattle.dft_gf2.specs.BitsShown.{listed, AreListed};

    ghost view = { listed };

    ghost invariant = { AreListed };
}

impl Bits {
    /// So many zeros.
    pub fn zeros(alloc: Global, count: u32) -> Result<Bits, AllocError>
        ensures { IfOk result (λ bits. bits ≡ replicate count false) }
    {
        let words = zero_words(alloc, (count as usize + 63) / 64)?;
        Ok(Bits { count, words })
    }

    /// The bit at a place.
    pub fn get(&self, place: usize) -> bool
        requires { place < length self.now }
        ensures { result ≡ bit_at self.now place }
    {
        has_bit(&self.words, place)
    }

    /// Makes the bit at a place 1, where it is to be.
    pub fn put(&mut self, place: usize, bit: bool)
        requires { place < length self.old }
        ensures { self.new ≡ (if bit then slice_set self.old place true else self.old) }
    {
        put(&mut self.words, place, bit);
    }

    /// Takes over as many packed bits.
    pub fn copy_from(&mut self, words: &[u64])
        requires { IsPacked (length self.old) words.now }
        ensures { self.new ≡ bits_of (length self.old) words.now }
    {
        self.words.copy_from_slice(words);
    }

    /// Takes over the first bits of as many or more, of which the others are 0.
    pub fn copy_first(&mut self, other: &Bits)
        requires few { length self.old ≤ length other.now }
        requires end { (k : ℕ) → length self.old ≤ k → bit_at other.now k ≡ false }
        ensures size { length self.new ≡ length self.old }
        ensures bits { (k : ℕ) → bit_at self.new k ≡ bit_at other.now k }
    {
        let count = self.words.len();
        self.words.copy_from_slice(&other.words[..count]);
    }

    /// Makes every bit 0.
    pub fn clear(&mut self)
        ensures size { length self.new ≡ length self.old }
        ensures zeros { (k : ℕ) → bit_at self.new k ≡ false }
    {
        self.words.fill(0);
    }

    /// Adds as many bits, place by place, of which none past `last` is 1.
    pub fn add(&mut self, other: &Bits, last: usize)
        requires within { last < length self.old }
        requires other { last < length other.now }
        requires end { EndsAt other.now last }
        ensures size { length self.new ≡ length self.old }
        ensures sums { (k : ℕ) → bit_at self.new k ≡ xor (bit_at self.old k) (bit_at other.now k) }
    {
        add_first(&mut self.words, &other.words, last / 64 + 1);
    }

    /// The last place with bit 1.
    pub fn last(&self) -> Option<u32>
        ensures { MatchOption result ((k : ℕ) → bit_at self.now k ≡ false)
            (λ last. (last < length self.now) × (bit_at self.now last ≡ true) × ((k : ℕ) → last < k → bit_at self.now k ≡ false)) }
    {
        highest(&self.words)
    }

    /// The sum over the places of what they and as many others have in common.
    pub fn sum_with(&self, other: &Bits) -> bool
        requires { length other.now ≡ length self.now }
        ensures { result ≡ sum_over (length self.now) self.now (bit_at other.now) }
    {
        parity_and(&self.words, &other.words)
    }

    /// The words.
    pub fn into_words(self) -> Vec<u64>
        ensures packed { IsPacked (length self) result.items }
        ensures bits { bits_of (length self) result.items ≡ self }
    {
        let Bits { count: _, words } = self;
        words
    }
}

// So many words without bits.
fn zero_words(alloc: Global, count: usize) -> Result<Vec<u64>, AllocError>
    ensures { IfOk result (λ words. words.items ≡ replicate count 0) }
{
    vec![in alloc; 0; count]
}

// Adds as many bits, of which each with the value 1 is in so many words.
fn add_first(words: &mut [u64], others: &[u64], count: usize)
    requires within { count ≤ length words.old }
    requires others { count ≤ length others.now }
    requires end { (k : ℕ) → count ≤ k / 64 → packed_bit others.now k ≡ false }
    ensures size { length words.new ≡ length words.old }
    ensures sums { (k : ℕ) → packed_bit words.new k ≡ xor (packed_bit words.old k) (packed_bit others.now k) }
{
    xor_into(&mut words[..count], &others[..count]);
}
