ghost use Rattle.std.specs.Prelude.{◌≡◌, ℕ, ◌+◌, ◌/◌, ◌<◌, ◌==◌, ◌||◌, ◌&&◌, Bool, length};
ghost use Rattle.dft_base.specs.Packed.{packed_bit};

/// The bit at a place of a row.
#[inline]
pub fn has_bit(row: &[u64], place: usize) -> bool
    requires { place / 64 < length row.now }
    ensures { result ≡ packed_bit row.now place }
{
    (row[place / 64] >> (place % 64)) & 1 == 1
}

/// Makes the bit at a place 1, where it is to be.
#[inline]
pub fn put(row: &mut [u64], place: usize, bit: bool)
    requires { place / 64 < length row.old }
    ensures { (k : ℕ) → packed_bit row.new k ≡ packed_bit row.old k || ((k == place) && bit) }
{
    if bit {
        row[place / 64] |= 1 << (place % 64);
    }
}
