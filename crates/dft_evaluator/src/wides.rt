//! What a net can be in 512 patterns.

ghost use Rattle.std.specs.Prelude.{◌≡◌, ℕ, ◌<◌, ◌/◌, ◌==◌, length, if◌then◌else◌};
ghost use Rattle.dft_base.specs.Packed.{packed_bit};
ghost use Rattle.dft_evaluator.specs.Wides.{value_in, unknown_wide, IsWide};
ghost use Rattle.dft_evaluator.specs.Wides as spec;

use dft_base::Tri;
use dft_lanes::{Wide, has_bit, put};
use dft_registers::Value;

/// Either in each pattern.
pub fn unknown() -> Wide
    ensures { result ≡ unknown_wide }
{
    Wide::unknown()
}

/// The same value in each pattern.
pub fn all(value: Tri) -> Wide
    ensures { IsWide result (λ pattern. value) }
{
    let none = [0; 8];
    let every = [u64::MAX; 8];
    match value {
        Tri::Zero => Wide {
            can_zero: every,
            can_one: none,
        },
        Tri::One => Wide {
            can_zero: none,
            can_one: every,
        },
        Tri::Unknown => Wide {
            can_zero: every,
            can_one: every,
        },
    }
}

/// What the net of a number can be, and past the end either.
pub fn wide_at(wides: &[Wide], net: u32) -> Wide
    ensures { result ≡ spec.wide_at wides.now net }
{
    match wides.get(net as usize) {
        Some(wide) => *wide,
        None => unknown(),
    }
}

/// The value in a pattern.
pub fn value_in(wide: &Wide, pattern: u16) -> Tri
    requires { pattern < 512 }
    ensures { result ≡ value_in wide.now pattern }
{
    let pattern = pattern as usize;
    match (
        has_bit(&wide.can_zero, pattern),
        has_bit(&wide.can_one, pattern),
    ) {
        (true, false) => Tri::Zero,
        (false, true) => Tri::One,
        _ => Tri::Unknown,
    }
}

// Whether a value can be this bit.
fn may(value: Tri, bit: bool) -> bool
    ensures { result ≡ spec.may value bit }
{
    match value {
        Tri::Zero => !bit,
        Tri::One => bit,
        Tri::Unknown => true,
    }
}

// Makes the bit at a place this one.
fn write(row: &mut [u64], place: usize, bit: bool)
    requires { place / 64 < length row.old }
    ensures { (k : ℕ) → packed_bit row.new k ≡ (if k == place then bit else packed_bit row.old k) }
{
    if bit {
        put(row, place, true);
    } else {
        row[place / 64] &= !(1 << (place % 64));
    }
}

/// Sets the value in one pattern.
pub fn set_value(wide: &mut Wide, pattern: u16, value: Tri)
    requires { pattern < 512 }
    ensures each { (p : ℕ) → value_in wide.new p ≡ (if p == pattern then value else value_in wide.old p) }
    ensures wide { IsWide wide.old (value_in wide.old) → IsWide wide.new (value_in wide.new) }
{
    let place = pattern as usize;
    write(&mut wide.can_zero, place, may(value, false));
    write(&mut wide.can_one, place, may(value, true));
}

// What a net can be whose value in one pattern is set.
pub(crate) fn with_value(wide: &Wide, pattern: u16, value: Tri) -> Wide
    requires { pattern < 512 }
    ensures each { (p : ℕ) → value_in result p ≡ (if p == pattern then value else value_in wide.now p) }
    ensures wide { IsWide wide.now (value_in wide.now) → IsWide result (value_in result) }
{
    let mut result = *wide;
    set_value(&mut result, pattern, value);
    result
}
