ghost use Rattle.std.specs.Prelude.{◌≡◌, ℕ, Bool, length, not, ◌&&◌, ◌||◌, if◌then◌else◌};
ghost use Rattle.dft_base.specs.Solutions.{xor};
ghost use Rattle.dft_lanes.specs.Choices.{can, some_choice, some_choice_of_three, some_choice_of_two};

use std::simd::u64x8;

/// What a net can be in each of 512 patterns: pattern p is bit p % 64 of word p / 64.
#[derive(Clone, Copy, Debug, PartialEq, Eq)]
pub struct Wide {
    pub can_zero: [u64; 8],
    pub can_one: [u64; 8],
}

#[inline(always)]
fn load(words: [u64; 8]) -> u64x8
    ensures value { result ≡ words }
    ensures size { length result ≡ 8 }
{
    u64x8::from_array(words)
}

/// The patterns of `not a`.
#[inline]
pub fn wide_not(a: &Wide) -> Wide
    ensures { (pattern : ℕ) (value : Bool) → can result pattern value ≡ some_choice not (can a.now pattern) value }
{
    Wide {
        can_zero: a.can_one,
        can_one: a.can_zero,
    }
}

/// The patterns of `a and b`.
#[inline]
pub fn wide_and(a: &Wide, b: &Wide) -> Wide
    ensures { (pattern : ℕ) (value : Bool) → can result pattern value ≡ some_choice_of_two (λ x y. x && y) (can a.now pattern) (can b.now pattern) value }
{
    let a_zero = load(a.can_zero);
    let a_one = load(a.can_one);
    let b_zero = load(b.can_zero);
    let b_one = load(b.can_one);
    let zero = (a_zero & (b_zero | b_one)) | (a_one & b_zero);
    Wide {
        can_zero: zero.to_array(),
        can_one: (a_one & b_one).to_array(),
    }
}

/// The patterns of `a or b`.
#[inline]
pub fn wide_or(a: &Wide, b: &Wide) -> Wide
    ensures { (pattern : ℕ) (value : Bool) → can result pattern value ≡ some_choice_of_two (λ x y. x || y) (can a.now pattern) (can b.now pattern) value }
{
    let a_zero = load(a.can_zero);
    let a_one = load(a.can_one);
    let b_zero = load(b.can_zero);
    let b_one = load(b.can_one);
    let one = (a_one & (b_zero | b_one)) | (a_zero & b_one);
    Wide {
        can_zero: (a_zero & b_zero).to_array(),
        can_one: one.to_array(),
    }
}

/// The patterns of `a xor b`.
#[inline]
pub fn wide_xor(a: &Wide, b: &Wide) -> Wide
    ensures { (pattern : ℕ) (value : Bool) → can result pattern value ≡ some_choice_of_two xor (can a.now pattern) (can b.now pattern) value }
{
    let a_zero = load(a.can_zero);
    let a_one = load(a.can_one);
    let b_zero = load(b.can_zero);
    let b_one = load(b.can_one);
    let zero = (a_zero & b_zero) | (a_one & b_one);
    let one = (a_zero & b_one) | (a_one & b_zero);
    Wide {
        can_zero: zero.to_array(),
        can_one: one.to_array(),
    }
}

/// The patterns of `first` where `select` is 0, and of `second` where it is 1.
#[inline]
pub fn wide_mux(first: &Wide, second: &Wide, select: &Wide) -> Wide
    ensures { (pattern : ℕ) (value : Bool) → can result pattern value
        ≡ some_choice_of_three (λ x y s. if s then y else x) (can first.now pattern) (can second.now pattern) (can select.now pattern) value }
{
    let first_zero = load(first.can_zero);
    let first_one = load(first.can_one);
    let second_zero = load(second.can_zero);
    let second_one = load(second.can_one);
    let select_zero = load(select.can_zero);
    let select_one = load(select.can_one);
    let takes_first = select_zero & (second_zero | second_one);
    let takes_second = select_one & (first_zero | first_one);
    let zero = (takes_first & first_zero) | (takes_second & second_zero);
    let one = (takes_first & first_one) | (takes_second & second_one);
    Wide {
        can_zero: zero.to_array(),
        can_one: one.to_array(),
    }
}
