//! The compared bits of a vector in each lane.

ghost use Rattle.std.specs.Prelude.{◌≡◌, ◌<◌, ◌^◌, ◌-◌, ℕ, false, length, min};
ghost use Rattle.std.specs.Int.{bit_at};
ghost use Rattle.dft_netlist.specs.Orders.{numbers_of};
ghost use Rattle.dft_replay.specs.Rows.{compared_from};
ghost use Rattle.dft_replay.specs.Vectors as vectors;
ghost use Rattle.dft_evaluator.specs.Wides.{AreWides, IsWide, value_in as spec_value};
ghost use Rattle.dft_fault_lanes.specs.Compares as spec;
ghost use Rattle.dft_fault_lanes.specs.Compares.{AreCompared, AreMarked, differs_in};

use dft_base::Tri;
use dft_evaluator::{set_value, value_in, wide_at};
use dft_grade::Grade;
use dft_lanes::{Wide, wide_and, wide_not};
use dft_netlist::NetId;
use dft_patterns::Act;

// The bits of a word that another one has not.
fn without(word: u64, other: u64) -> u64
    ensures { (i : ℕ) → i < 64 → bit_at result i ≡ min (bit_at word i) (1 - bit_at other i) }
{
    word & !other
}

// Whether some lane is 1.
pub(crate) fn has_one(wide: &Wide) -> bool
    ensures { result ≡ false → (lane : ℕ) → lane < 512 → spec.is_one (spec_value wide.now lane) ≡ false }
{
    for word in 0..8 {
        if without(wide.can_one[word], wide.can_zero[word]) != 0 {
            return true;
        }
    }
    false
}

// Whether a value is 1.
pub(crate) fn is_one(value: Tri) -> bool
    ensures { result ≡ spec.is_one value }
{
    match value {
        Tri::One => true,
        Tri::Zero | Tri::Unknown => false,
    }
}

// Gives this grade to the lanes that are 1, which are live no more.
pub(crate) fn mark(grade: Grade, hit: &Wide, live: &mut Wide, found: &mut [Option<Grade>])
    requires found { length found.old ≡ 512 }
    requires live { IsWide live.old (spec_value live.old) }
    ensures marked { AreMarked grade (λ lane. spec.is_one (spec_value hit.now lane)) live.old found.old live.new found.new }
    ensures live { IsWide live.new (spec_value live.new) }
{
    for lane in 0..512 {
        if is_one(value_in(hit, lane)) {
            set_value(live, lane, Tri::Zero);
            found[lane as usize] = Some(grade);
        }
    }
}

// Gives this grade to the live lanes in which a net is known to have the opposite of what is printed.
fn compare_bit(
    grade: Grade,
    printed: bool,
    wide: &Wide,
    live: &mut Wide,
    found: &mut [Option<Grade>],
)
    requires wide { IsWide wide.now (spec_value wide.now) }
    requires live { IsWide live.old (spec_value live.old) }
    requires found { length found.old ≡ 512 }
    ensures marked { AreMarked grade (differs_in printed wide.now live.old) live.old found.old live.new found.new }
    ensures live { IsWide live.new (spec_value live.new) }
{
    let hit = if printed {
        wide_and(live, &wide_not(wide))
    } else {
        wide_and(live, wide)
    };
    if has_one(&hit) {
        mark(grade, &hit, live, found);
    }
}

// The bit that an act compares, if it compares one.
pub(crate) fn printed(act: Act) -> Option<bool>
    ensures { result ≡ vectors.printed act }
{
    match act {
        Act::ExpectLow => Some(false),
        Act::ExpectHigh => Some(true),
        _ => None,
    }
}

/// Compares the bits of a vector in each live lane, in the order of the signals. The first one that is known to be the opposite of what
/// is printed is the lane's grade, and the lane is live no more.
pub fn compare(
    vector: u32,
    nets: &[NetId],
    acts: &[Act],
    wides: &[Wide],
    live: &mut Wide,
    found: &mut [Option<Grade>],
)
    requires acts { length acts.now ≡ length nets.now }
    requires few { length nets.now < 2 ^ 32 }
    requires wides { AreWides wides.now }
    requires live { IsWide live.old (spec_value live.old) }
    requires found { length found.old ≡ 512 }
    ensures compared { AreCompared wides.now vector (compared_from 0 (numbers_of nets.now) acts.now) live.old found.old live.new found.new }
    ensures live { IsWide live.new (spec_value live.new) }
{
    for (signal, act) in acts.iter().enumerate() {
        if let Some(printed) = printed(*act) {
            let wide = wide_at(wides, nets[signal].0);
            let signal = signal as u32;
            compare_bit(
                Grade::Detected { vector, signal },
                printed,
                &wide,
                live,
                found,
            );
        }
    }
}
