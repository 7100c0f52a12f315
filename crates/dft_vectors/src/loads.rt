//! The vectors of loads.

ghost use Rattle.std.specs.Prelude.{◌≡◌, ◌+◌, ◌<◌, ◌≤◌, ◌*◌, ◌++◌, None, Some, length, map, option_map, replicate, IfSome, IfOk, OnOk};
ghost use Rattle.std.specs.List.{range_with_len};
ghost use Rattle.dft_base.specs.Packed.{packed_bit};
ghost use Rattle.dft_lanes.specs.Rows.{words_for};
ghost use Rattle.dft_expect.specs.Loaded.{table_of};
ghost use Rattle.dft_vectors.specs.OwnPorts as own;
ghost use Rattle.dft_vectors.specs.PatternData.{Fits, columns_of, data_of, data_if_any};
ghost use Rattle.dft_vectors.specs.Shown.{IsLayout, plan_in, shown_at};
ghost use Rattle.dft_vectors.specs.VectorList as spec;

use crate::acts::{push_expected, push_ignored};
use crate::added::{push_channels, push_controls, push_masks};
use crate::layout::Layout;
use crate::pattern::Pattern;
use dft_expect::expected;
use dft_patterns::{Act, Acts};
use std::alloc::AllocError;

// Adds the acts of outputs in a cycle, by what they are to show in all cycles.
fn push_shown(
    acts: &mut Vec<Act>,
    width: usize,
    expected: Option<&[bool]>,
    cycle: usize,
) -> Result<(), AllocError>
    requires width { width ≤ 32 }
    requires cycle { cycle < 4096 }
    requires expected { IfSome expected (λ bits. (cycle + 1) * width ≤ length bits.now) }
    ensures { OnOk result (acts.new.items ≡ acts.old.items ++ shown_at width (option_map (λ bits. bits.now) expected.entry) cycle) }
{
    match expected {
        None => push_ignored(acts, width),
        Some(bits) => push_expected(acts, &bits[cycle * width..cycle * width + width]),
    }
}

// Adds the acts of the inputs in a cycle of a load.
fn push_inputs(
    acts: &mut Vec<Act>,
    layout: &Layout<'_>,
    bits: &[u64],
    masks: &[bool],
    cycle: usize,
) -> Result<(), AllocError>
    requires layout { IsLayout layout.now }
    requires cycle { cycle < (plan_in layout.now).cycles }
    requires bits { (plan_in layout.now).cycles * layout.now.planned.now.config.ring.channels ≤ 64 * length bits.now }
    ensures { OnOk result (acts.new.items ≡ acts.old.items
        ++ spec.shift_inputs layout.now.planned.now.design layout.now.planned.now.config (plan_in layout.now) (table_of layout.now.planned.now.config.ring (packed_bit bits.now)) masks.now cycle) }
{
    let channels = layout.planned.config().ring().channels;
    let place = usize::from(layout.planned.chains().cycles()) - (cycle + 1);
    acts.extend_from_slice(&layout.own.pulsing)?;
    push_controls(acts, true, true, false)?;
    push_channels(acts, channels, bits, cycle * usize::from(channels))?;
    push_masks(acts, &layout.segments, masks, place)?;
    Ok(())
}

// Adds the acts of the shift vector in a cycle of a load.
fn push_shift(
    acts: &mut Vec<Act>,
    layout: &Layout<'_>,
    bits: &[u64],
    masks: &[bool],
    expected: Option<&[bool]>,
    cycle: usize,
) -> Result<(), AllocError>
    requires layout { IsLayout layout.now }
    requires cycle { cycle < (plan_in layout.now).cycles }
    requires bits { (plan_in layout.now).cycles * layout.now.planned.now.config.ring.channels ≤ 64 * length bits.now }
    requires expected { IfSome expected (λ shown. (plan_in layout.now).cycles * length layout.now.planned.now.config.compactor.groups ≤ length shown.now) }
    ensures { OnOk result (acts.new.items ≡ acts.old.items
        ++ spec.shift_with layout.now.planned.now.design layout.now.planned.now.config (plan_in layout.now) (table_of layout.now.planned.now.config.ring (packed_bit bits.now)) masks.now cycle
        (shown_at (length layout.now.planned.now.config.compactor.groups) (option_map (λ shown. shown.now) expected.entry) cycle)) }
{
    let width = layout.planned.config().compactor().groups.as_slice().len();
    push_inputs(acts, layout, bits, masks, cycle)?;
    push_ignored(acts, layout.own.outputs)?;
    push_shown(acts, width, expected, cycle)
}

// Adds the vectors of a load.
fn add_shifts(
    vectors: &mut Vec<Acts>,
    layout: &Layout<'_>,
    bits: &[u64],
    masks: &[bool],
    expected: Option<&[bool]>,
) -> Result<(), AllocError>
    requires layout { IsLayout layout.now }
    requires bits { (plan_in layout.now).cycles * layout.now.planned.now.config.ring.channels ≤ 64 * length bits.now }
    requires expected { IfSome expected (λ shown. (plan_in layout.now).cycles * length layout.now.planned.now.config.compactor.groups ≤ length shown.now) }
    ensures { OnOk result (vectors.new.items ≡ vectors.old.items
        ++ map (λ cycle. spec.shift_with layout.now.planned.now.design layout.now.planned.now.config (plan_in layout.now) (table_of layout.now.planned.now.config.ring (packed_bit bits.now)) masks.now cycle
        (shown_at (length layout.now.planned.now.config.compactor.groups) (option_map (λ shown. shown.now) expected.entry) cycle)) (range_with_len 0 (plan_in layout.now).cycles)) }
{
    let mut acts = Vec::new(layout.alloc);
    for cycle in 0..usize::from(layout.planned.chains().cycles()) {
        acts.clear();
        push_shift(&mut acts, layout, bits, masks, expected, cycle)?;
        vectors.push(Acts::copied(layout.alloc, &acts)?)?;
    }
    Ok(())
}

// Adds the vectors of the first load, behind which nothing was captured.
fn add_first(
    vectors: &mut Vec<Acts>,
    layout: &Layout<'_>,
    bits: &[u64],
    masks: &[bool],
) -> Result<(), AllocError>
    requires layout { IsLayout layout.now }
    requires bits { (plan_in layout.now).cycles * layout.now.planned.now.config.ring.channels ≤ 64 * length bits.now }
    ensures { OnOk result (vectors.new.items ≡ vectors.old.items ++ spec.load_vectors layout.now.planned.now.design layout.now.planned.now.config (plan_in layout.now) (table_of layout.now.planned.now.config.ring (packed_bit bits.now)) masks.now None) }
{
    add_shifts(vectors, layout, bits, masks, None)?;
    Ok(())
}

// Adds the vectors of a load, while what a pattern captured comes out.
fn add_next(
    vectors: &mut Vec<Acts>,
    layout: &Layout<'_>,
    before: Pattern<'_>,
    bits: &[u64],
    masks: &[bool],
) -> Result<(), AllocError>
    requires layout { IsLayout layout.now }
    requires before { Fits layout.now.planned.now.config (plan_in layout.now) before }
    requires bits { (plan_in layout.now).cycles * layout.now.planned.now.config.ring.channels ≤ 64 * length bits.now }
    ensures { OnOk result (vectors.new.items ≡ vectors.old.items ++ spec.load_vectors layout.now.planned.now.design layout.now.planned.now.config (plan_in layout.now) (table_of layout.now.planned.now.config.ring (packed_bit bits.now)) masks.now (Some (data_of layout.now.planned.now.config (plan_in layout.now) before.entry))) }
{
    let shown = expected(
        layout.alloc,
        layout.planned.config(),
        layout.planned.chains(),
        before.response,
        before.masks,
        bits,
    )?;
    add_shifts(vectors, layout, bits, masks, Some(&shown))?;
    Ok(())
}

// Adds the vectors of a load of these channel bits that sends these masks, while what a pattern captured before comes out.
pub(crate) fn add_load(
    vectors: &mut Vec<Acts>,
    layout: &Layout<'_>,
    before: Option<Pattern<'_>>,
    bits: &[u64],
    masks: &[bool],
) -> Result<(), AllocError>
    requires layout { IsLayout layout.now }
    requires before { IfSome before (Fits layout.now.planned.now.config (plan_in layout.now)) }
    requires bits { (plan_in layout.now).cycles * layout.now.planned.now.config.ring.channels ≤ 64 * length bits.now }
    ensures { OnOk result (vectors.new.items ≡ vectors.old.items
        ++ spec.load_vectors layout.now.planned.now.design layout.now.planned.now.config (plan_in layout.now) (table_of layout.now.planned.now.config.ring (packed_bit bits.now)) masks.now (data_if_any layout.now.planned.now.config (plan_in layout.now) before.entry)) }
{
    match before {
        None => add_first(vectors, layout, bits, masks),
        Some(before) => add_next(vectors, layout, before, bits, masks),
    }
}

// The packed bits of a load in which no channel bit is 1.
pub(crate) fn no_bits(layout: &Layout<'_>) -> Result<Vec<u64>, AllocError>
    ensures { IfOk result (λ bits. bits.items ≡ replicate (words_for (columns_of layout.now.planned.now.config (plan_in layout.now))) 0) }
{
    let columns = usize::from(layout.planned.chains().cycles())
        * usize::from(layout.planned.config().ring().channels);
    vec![in layout.alloc; 0; (columns + 63) / 64]
}
