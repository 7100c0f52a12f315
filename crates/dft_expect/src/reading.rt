//! What patterns capture, read from settled values.

ghost use Rattle.std.specs.Prelude.{◌≡◌, ℕ, ◌+◌, ◌<◌, ◌≤◌, ◌++◌, Some, is_some, length, map, slice_get, slice_index_or, IfOk, OnOk};
ghost use Rattle.std.specs.List.{list_any, range_with_len};
ghost use Rattle.dft_base.specs.declared.tri.Tri.TheVariants.{Unknown};
ghost use Rattle.dft_evaluator.specs.Evaluations.{value_at};
ghost use Rattle.dft_expect.specs.declared.pattern.Pattern.{Pattern as PatternOf};
ghost use Rattle.dft_expect.specs.Captures.{capture_clock, captured_domains};
ghost use Rattle.dft_expect.specs.Capturing.{AreBehind, AreReadyFor, AreRisen, CanAllFall, CanFall, CapturedBehind, HasPulsed, HavePulsed, IsReadyFor, IsRisen};
ghost use Rattle.dft_expect.specs.Fixed.{IsFixed, capturing_in};
ghost use Rattle.dft_expect.specs.Loaded.{or_unknown as or_unknown_bit};
ghost use Rattle.dft_expect.specs.Reads as spec;
ghost use Rattle.dft_expect.specs.Reads.{read_at, read_value, value_of_signal};

use crate::fixed::Fixed;
use crate::moving::value_of;
use crate::pattern::Pattern;
use crate::reads::Read;
use crate::response::Response;
use crate::sources::{bit_at, or_unknown};
use dft_base::{Listed, Tri};
use dft_behavior::ClockRoot;
use dft_config::Config;
use dft_evaluator::Evaluator;
use dft_logic::takes;
use dft_netlist::{Design, NetId, Signal};
use std::alloc::{AllocError, Global};

// An edge of the clock that captures, if there is one.
#[derive(Clone, Copy)]
pub(crate) struct Edge {
    clock: Option<NetId>,
    rising: bool,
}

// Whether a cell on this clock, if it is on one, takes its bit at an edge.
fn is_at(clock: Option<ClockRoot>, edge: Edge) -> bool
    ensures { result ≡ spec.is_at clock edge.clock edge.rising }
{
    match (clock, edge.clock) {
        (Some(root), Some(port)) => port.0 == root.port.0 && takes(edge.rising, root.inverted),
        _ => false,
    }
}

// The value at what a pin is joined to.
fn signal_value(evaluator: &Evaluator, signal: Signal, pattern: u16) -> Tri
    requires { pattern < 512 }
    ensures { result ≡ value_of_signal (value_at evaluator.now pattern) signal }
{
    match signal {
        Signal::Net(net) => evaluator.value_at(net, pattern),
        Signal::Constant(bit) => if bit { Tri::One } else { Tri::Zero },
        Signal::Unconnected => Tri::Unknown,
    }
}

// The value of a cell after an edge: its next one where it takes one, and else what it had before.
fn cell_after(evaluator: &Evaluator, read: &Read, edge: Edge, before: Tri, pattern: u16) -> Tri
    requires { pattern < 512 }
    ensures { result ≡ read_value (value_at evaluator.now pattern) edge.clock edge.rising before read.now }
{
    if is_at(read.clock, edge) {
        signal_value(evaluator, read.input, pattern)
    } else {
        before
    }
}

// The values of all cells as they are loaded.
fn cells_loaded(alloc: Global, count: usize, loaded: &[bool]) -> Result<Vec<Tri>, AllocError>
    ensures { IfOk result (λ cells. cells.items ≡ map (λ number. or_unknown_bit (slice_get loaded.now number)) (range_with_len 0 count)) }
{
    let mut cells = Vec::with_capacity(alloc, count)?;
    for number in 0..count {
        cells.push(or_unknown(bit_at(loaded, number)))?;
    }
    Ok(cells)
}

// The values of all cells after an edge, from those before it.
fn cells_from(
    alloc: Global,
    reads: &[Read],
    evaluator: &Evaluator,
    edge: Edge,
    before: &[Tri],
    pattern: u16,
) -> Result<Vec<Tri>, AllocError>
    requires { pattern < 512 }
    ensures { IfOk result (λ cells. cells.items ≡ map (λ number. read_value (value_at evaluator.now pattern) edge.clock edge.rising (slice_index_or before.now number Unknown) (read_at reads.now number)) (range_with_len 0 (length reads.now))) }
{
    let mut cells = Vec::with_capacity(alloc, reads.len())?;
    for number in 0..reads.len() {
        let before = value_of(before, number);
        cells.push(cell_after(evaluator, &reads[number], edge, before, pattern))?;
    }
    Ok(cells)
}

// Adds the values of these nets.
fn push_values(
    values: &mut Vec<Tri>,
    evaluator: &Evaluator,
    nets: &[NetId],
    pattern: u16,
) -> Result<(), AllocError>
    requires { pattern < 512 }
    ensures { OnOk result (values.new.items ≡ values.old.items ++ map (λ net. value_at evaluator.now pattern net.0) nets.now) }
{
    for net in nets {
        values.push(evaluator.value_at(*net, pattern))?;
    }
    Ok(())
}

// The clock that captures in a pattern, by the place of its domain.
fn clock_of(design: &Design, config: &Config, domain: u8) -> Option<NetId>
    ensures { result ≡ capture_clock design.now config.now domain }
{
    match config.domains().get(usize::from(domain)) {
        Some(name) => design.input(name.as_slice()),
        None => None,
    }
}

// What a pattern has captured before its first capture vector: its loaded bits, and no outputs.
fn begin(alloc: Global, fixed: &Fixed<'_>, pattern: &Pattern<'_>) -> Result<Response, AllocError>
    requires fixed { IsFixed fixed.now }
    ensures { IfOk result (CapturedBehind fixed.now.design.now fixed.now.config.now pattern.now 0) }
{
    let cells = cells_loaded(alloc, fixed.reads.len(), pattern.loaded)?;
    Ok(Response {
        cells: Listed::from_vec(cells),
        outputs: Listed::from_vec(Vec::new(alloc)),
    })
}

// The same of each pattern.
pub(crate) fn begin_all(
    alloc: Global,
    fixed: &Fixed<'_>,
    patterns: &[Pattern<'_>],
) -> Result<Vec<Response>, AllocError>
    requires fixed { IsFixed fixed.now }
    ensures { IfOk result (λ responses. AreBehind (capturing_in fixed.now) 0 patterns.now responses.items) }
{
    let mut responses = Vec::with_capacity(alloc, patterns.len())?;
    for place in 0..patterns.len() {
        responses.push(begin(alloc, fixed, &patterns[place])?)?;
    }
    Ok(responses)
}

// Lets the clock of this domain rise, where the values of a pattern are settled before that.
fn rise(
    alloc: Global,
    fixed: &Fixed<'_>,
    evaluator: &Evaluator,
    domain: u8,
    place: u16,
    response: &mut Response,
) -> Result<(), AllocError>
    requires fixed { IsFixed fixed.now }
    requires place { place < 512 }
    ensures { OnOk result ((pattern : PatternOf) (count : ℕ) → IsReadyFor fixed.now.design.now fixed.now.config.now pattern count response.old (value_at evaluator.now place)
        → IsRisen fixed.now.design.now fixed.now.config.now pattern count domain response.new (value_at evaluator.now place)) }
{
    let edge = Edge {
        clock: clock_of(fixed.design, fixed.config, domain),
        rising: true,
    };
    let before = response.cells.as_slice();
    let cells = cells_from(alloc, fixed.reads, evaluator, edge, before, place)?;
    let mut outputs = Vec::from_slice(alloc, response.outputs.as_slice())?;
    push_values(&mut outputs, evaluator, fixed.outputs, place)?;
    response.cells = Listed::from_vec(cells);
    response.outputs = Listed::from_vec(outputs);
    Ok(())
}

// Lets the clocks of this vector rise in all patterns that have one, where their values are settled before that.
pub(crate) fn rise_all(
    alloc: Global,
    fixed: &Fixed<'_>,
    evaluator: &Evaluator,
    patterns: &[Pattern<'_>],
    vector: u8,
    responses: &mut [Response],
) -> Result<(), AllocError>
    requires fixed { IsFixed fixed.now }
    requires patterns { length patterns.now ≤ 512 }
    requires ready { AreReadyFor (capturing_in fixed.now) vector patterns.now responses.old (value_at evaluator.now) }
    ensures { OnOk result (AreRisen (capturing_in fixed.now) vector patterns.now responses.new (value_at evaluator.now)) }
{
    for place in 0..patterns.len() {
        if let Some(domain) = patterns[place].merged.domains.at(vector) {
            rise(
                alloc,
                fixed,
                evaluator,
                domain,
                place as u16,
                &mut responses[place],
            )?;
        }
    }
    Ok(())
}

// Lets the clock of this domain fall, where the values of a pattern are settled before that.
fn fall(
    alloc: Global,
    fixed: &Fixed<'_>,
    evaluator: &Evaluator,
    domain: u8,
    place: u16,
    response: &mut Response,
) -> Result<(), AllocError>
    requires fixed { IsFixed fixed.now }
    requires place { place < 512 }
    ensures { OnOk result ((pattern : PatternOf) (count : ℕ) → slice_get (captured_domains pattern.merged.now) count ≡ Some domain
        → CanFall fixed.now.design.now fixed.now.config.now pattern count domain response.old (value_at evaluator.now place)
        → HasPulsed fixed.now.design.now fixed.now.config.now pattern (count + 1) response.new (value_at evaluator.now place)) }
{
    let edge = Edge {
        clock: clock_of(fixed.design, fixed.config, domain),
        rising: false,
    };
    let before = response.cells.as_slice();
    let cells = cells_from(alloc, fixed.reads, evaluator, edge, before, place)?;
    response.cells = Listed::from_vec(cells);
    Ok(())
}

// Lets the clocks of this vector fall in all patterns that have one, where their values are settled before that.
pub(crate) fn fall_all(
    alloc: Global,
    fixed: &Fixed<'_>,
    evaluator: &Evaluator,
    patterns: &[Pattern<'_>],
    vector: u8,
    responses: &mut [Response],
) -> Result<(), AllocError>
    requires fixed { IsFixed fixed.now }
    requires patterns { length patterns.now ≤ 512 }
    requires settled { CanAllFall (capturing_in fixed.now) vector patterns.now responses.old (value_at evaluator.now) }
    ensures { OnOk result (HavePulsed (capturing_in fixed.now) (vector + 1) patterns.now responses.new (value_at evaluator.now)) }
{
    for place in 0..patterns.len() {
        if let Some(domain) = patterns[place].merged.domains.at(vector) {
            fall(
                alloc,
                fixed,
                evaluator,
                domain,
                place as u16,
                &mut responses[place],
            )?;
        }
    }
    Ok(())
}

// Whether a pattern has a second capture vector.
pub(crate) fn any_second(patterns: &[Pattern<'_>]) -> bool
    ensures { result ≡ list_any (λ pattern. is_some pattern.merged.now.domains.second) patterns.now }
{
    patterns
        .iter()
        .any(|pattern| pattern.merged.domains.second.is_some())
}
