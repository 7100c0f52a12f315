//! What a name gives where it stands in an expression: nets, bit-selects and part-selects (IEEE 1364).

ghost use Rattle.std.specs.Prelude.{◌≡◌, ◌≤◌, ◌+◌, ◌<◌, ◌^◌, ◌++◌, ◌&&◌, None, length, option_map, IfSome, OnOk};
ghost use Rattle.dft_base.specs.Name.{IsName};
ghost use Rattle.dft_base.specs.Ranges as ranges;
ghost use Rattle.dft_netlist_text.specs.Expressions as spec;
ghost use Rattle.dft_netlist_text.specs.Modules.{declare_nets, declared_at, meaning_of};
ghost use Rattle.dft_verilog_tokens.specs.Reading.{Checks};
ghost use Rattle.dft_verilog_draft.specs.Drafts.{IsMeaningWithin};
ghost use Rattle.dft_verilog_draft.specs.Selects.{signals_of_run, behind_bits, and_selected};

use crate::bits::width;
use crate::module_draft::ModuleDraft;
use dft_base::Range;
use dft_netlist::{MAX_NETS, NetId, PinSignals, Signal};
use dft_netlist_text::{Cause, Meaning, Select, Shape, Site};
use dft_verilog_tokens::{ReadError, refused, taken, undeclared};
use std::alloc::AllocError;

/// Nets with numbers one after the other.
#[derive(Clone, Copy, Debug)]
pub struct Run {
    pub first: u32,
    pub count: u32,
}

// Whether a range has this index.
fn has_index(range: Range, index: u16) -> bool
    ensures { result ≡ ranges.has_index range index }
{
    if range.right <= range.left {
        range.right <= index && index <= range.left
    } else {
        range.left <= index && index <= range.right
    }
}

// How far an index is from the left of its range.
fn place_in(range: Range, index: u16) -> u16
    ensures { result ≡ ranges.place_in range index }
{
    if range.right <= range.left {
        range.left.saturating_sub(index)
    } else {
        index.saturating_sub(range.left)
    }
}

// Whether a part lies in a range and goes its way.
fn has_part(range: Range, part: Range) -> bool
    ensures { result ≡ ranges.has_part range part }
{
    has_index(range, part.left)
        && has_index(range, part.right)
        && place_in(range, part.left) <= place_in(range, part.right)
}

// What is selected of a vector with its first net at this number.
fn selected_of_vector(shape: Shape, range: Range, what: Select) -> Option<Run>
    requires { shape.first.0 ≤ MAX_NETS }
    ensures bits { option_map signals_of_run result ≡ spec.selected_of_vector shape range what }
    ensures short { IfSome result (λ run. run.first + run.count < 2 ^ 32) }
{
    let first = shape.first.0;
    match what {
        Select::Whole => Some(Run {
            first,
            count: width(range) as u32,
        }),
        Select::Bit(index) if has_index(range, index) => Some(Run {
            first: first + u32::from(place_in(range, index)),
            count: 1,
        }),
        Select::Part(part) if has_part(range, part) => {
            let left = place_in(range, part.left);
            let right = place_in(range, part.right);
            Some(Run {
                first: first + u32::from(left),
                count: u32::from(right.saturating_sub(left)) + 1,
            })
        }
        _ => None,
    }
}

// What is selected of the nets of a name.
fn selected(shape: Shape, what: Select) -> Option<Run>
    requires { shape.first.0 ≤ MAX_NETS }
    ensures bits { option_map signals_of_run result ≡ spec.selected shape what }
    ensures short { IfSome result (λ run. run.first + run.count < 2 ^ 32) }
{
    match (shape.range, what) {
        (Some(range), _) => selected_of_vector(shape, range, what),
        (None, Select::Whole) => Some(Run {
            first: shape.first.0,
            count: 1,
        }),
        (None, _) => None,
    }
}

// Puts the signals of nets behind those before.
fn push_run(bits: &mut PinSignals, run: Run) -> Result<(), AllocError>
    requires { run.first + run.count < 2 ^ 32 }
    ensures { OnOk result (bits.new ≡ bits.old ++ signals_of_run run) }
{
    for place in 0..run.count {
        bits.push(Signal::Net(NetId(run.first + place)))?;
    }
    Ok(())
}

// Whether a whole name that was not declared is a net at such a place.
fn implies(site: Site, depth: usize) -> bool
    ensures { result ≡ spec.implies site depth }
{
    match site {
        Site::Pin { drives: _ } | Site::Terminal { drives: _ } => true,
        Site::Target => depth == 0,
        Site::Source => false,
    }
}

fn is_whole(what: Select) -> bool
    ensures { result ≡ spec.is_whole what }
{
    matches!(&what, Select::Whole)
}

// Puts what is selected of a name's nets behind the bits before. Refused where the selection does not fit.
fn push_selected(
    bits: &mut PinSignals,
    place: usize,
    shape: Shape,
    what: Select,
) -> Result<(), ReadError>
    requires { shape.first.0 ≤ MAX_NETS }
    ensures { Checks (λ _. bits.new) (and_selected bits.old place (spec.selected shape what)) result }
{
    match selected(shape, what) {
        Some(run) => {
            push_run(bits, run)?;
            Ok(())
        }
        None => Err(refused(place, Cause::Misfit)),
    }
}

/// Where an operand stands: the kind of place, how many concatenations are open, and the place in the text.
#[derive(Clone, Copy, Debug)]
pub struct Spot {
    pub site: Site,
    pub depth: usize,
    pub place: usize,
}

// Whether a name that was not declared is a net from here on.
fn is_implied(spot: Spot, what: Select) -> bool
    ensures { result ≡ (spec.implies spot.site spot.depth && spec.is_whole what) }
{
    implies(spot.site, spot.depth) && is_whole(what)
}

impl<'a> ModuleDraft<'a> {
    // A name that is free is a net from here on.
    fn imply(
        &mut self,
        place: usize,
        word: &'a [u8],
        bits: &mut PinSignals,
    ) -> Result<(), ReadError>
        requires name { IsName word.now }
        requires free { meaning_of self.old word.now ≡ None }
        ensures { (what : Select) → Checks (λ _. (self.new, bits.new)) (behind_bits bits.old (spec.implied_net (record { word = word.now; what = what; place = place }) self.old (declare_nets place word.now None self.old))) result }
    {
        let net = self.next_shape(None).first;
        self.declare_free(place, word, None)?;
        bits.push(Signal::Net(net))?;
        Ok(())
    }

    // Puts what a port's name gives behind the bits before. Refused where the port was not declared.
    fn bits_of_port(
        &self,
        place: usize,
        word: &[u8],
        what: Select,
        port: usize,
        bits: &mut PinSignals,
    ) -> Result<(), ReadError>
        requires { IsName word.now }
        ensures { Checks (λ _. (self.now, bits.new)) (behind_bits bits.old (spec.bits_of_port (record { word = word.now; what = what; place = place }) self.now (declared_at self.now port))) result }
    {
        match self.declared(port) {
            Some(declared) => push_selected(bits, place, declared.shape, what),
            None => Err(undeclared(self.alloc(), place, word)),
        }
    }

    /// Puts what a name gives behind the bits before: nets, or a net that it implies. Refused where it has no such
    /// meaning, or where the selection does not fit.
    pub fn bits_of_name(
        &mut self,
        spot: Spot,
        word: &'a [u8],
        what: Select,
        bits: &mut PinSignals,
    ) -> Result<(), ReadError>
        requires { IsName word.now }
        ensures { Checks (λ _. (self.new, bits.new)) (behind_bits bits.old (spec.bits_of_name spot.site spot.depth (record { word = word.now; what = what; place = spot.place }) self.old)) result }
    {
        let meaning = self.meaning(word);
        self.bits_of_meaning(spot, word, what, meaning, bits)
    }

    // The same of a name that stands for this.
    pub(crate) fn bits_of_meaning(
        &mut self,
        spot: Spot,
        word: &'a [u8],
        what: Select,
        meaning: Option<Meaning>,
        bits: &mut PinSignals,
    ) -> Result<(), ReadError>
        requires name { IsName word.now }
        requires is { meaning ≡ meaning_of self.old word.now }
        requires within { IfSome meaning (IsMeaningWithin (length self.old.nets)) }
        ensures { Checks (λ _. (self.new, bits.new)) (behind_bits bits.old (spec.bits_of_name spot.site spot.depth (record { word = word.now; what = what; place = spot.place }) self.old)) result }
    {
        let implied = is_implied(spot, what);
        let _count = self.net_count();
        match meaning {
            Some(Meaning::Nets(shape)) => push_selected(bits, spot.place, shape, what),
            Some(Meaning::Port(port)) => self.bits_of_port(spot.place, word, what, port, bits),
            Some(Meaning::Bit) => Err(taken(self.alloc(), spot.place, word)),
            Some(Meaning::Instance) if implied => Err(taken(self.alloc(), spot.place, word)),
            None if implied => self.imply(spot.place, word, bits),
            _ => Err(undeclared(self.alloc(), spot.place, word)),
        }
    }
}
