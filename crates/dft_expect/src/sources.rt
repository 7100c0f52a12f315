//! The sources of a design, set as up to 512 patterns set them.

ghost use Rattle.std.specs.Prelude.{◌≡◌, ℕ, ◌<◌, ◌≤◌, ◌^◌, None, Some, length, slice_get};
ghost use Rattle.dft_netlist.specs.Netlist.{Netlist};
ghost use Rattle.dft_evaluator.specs.Wides.{IsWide, value_in};
ghost use Rattle.dft_evaluator.specs.Evaluations.{IsFor, value_at};
ghost use Rattle.dft_expect.specs.declared.pattern.Pattern.{Pattern as PatternOf};
ghost use Rattle.dft_config.specs.Config.{Config};
ghost use Rattle.dft_expect.specs.Captures.{bit_of_port};
ghost use Rattle.dft_expect.specs.Capturing.{CanCapture, IsPrepared, Settles};
ghost use Rattle.dft_stitch.specs.Chains.{plan_of};
ghost use Rattle.dft_expect.specs.Loaded as spec;
ghost use Rattle.dft_expect.specs.Loaded.{loaded_values};
ghost use Rattle.dft_expect.specs.Settings.{setting_at, value_by, is_input, port_or};
ghost use Rattle.dft_expect.specs.Settings as by;
ghost use Rattle.dft_expect.specs.Sources.{IsSame, IsPortSet, ArePortsSet};

use crate::moving::turned;
use crate::pattern::Pattern;
use crate::settings::Setting;
use dft_base::Tri;
use dft_evaluator::{Evaluator, all, set_value, unknown};
use dft_lanes::Wide;
use dft_netlist::NetId;

// The bit of a number, if there is one.
pub(crate) fn bit_at(bits: &[bool], number: usize) -> Option<bool>
    ensures { result ≡ slice_get bits.now number }
{
    match bits.get(number) {
        Some(bit) => Some(*bit),
        None => None,
    }
}

// The value of a bit.
fn known(bit: bool) -> Tri
    ensures { result ≡ spec.or_unknown (Some bit) }
{
    if bit { Tri::One } else { Tri::Zero }
}

// The value of a bit that may not be there.
pub(crate) fn or_unknown(bit: Option<bool>) -> Tri
    ensures { result ≡ spec.or_unknown bit }
{
    match bit {
        Some(bit) => known(bit),
        None => Tri::Unknown,
    }
}

// The value of a cell with this bit, or its inverse.
fn cell_value(inverted: bool, bit: Option<bool>) -> Tri
    ensures { result ≡ by.cell_value inverted bit }
{
    turned(inverted, or_unknown(bit))
}

// What the cell of a number, or its inverse, can be in the patterns.
fn cell_wide(patterns: &[Pattern<'_>], number: usize, inverted: bool) -> Wide
    requires { length patterns.now ≤ 512 }
    ensures wide { IsWide result (value_in result) }
    ensures each { (p : ℕ) (pattern : PatternOf) → slice_get patterns.now p ≡ Some pattern → value_in result p ≡ by.cell_value inverted (slice_get pattern.loaded.now number) }
{
    let mut wide = unknown();
    for place in 0..patterns.len() {
        let bit = bit_at(patterns[place].loaded, number);
        set_value(&mut wide, place as u16, cell_value(inverted, bit));
    }
    wide
}

// What a net with a setting can be, where no pattern gives a port a bit.
fn setting_wide(setting: Setting, patterns: &[Pattern<'_>]) -> Wide
    requires { length patterns.now ≤ 512 }
    ensures wide { IsWide result (value_in result) }
    ensures each { (p : ℕ) (pattern : PatternOf) → slice_get patterns.now p ≡ Some pattern → value_in result p ≡ value_by setting None pattern.loaded.now }
{
    match setting {
        Setting::Input => all(Tri::Zero),
        Setting::Reset => all(Tri::One),
        Setting::Clock => all(Tri::Zero),
        Setting::Cell(number, inverted) => cell_wide(patterns, number, inverted),
        Setting::Unknown => unknown(),
    }
}

// Sets all nets as they are where no pattern gives a port a bit.
fn set_all(evaluator: &mut Evaluator, settings: &[Setting], patterns: &[Pattern<'_>])
    requires patterns { length patterns.now ≤ 512 }
    requires small { length settings.now < 2 ^ 32 }
    requires nets { length settings.now ≡ length evaluator.old.wides }
    ensures same { IsSame evaluator.old evaluator.new }
    ensures each { (p : ℕ) (pattern : PatternOf) → slice_get patterns.now p ≡ Some pattern → (net : ℕ) → net < length settings.now → value_at evaluator.new p net ≡ value_by (setting_at settings.now net) None pattern.loaded.now }
{
    for net in 0..settings.len() {
        let wide = setting_wide(settings[net], patterns);
        evaluator.set_source_wide(NetId(net as u32), &wide);
    }
}

// Sets the bit that a pattern gives a port, if it is one that may have it.
fn set_port(evaluator: &mut Evaluator, settings: &[Setting], pattern: u16, given: &(NetId, bool))
    requires pattern { pattern < 512 }
    requires nets { length settings.now ≡ length evaluator.old.wides }
    ensures same { IsSame evaluator.old evaluator.new }
    ensures set { IsPortSet settings.now pattern given.now evaluator.old evaluator.new }
{
    if let Some(Setting::Input) = settings.get(given.0.0 as usize) {
        evaluator.set_source_at(given.0, pattern, known(given.1));
    }
}

// Sets the bits that a pattern gives ports; of two for one port the first one counts.
fn set_ports(evaluator: &mut Evaluator, settings: &[Setting], pattern: u16, ports: &[(NetId, bool)])
    requires pattern { pattern < 512 }
    requires nets { length settings.now ≡ length evaluator.old.wides }
    ensures same { IsSame evaluator.old evaluator.new }
    ensures set { ArePortsSet settings.now pattern ports.now evaluator.old evaluator.new }
{
    for done in 0..ports.len() {
        set_port(evaluator, settings, pattern, &ports[ports.len() - 1 - done]);
    }
}

// Sets the bits that each pattern gives ports.
fn set_given(evaluator: &mut Evaluator, settings: &[Setting], patterns: &[Pattern<'_>])
    requires patterns { length patterns.now ≤ 512 }
    requires nets { length settings.now ≡ length evaluator.old.wides }
    ensures same { IsSame evaluator.old evaluator.new }
    ensures each { (p : ℕ) (pattern : PatternOf) → slice_get patterns.now p ≡ Some pattern → (net : ℕ) →
        value_at evaluator.new p net ≡ port_or (is_input (setting_at settings.now net)) (bit_of_port pattern.merged.now.ports net) (value_at evaluator.old p net) }
{
    for place in 0..patterns.len() {
        let merged = patterns[place].merged;
        set_ports(evaluator, settings, place as u16, merged.ports.as_slice());
    }
}

// Sets all nets as the patterns set them.
fn set_sources(evaluator: &mut Evaluator, settings: &[Setting], patterns: &[Pattern<'_>])
    requires patterns { length patterns.now ≤ 512 }
    requires small { length settings.now < 2 ^ 32 }
    requires nets { length settings.now ≡ length evaluator.old.wides }
    ensures same { IsSame evaluator.old evaluator.new }
    ensures each { (p : ℕ) (pattern : PatternOf) → slice_get patterns.now p ≡ Some pattern → (net : ℕ) → net < length settings.now →
        value_at evaluator.new p net ≡ value_by (setting_at settings.now net) (bit_of_port pattern.merged.now.ports net) pattern.loaded.now }
{
    set_all(evaluator, settings, patterns);
    set_given(evaluator, settings, patterns);
}

// Settles all nets as they are before the captures of the patterns.
pub(crate) fn settle_all(evaluator: &mut Evaluator, settings: &[Setting], patterns: &[Pattern<'_>])
    requires patterns { length patterns.now ≤ 512 }
    requires small { length settings.now < 2 ^ 32 }
    requires nets { length settings.now ≡ length evaluator.old.wides }
    ensures design { (n : Netlist) → IsFor n evaluator.old → IsFor n evaluator.new }
    ensures settled { (n : Netlist) (config : Config) → CanCapture n config → IsPrepared n config settings.now → IsFor n evaluator.old →
        (p : ℕ) (pattern : PatternOf) → slice_get patterns.now p ≡ Some pattern → Settles n config pattern (loaded_values (plan_of n config).chains pattern.loaded.now) (value_at evaluator.new p) }
{
    set_sources(evaluator, settings, patterns);
    evaluator.settle();
}
