//! The nets of cells, set and settled again once the rising cells have moved.

ghost use Rattle.std.specs.Prelude.{◌≡◌, ℕ, ◌<◌, ◌≤◌, ◌^◌, Some, length, slice_get, slice_index_or};
ghost use Rattle.dft_base.specs.declared.tri.Tri.TheVariants.{Unknown};
ghost use Rattle.dft_netlist.specs.Netlist.{Netlist};
ghost use Rattle.dft_config.specs.Config.{Config};
ghost use Rattle.dft_evaluator.specs.Wides.{IsWide, value_in};
ghost use Rattle.dft_evaluator.specs.Evaluations.{IsFor, value_at};
ghost use Rattle.dft_expect.specs.declared.pattern.Pattern.{Pattern as PatternOf};
ghost use Rattle.dft_expect.specs.declared.response.Response.{Response as ResponseOf};
ghost use Rattle.dft_base.specs.declared.tri.Tri.{Tri as ATri};
ghost use Rattle.dft_expect.specs.Capturing.{CanCapture, HasMoved, IsPrepared, Settles};
ghost use Rattle.dft_expect.specs.Settings as spec;
ghost use Rattle.dft_expect.specs.Settings.{moved_by, setting_at};
ghost use Rattle.dft_expect.specs.Sources.{IsSame, IsCellSet};

use crate::response::Response;
use crate::settings::Setting;
use dft_base::Tri;
use dft_evaluator::{Evaluator, set_value, unknown};
use dft_lanes::Wide;
use dft_netlist::NetId;

// A value, or its inverse.
pub(crate) fn turned(inverted: bool, value: Tri) -> Tri
    ensures { result ≡ spec.turned inverted value }
{
    match (inverted, value) {
        (true, Tri::Zero) => Tri::One,
        (true, Tri::One) => Tri::Zero,
        _ => value,
    }
}

// The value of a number, if there is one, and else Unknown.
pub(crate) fn value_of(values: &[Tri], number: usize) -> Tri
    ensures { result ≡ slice_index_or values.now number Unknown }
{
    match values.get(number) {
        Some(value) => *value,
        None => Tri::Unknown,
    }
}

// What the cell of a number, or its inverse, is in these responses.
fn risen_wide(risen: &[Response], number: usize, inverted: bool) -> Wide
    requires { length risen.now ≤ 512 }
    ensures wide { IsWide result (value_in result) }
    ensures each { (p : ℕ) (r : ResponseOf) → slice_get risen.now p ≡ Some r → value_in result p ≡ spec.turned inverted (slice_index_or r.cells number Unknown) }
{
    let mut wide = unknown();
    for place in 0..risen.len() {
        let value = value_of(risen[place].cells.as_slice(), number);
        set_value(&mut wide, place as u16, turned(inverted, value));
    }
    wide
}

// Sets a net as these responses have it, if it shows a cell.
fn set_cell(evaluator: &mut Evaluator, setting: Setting, net: NetId, risen: &[Response])
    requires risen { length risen.now ≤ 512 }
    requires net { net.0 < length evaluator.old.wides }
    ensures same { IsSame evaluator.old evaluator.new }
    ensures set { IsCellSet setting net.0 risen.now evaluator.old evaluator.new }
{
    if let Setting::Cell(number, inverted) = setting {
        let wide = risen_wide(risen, number, inverted);
        evaluator.set_source_wide(net, &wide);
    }
}

// Sets the nets that show cells as these responses have them.
fn set_cells(evaluator: &mut Evaluator, settings: &[Setting], risen: &[Response])
    requires risen { length risen.now ≤ 512 }
    requires small { length settings.now < 2 ^ 32 }
    requires nets { length settings.now ≡ length evaluator.old.wides }
    ensures same { IsSame evaluator.old evaluator.new }
    ensures each { (p : ℕ) (r : ResponseOf) → slice_get risen.now p ≡ Some r → (net : ℕ) → value_at evaluator.new p net ≡ moved_by (setting_at settings.now net) r.cells (value_at evaluator.old p net) }
{
    for net in 0..settings.len() {
        set_cell(evaluator, settings[net], NetId(net as u32), risen);
    }
}

// Settles all nets again, where cells have moved: what is settled in a state is so in another one, in which cells have what these responses
// have and all other flip-flops are as before.
pub(crate) fn settle_again(evaluator: &mut Evaluator, settings: &[Setting], moved: &[Response])
    requires moved { length moved.now ≤ 512 }
    requires small { length settings.now < 2 ^ 32 }
    requires nets { length settings.now ≡ length evaluator.old.wides }
    ensures design { (n : Netlist) → IsFor n evaluator.old → IsFor n evaluator.new }
    ensures settled { (n : Netlist) (config : Config) → CanCapture n config → IsPrepared n config settings.now → IsFor n evaluator.old →
        (p : ℕ) (pattern : PatternOf) (r : ResponseOf) (state next : ℕ → ATri) → slice_get moved.now p ≡ Some r → HasMoved n config state next r →
        Settles n config pattern state (value_at evaluator.old p) → Settles n config pattern next (value_at evaluator.new p) }
{
    set_cells(evaluator, settings, moved);
    evaluator.settle();
}
