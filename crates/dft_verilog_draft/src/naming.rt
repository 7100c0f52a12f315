//! What a name gives an expression, and what the draft and the bits keep.

ghost use Rattle.std.specs.Prelude.{◌≡◌, [], ◌∷◌, OnOk, IfOk, IfSome, length};
ghost use Rattle.dft_base.specs.Name.{IsName};
ghost use Rattle.dft_netlist_text.specs.Expressions as spec;
ghost use Rattle.dft_netlist_text.specs.Modules.{Draft, meaning_of};
ghost use Rattle.dft_verilog_tokens.specs.Reading.{Checks};
ghost use Rattle.dft_verilog_draft.specs.Drafts.{IsMeaningWithin};
ghost use Rattle.dft_verilog_draft.specs.Operands.{Grows, AreBits, IsBit};
ghost use Rattle.dft_verilog_draft.specs.Selects.{behind_bits, lone, lone_of, lone_net};

use crate::module_draft::ModuleDraft;
use crate::selects::Spot;
use dft_netlist::{NetId, PinSignals, Signal};
use dft_netlist_text::{Cause, Meaning, Select};
use dft_verilog_tokens::{ReadError, refused};

// The net of a name without a range that stands for it, if all of it is selected.
#[inline(always)]
fn lone_net(meaning: Option<Meaning>, what: Select) -> Option<NetId>
    ensures { result ≡ lone_net meaning what }
{
    match (meaning, what) {
        (Some(Meaning::Nets(shape)), Select::Whole) => match shape.range {
            None => Some(shape.first),
            Some(_) => None,
        },
        _ => None,
    }
}

// The one bit of these; another number of bits is refused at this place.
fn lone_of(place: usize, bits: &[Signal]) -> Result<Signal, ReadError>
    ensures read { (d : Draft) → Checks (λ bit. (d, bit)) (lone_of place d bits.now) result }
    ensures one { IfOk result (λ bit. bits.now ≡ bit ∷ []) }
{
    match bits {
        [bit] => Ok(*bit),
        _ => Err(refused(place, Cause::Misfit)),
    }
}

impl<'a> ModuleDraft<'a> {
    /// Puts what a name gives behind the bits before, which are nets of the draft or constants that are not driven, and
    /// so are those behind it.
    pub fn read_name(
        &mut self,
        spot: Spot,
        word: &'a [u8],
        what: Select,
        bits: &mut PinSignals,
    ) -> Result<(), ReadError>
        requires { IsName word.now }
        ensures read { Checks (λ _. (self.new, bits.new)) (behind_bits bits.old (spec.bits_of_name spot.site spot.depth (record { word = word.now; what = what; place = spot.place }) self.old)) result }
        ensures grown { OnOk result (Grows self.old self.new) }
        ensures bits { AreBits (length self.old.nets) (spec.drives spot.site) bits.old → OnOk result (AreBits (length self.new.nets) (spec.drives spot.site) bits.new) }
    {
        let meaning = self.meaning(word);
        self.read_meaning(spot, word, what, meaning, bits)
    }

    // The same of a name that stands for this.
    fn read_meaning(
        &mut self,
        spot: Spot,
        word: &'a [u8],
        what: Select,
        meaning: Option<Meaning>,
        bits: &mut PinSignals,
    ) -> Result<(), ReadError>
        requires name { IsName word.now }
        requires is { meaning ≡ meaning_of self.old word.now }
        requires within { IfSome meaning (IsMeaningWithin (length self.old.nets)) }
        ensures read { Checks (λ _. (self.new, bits.new)) (behind_bits bits.old (spec.bits_of_name spot.site spot.depth (record { word = word.now; what = what; place = spot.place }) self.old)) result }
        ensures grown { OnOk result (Grows self.old self.new) }
        ensures bits { AreBits (length self.old.nets) (spec.drives spot.site) bits.old → OnOk result (AreBits (length self.new.nets) (spec.drives spot.site) bits.new) }
    {
        let _nets = self.nets();
        self.bits_of_meaning(spot, word, what, meaning, bits)?;
        Ok(())
    }

    /// The one bit that a name gives. Refused at the name where it has no such meaning or the selection does not fit, and at
    /// this place where it gives another number of bits.
    pub fn lone_bit(
        &mut self,
        spot: Spot,
        place: usize,
        word: &'a [u8],
        what: Select,
    ) -> Result<Signal, ReadError>
        requires { IsName word.now }
        ensures read { Checks (λ bit. (self.new, bit)) (lone place (spec.bits_of_name spot.site spot.depth (record { word = word.now; what = what; place = spot.place }) self.old)) result }
        ensures grown { OnOk result (Grows self.old self.new) }
        ensures bit { IfOk result (λ bit. IsBit (length self.new.nets) (spec.drives spot.site) bit) }
    {
        let meaning = self.meaning(word);
        match lone_net(meaning, what) {
            Some(net) => Ok(Signal::Net(net)),
            None => self.lone_bit_of(spot, place, word, what, meaning),
        }
    }

    // The one bit that a name gives which stands for this.
    fn lone_bit_of(
        &mut self,
        spot: Spot,
        place: usize,
        word: &'a [u8],
        what: Select,
        meaning: Option<Meaning>,
    ) -> Result<Signal, ReadError>
        requires name { IsName word.now }
        requires is { meaning ≡ meaning_of self.old word.now }
        requires within { IfSome meaning (IsMeaningWithin (length self.old.nets)) }
        ensures read { Checks (λ bit. (self.new, bit)) (lone place (spec.bits_of_name spot.site spot.depth (record { word = word.now; what = what; place = spot.place }) self.old)) result }
        ensures grown { OnOk result (Grows self.old self.new) }
        ensures bit { IfOk result (λ bit. IsBit (length self.new.nets) (spec.drives spot.site) bit) }
    {
        let mut bits = PinSignals::new(self.alloc());
        self.read_meaning(spot, word, what, meaning, &mut bits)?;
        lone_of(place, bits.as_slice())
    }
}
