//! The connections of a cell's pins (IEEE 1364).

ghost use Rattle.std.specs.Prelude.{◌≡◌, ℕ, ◌<◌, length, slice_get, IfOk, OnOk};
ghost use Rattle.dft_netlist_text.specs.Items as spec;
ghost use Rattle.dft_verilog_module.specs.JoinedPins.{FitsCell, IsPinSignal};
ghost use Rattle.dft_verilog_draft.specs.Operands.{Grows};
ghost use Rattle.dft_verilog_tokens.specs.Reading.{Reads};

use crate::joined_pins::JoinedPins;
use crate::single_bits::single_bit;
use dft_cells::Cell;
use dft_netlist::Signal;
use dft_netlist_text::{Site, TokenKind};
use dft_verilog_draft::ModuleDraft;
use dft_verilog_tokens::{ReadError, Tokens, joined_twice, no_pin};
use std::alloc::{AllocError, Global};

#[tactic(auto, using(crate::proofs::ConnectionLemmas::unjoined_pins))]
/// No pin of the cell is joined yet.
pub fn unjoined(alloc: Global, cell: &Cell) -> Result<JoinedPins, AllocError>
    ensures joined { IfOk result (λ joined. joined ≡ spec.unjoined cell.now) }
    ensures fits { (count : ℕ) → IfOk result (λ joined. FitsCell count cell.now joined) }
{
    JoinedPins::unjoined(alloc, cell.pins.as_slice().len())
}

// The place of the pin with this name.
fn pin_place(cell: &Cell, word: &[u8]) -> Option<usize>
    ensures { result ≡ spec.pin_place cell.now word.now }
{
    cell.pins
        .as_slice()
        .iter()
        .position(|pin| pin.name.as_slice() == word)
}

// Whether this pin drives its net.
fn pin_drives(cell: &Cell, pin: usize) -> bool
    ensures { result ≡ spec.pin_drives (slice_get cell.now.pins pin) }
{
    match cell.pins.as_slice().get(pin) {
        Some(pin) => pin.role.is_output(),
        None => false,
    }
}

// Whether a pin was named before, be it with nothing between the brackets.
fn was_joined(joined: &[Option<Signal>], pin: usize) -> bool
    ensures { result ≡ spec.was_joined (slice_get joined.now pin) }
{
    matches!(joined.get(pin), Some(Some(_)))
}

#[tactic(auto, unfolding(dft_netlist_text::specs::Items::connected_pin))]
// The name of a pin, which is tested at itself.
fn connected_pin(
    alloc: Global,
    cell: &Cell,
    joined: &[Option<Signal>],
    tokens: &mut Tokens<'_>,
) -> Result<usize, ReadError>
    ensures read { Reads (λ pin. pin) (spec.connected_pin cell.now joined.now tokens.old) result tokens.new }
    ensures within { IfOk result (λ pin. pin < length cell.now.pins) }
{
    let place = tokens.left();
    let word = tokens.name()?;
    match pin_place(cell, word) {
        None => Err(no_pin(alloc, place, word)),
        Some(pin) if was_joined(joined, pin) => Err(joined_twice(alloc, place, word)),
        Some(pin) => Ok(pin),
    }
}

#[tactic(auto, using(crate::proofs::ConnectionLemmas::pins), unfolding(dft_netlist_text::specs::Items::pin_signal))]
// The expression of a pin; its width is tested at this place.
fn pin_signal<'a>(
    cell: &Cell,
    place: usize,
    draft: &mut ModuleDraft<'a>,
    pin: usize,
    tokens: &mut Tokens<'a>,
) -> Result<Signal, ReadError>
    ensures read { Reads (λ to. (draft.new, to)) (spec.pin_signal cell.now place draft.old pin tokens.old) result tokens.new }
    ensures grown { OnOk result (Grows draft.old draft.new) }
    ensures to { IfOk result (λ to. IsPinSignal (length draft.new.nets) (spec.pin_drives (slice_get cell.now.pins pin)) to) }
{
    let drives = pin_drives(cell, pin);
    single_bit(Site::Pin { drives }, place, draft, tokens)
}

#[tactic(auto, using(dft_verilog_draft::proofs::OperandLemmas::growing), unfolding(dft_netlist_text::specs::Items::pin_content))]
// Nothing between the brackets leaves the pin unconnected.
fn pin_content<'a>(
    cell: &Cell,
    place: usize,
    draft: &mut ModuleDraft<'a>,
    pin: usize,
    tokens: &mut Tokens<'a>,
) -> Result<Signal, ReadError>
    ensures read { Reads (λ to. (draft.new, to)) (spec.pin_content cell.now place draft.old pin tokens.old) result tokens.new }
    ensures grown { OnOk result (Grows draft.old draft.new) }
    ensures to { IfOk result (λ to. IsPinSignal (length draft.new.nets) (spec.pin_drives (slice_get cell.now.pins pin)) to) }
{
    if tokens.sees(TokenKind::CloseParen) {
        Ok(Signal::Unconnected)
    } else {
        pin_signal(cell, place, draft, pin, tokens)
    }
}

#[tactic(auto, using(crate::proofs::ConnectionLemmas::pins), unfolding(dft_netlist_text::specs::Items::named_connection))]
// A point, a pin, and what it is joined to; the width is tested at the point.
fn named_connection<'a>(
    cell: &Cell,
    joined: &mut JoinedPins,
    draft: &mut ModuleDraft<'a>,
    tokens: &mut Tokens<'a>,
) -> Result<(), ReadError>
    requires { FitsCell (length draft.old.nets) cell.now joined.old }
    ensures read { Reads (λ _. (draft.new, joined.new)) (spec.named_connection cell.now (draft.old, joined.old) tokens.old) result tokens.new }
    ensures grown { OnOk result (Grows draft.old draft.new) }
    ensures fits { OnOk result (FitsCell (length draft.new.nets) cell.now joined.new) }
{
    let place = tokens.left();
    tokens.expect(TokenKind::Point)?;
    let pin = connected_pin(draft.alloc(), cell, joined.as_slice(), tokens)?;
    tokens.expect(TokenKind::OpenParen)?;
    let to = pin_content(cell, place, draft, pin, tokens)?;
    tokens.expect(TokenKind::CloseParen)?;
    joined.join(pin, to);
    Ok(())
}

// Connections with commas between them.
fn named_connections<'a>(
    cell: &Cell,
    joined: &mut JoinedPins,
    draft: &mut ModuleDraft<'a>,
    tokens: &mut Tokens<'a>,
) -> Result<(), ReadError>
    requires { FitsCell (length draft.old.nets) cell.now joined.old }
    ensures read { Reads (λ _. (draft.new, joined.new)) (spec.named_connections cell.now (draft.old, joined.old) tokens.old) result tokens.new }
    ensures grown { OnOk result (Grows draft.old draft.new) }
    ensures fits { OnOk result (FitsCell (length draft.new.nets) cell.now joined.new) }
{
    'turns: for _turn in 0..tokens.left() {
        named_connection(cell, joined, draft, tokens)?;
        if !tokens.eat(TokenKind::Comma) {
            return Ok(());
        }
    }
    Err(tokens.refusal())
}

#[tactic(auto, using(dft_verilog_draft::proofs::OperandLemmas::growing), unfolding(dft_netlist_text::specs::Items::connections))]
/// Connections, or none.
pub fn connections<'a>(
    cell: &Cell,
    joined: &mut JoinedPins,
    draft: &mut ModuleDraft<'a>,
    tokens: &mut Tokens<'a>,
) -> Result<(), ReadError>
    requires { FitsCell (length draft.old.nets) cell.now joined.old }
    ensures read { Reads (λ _. (draft.new, joined.new)) (spec.connections cell.now (draft.old, joined.old) tokens.old) result tokens.new }
    ensures grown { OnOk result (Grows draft.old draft.new) }
    ensures fits { OnOk result (FitsCell (length draft.new.nets) cell.now joined.new) }
{
    if tokens.sees(TokenKind::CloseParen) {
        return Ok(());
    }
    named_connections(cell, joined, draft, tokens)
}
