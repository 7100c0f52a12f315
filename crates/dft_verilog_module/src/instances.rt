//! Instances of library cells (IEEE 1364).

ghost use Rattle.std.specs.Prelude.{◌≡◌, map, slice_get, Some, IfOk, OnOk};
ghost use Rattle.dft_netlist_text.specs.Items as spec;
ghost use Rattle.dft_netlist_text.specs.Steps.{left};
ghost use Rattle.dft_verilog_tokens.specs.Reading.{Reads};

use crate::connections::{connections, unjoined};
use dft_cells::{Cell, CellId};
use dft_netlist::{CellRef, PinSignals, Signal};
use dft_netlist_text::TokenKind;
use dft_verilog_draft::{DraftInstance, ModuleDraft};
use dft_verilog_tokens::{ReadError, Tokens, Word};
use std::alloc::{AllocError, Global};

// What a pin is joined to; one that was not named is not connected.
fn signal_at(joined: Option<Signal>) -> Signal
    ensures { result ≡ spec.signal_at joined }
{
    match joined {
        Some(to) => to,
        None => Signal::Unconnected,
    }
}

// The pins of a cell, in its order.
fn pins_of(alloc: Global, joined: &[Option<Signal>]) -> Result<PinSignals, AllocError>
    ensures { IfOk result (λ pins. pins ≡ map spec.signal_at joined.now) }
{
    let mut pins = PinSignals::new(alloc);
    for to in joined {
        pins.push(signal_at(*to))?;
    }
    Ok(pins)
}

#[tactic(auto, using(crate::proofs::ConnectionLemmas::instances), unfolding(dft_netlist_text::specs::Items::instance))]
// The name of an instance, which is tested at itself, and its connections.
fn instance<'a>(
    id: CellId,
    cell: &Cell,
    draft: &mut ModuleDraft<'a>,
    tokens: &mut Tokens<'a>,
) -> Result<(), ReadError>
    requires { slice_get draft.old.library id.0 ≡ Some cell.now }
    ensures read { Reads (λ _. draft.new) (spec.instance id cell.now draft.old tokens.old) result tokens.new }
    ensures library { OnOk result (draft.new.library ≡ draft.old.library) }
{
    let place = tokens.left();
    let word = tokens.name()?;
    draft.name_instance(place, word)?;
    tokens.expect(TokenKind::OpenParen)?;
    let mut joined = unjoined(draft.alloc(), cell)?;
    connections(cell, &mut joined, draft, tokens)?;
    tokens.expect(TokenKind::CloseParen)?;
    let pins = pins_of(draft.alloc(), joined.as_slice())?;
    let name = Some(Word::read(word));
    draft.add_instance(DraftInstance::new(name, CellRef::Library(id), pins))?;
    Ok(())
}

// Instances of one cell with commas between them.
fn instances_of_cell<'a>(
    id: CellId,
    cell: &Cell,
    draft: &mut ModuleDraft<'a>,
    tokens: &mut Tokens<'a>,
) -> Result<(), ReadError>
    requires { slice_get draft.old.library id.0 ≡ Some cell.now }
    ensures read { Reads (λ _. draft.new) (spec.instances_from (left tokens.old) id cell.now draft.old tokens.old) result tokens.new }
    ensures library { OnOk result (draft.new.library ≡ draft.old.library) }
{
    'turns: for _turn in 0..tokens.left() {
        instance(id, cell, draft, tokens)?;
        if !tokens.eat(TokenKind::Comma) {
            return Ok(());
        }
    }
    Err(tokens.refusal())
}

#[tactic(auto, unfolding(dft_netlist_text::specs::Items::instances))]
// Instances and the semicolon behind them.
pub(crate) fn instances<'a>(
    id: CellId,
    cell: &Cell,
    draft: &mut ModuleDraft<'a>,
    tokens: &mut Tokens<'a>,
) -> Result<(), ReadError>
    requires { slice_get draft.old.library id.0 ≡ Some cell.now }
    ensures read { Reads (λ _. draft.new) (spec.instances id cell.now draft.old tokens.old) result tokens.new }
    ensures library { OnOk result (draft.new.library ≡ draft.old.library) }
{
    instances_of_cell(id, cell, draft, tokens)?;
    tokens.expect(TokenKind::Semicolon)?;
    Ok(())
}
