//! Instances of gate primitives (IEEE 1364).

ghost use Rattle.std.specs.Prelude.{◌≡◌, ◌<◌, true, false, length, IsTrue, List, [], ◌∷◌, IfSome, IfOk, OnOk};
ghost use Rattle.dft_netlist_text.specs.Items as spec;
ghost use Rattle.dft_netlist_text.specs.Lexemes.{Token};
ghost use Rattle.dft_netlist_text.specs.Modules.{Draft};
ghost use Rattle.dft_netlist.specs.Sound.{is_primitive};
ghost use Rattle.dft_verilog_draft.specs.Operands.{Grows, AreBits, IsBit};
ghost use Rattle.dft_verilog_tokens.specs.Reading.{Reads};

use crate::single_bits::single_bit;
use dft_cells::Gate;
use dft_netlist::{CellRef, MAX_INSTANCES, PinSignals, Signal};
use dft_netlist_text::{Cause, Site, TokenKind};
use dft_verilog_draft::{DraftInstance, ModuleDraft};
use dft_verilog_tokens::{ReadError, Tokens, Word, refused};

/// The kind of a gate primitive.
pub fn gate_kind(kind: TokenKind) -> Option<Gate>
    ensures value { result ≡ spec.gate_kind kind }
    ensures primitive { IfSome result (λ k. IsTrue (is_primitive k)) }
{
    match kind {
        TokenKind::And => Some(Gate::And),
        TokenKind::Nand => Some(Gate::Nand),
        TokenKind::Or => Some(Gate::Or),
        TokenKind::Nor => Some(Gate::Nor),
        TokenKind::Xor => Some(Gate::Xor),
        TokenKind::Xnor => Some(Gate::Xnor),
        TokenKind::Buf => Some(Gate::Buf),
        TokenKind::Not => Some(Gate::Inv),
        _ => None,
    }
}

#[tactic(auto, unfolding(dft_netlist_text::specs::Items::terminal))]
// A terminal of a gate; its width is tested at its first token.
fn terminal<'a>(
    drives: bool,
    draft: &mut ModuleDraft<'a>,
    tokens: &mut Tokens<'a>,
) -> Result<Signal, ReadError>
    ensures read { Reads (λ bit. (draft.new, bit)) (spec.terminal drives draft.old tokens.old) result tokens.new }
    ensures grown { OnOk result (Grows draft.old draft.new) }
    ensures bit { IfOk result (λ bit. IsBit (length draft.new.nets) drives bit) }
{
    let place = tokens.left();
    single_bit(Site::Terminal { drives }, place, draft, tokens)
}

// The terminals behind the first.
fn input_terminals<'a>(
    draft: &mut ModuleDraft<'a>,
    tokens: &mut Tokens<'a>,
) -> Result<PinSignals, ReadError>
    ensures read { Reads (λ inputs. (draft.new, inputs)) (spec.input_terminals draft.old tokens.old) result tokens.new }
    ensures grown { OnOk result (Grows draft.old draft.new) }
    ensures bits { IfOk result (λ inputs. AreBits (length draft.new.nets) false inputs) }
{
    let mut inputs = PinSignals::new(draft.alloc());
    'turns: for _turn in 0..tokens.left() {
        if !tokens.eat(TokenKind::Comma) {
            return Ok(inputs);
        }
        inputs.push(terminal(false, draft, tokens)?)?;
    }
    Err(tokens.refusal())
}

// How many inputs there are.
fn input_count(inputs: &PinSignals) -> usize
    ensures { result ≡ length inputs.now }
{
    inputs.as_slice().len()
}

#[tactic(auto, using(crate::proofs::GateLemmas::gates), unfolding(dft_netlist_text::specs::Items::terminals))]
// The terminals of a gate behind the bracket that stands at this place, where the number of terminals is refused.
fn terminals<'a>(
    kind: Gate,
    name: Option<Word<'a>>,
    place: usize,
    draft: &mut ModuleDraft<'a>,
    tokens: &mut Tokens<'a>,
) -> Result<(), ReadError>
    requires primitive { IsTrue (is_primitive kind) }
    requires room { length draft.old.instances < MAX_INSTANCES }
    ensures read { Reads (λ _. draft.new) (spec.terminals kind name.entry place draft.old tokens.old) result tokens.new }
    ensures library { OnOk result (draft.new.library ≡ draft.old.library) }
{
    let output = terminal(true, draft, tokens)?;
    let mut pins = input_terminals(draft, tokens)?;
    tokens.expect(TokenKind::CloseParen)?;
    let count = input_count(&pins);
    if !kind.takes_inputs(count) {
        return Err(refused(place, Cause::Misfit));
    }
    pins.push(output)?;
    let cell = CellRef::Gate(kind, count as u8);
    draft.add_instance(DraftInstance::new(name, cell, pins))?;
    Ok(())
}

#[tactic(auto, using(crate::proofs::GateLemmas::naming), unfolding(dft_netlist_text::specs::Items::named_gate))]
// A gate with a name.
fn named_gate<'a>(
    kind: Gate,
    draft: &mut ModuleDraft<'a>,
    tokens: &mut Tokens<'a>,
) -> Result<(), ReadError>
    requires { IsTrue (is_primitive kind) }
    ensures read { Reads (λ _. draft.new) (spec.named_gate kind draft.old tokens.old) result tokens.new }
    ensures library { OnOk result (draft.new.library ≡ draft.old.library) }
{
    let place = tokens.left();
    let word = tokens.name()?;
    draft.name_instance(place, word)?;
    let bracket = tokens.left();
    tokens.expect(TokenKind::OpenParen)?;
    terminals(kind, Some(Word::read(word)), bracket, draft, tokens)
}

#[tactic(auto, using(crate::proofs::GateLemmas::naming), unfolding(dft_netlist_text::specs::Items::unnamed_gate))]
// A gate without a name. The room for it is tested at its bracket.
fn unnamed_gate<'a>(
    kind: Gate,
    draft: &mut ModuleDraft<'a>,
    tokens: &mut Tokens<'a>,
) -> Result<(), ReadError>
    requires { IsTrue (is_primitive kind) }
    ensures read { Reads (λ _. draft.new) (spec.unnamed_gate kind draft.old tokens.old) result tokens.new }
    ensures library { OnOk result (draft.new.library ≡ draft.old.library) }
{
    let bracket = tokens.left();
    tokens.expect(TokenKind::OpenParen)?;
    draft.room_for_instance(bracket)?;
    terminals(kind, None, bracket, draft, tokens)
}

#[tactic(auto, unfolding(dft_netlist_text::specs::Items::one_gate))]
// A gate with or without a name.
fn one_gate<'a>(
    kind: Gate,
    draft: &mut ModuleDraft<'a>,
    tokens: &mut Tokens<'a>,
) -> Result<(), ReadError>
    requires { IsTrue (is_primitive kind) }
    ensures read { Reads (λ _. draft.new) (spec.one_gate kind draft.old tokens.old) result tokens.new }
    ensures library { OnOk result (draft.new.library ≡ draft.old.library) }
{
    if tokens.sees(TokenKind::Name) {
        named_gate(kind, draft, tokens)
    } else {
        unnamed_gate(kind, draft, tokens)
    }
}

// Gates of one kind with commas between them.
fn gates<'a>(
    kind: Gate,
    draft: &mut ModuleDraft<'a>,
    tokens: &mut Tokens<'a>,
) -> Result<(), ReadError>
    requires { IsTrue (is_primitive kind) }
    ensures read { Reads (λ _. draft.new) (spec.gates kind draft.old tokens.old) result tokens.new }
    ensures library { OnOk result (draft.new.library ≡ draft.old.library) }
{
    'turns: for _turn in 0..tokens.left() {
        one_gate(kind, draft, tokens)?;
        if !tokens.eat(TokenKind::Comma) {
            return Ok(());
        }
    }
    Err(tokens.refusal())
}

#[tactic(auto, unfolding(dft_netlist_text::specs::Items::gate_item))]
/// The kind of a gate and gates of this kind.
pub fn gate_item<'a>(
    kind: Gate,
    draft: &mut ModuleDraft<'a>,
    tokens: &mut Tokens<'a>,
) -> Result<(), ReadError>
    requires { IsTrue (is_primitive kind) }
    ensures read { Reads (λ _. draft.new) (spec.gate_item kind draft.old tokens.old) result tokens.new }
    ensures library { OnOk result (draft.new.library ≡ draft.old.library) }
{
    tokens.take();
    gates(kind, draft, tokens)?;
    tokens.expect(TokenKind::Semicolon)?;
    Ok(())
}
