//! Instances of modules, by the modules' names (IEEE 1364).

ghost use Rattle.std.specs.Prelude.{◌≡◌, false, OnOk, IfOk};
ghost use Rattle.dft_base.specs.Name.{IsName};
ghost use Rattle.dft_modules.specs.SubInstances as spec;
ghost use Rattle.dft_netlist_text.specs.Steps.{left};
ghost use Rattle.dft_verilog_draft.specs.Operands.{Grows};
ghost use Rattle.dft_verilog_module.specs.SaidModules.{said};
ghost use Rattle.dft_verilog_tokens.specs.Reading.{Reads};

use crate::concatenations::expression;
use dft_netlist::PinSignals;
use dft_netlist_text::{Site, TokenKind};
use dft_verilog_draft::{DraftSub, ModuleDraft, SubConnections};
use dft_verilog_tokens::{ReadError, Tokens, Word, joined_twice};
use std::alloc::Global;

#[tactic(auto, unfolding(dft_modules::specs::SubInstances::named_port))]
// The name of a port, which is tested at itself.
fn named_port<'a>(
    alloc: Global,
    connections: &SubConnections<'a>,
    tokens: &mut Tokens<'a>,
) -> Result<&'a [u8], ReadError>
    ensures read { Reads (λ port. record { port = port.now; left = left tokens.old }) (spec.named_port connections.now tokens.old) result tokens.new }
    ensures name { IfOk result (λ port. IsName port.now) }
    ensures new { IfOk result (λ port. spec.was_named connections.now port.now ≡ false) }
{
    let place = tokens.left();
    let word = tokens.name()?;
    if connections.was_named(word) {
        return Err(joined_twice(alloc, place, word));
    }
    Ok(word)
}

#[tactic(auto, using(dft_verilog_draft::proofs::OperandLemmas::growing), unfolding(dft_modules::specs::SubInstances::port_content))]
// Nothing between the brackets, or an expression of any width.
fn port_content<'a>(
    draft: &mut ModuleDraft<'a>,
    tokens: &mut Tokens<'a>,
) -> Result<PinSignals, ReadError>
    ensures read { Reads (λ bits. (draft.new, bits)) (spec.port_content draft.old tokens.old) result tokens.new }
    ensures grown { OnOk result (Grows draft.old draft.new) }
{
    if tokens.sees(TokenKind::CloseParen) {
        return Ok(PinSignals::new(draft.alloc()));
    }
    expression(Site::Pin { drives: false }, draft, tokens)
}

#[tactic(auto, unfolding(dft_modules::specs::SubInstances::port_connection))]
// A point, a port, and what it is joined to.
fn port_connection<'a>(
    connections: &mut SubConnections<'a>,
    draft: &mut ModuleDraft<'a>,
    tokens: &mut Tokens<'a>,
) -> Result<(), ReadError>
    ensures read { Reads (λ _. (draft.new, connections.new)) (spec.port_connection (draft.old, connections.old) tokens.old) result tokens.new }
    ensures grown { OnOk result (Grows draft.old draft.new) }
{
    tokens.expect(TokenKind::Point)?;
    let place = tokens.left();
    let port = named_port(draft.alloc(), connections, tokens)?;
    tokens.expect(TokenKind::OpenParen)?;
    let signals = port_content(draft, tokens)?;
    tokens.expect(TokenKind::CloseParen)?;
    connections.add(place, port, signals)?;
    Ok(())
}

// Connections with commas between them.
fn listed_connections<'a>(
    connections: &mut SubConnections<'a>,
    draft: &mut ModuleDraft<'a>,
    tokens: &mut Tokens<'a>,
) -> Result<(), ReadError>
    ensures read { Reads (λ _. (draft.new, connections.new)) (spec.port_connections_from (left tokens.old) (draft.old, connections.old) tokens.old) result tokens.new }
    ensures grown { OnOk result (Grows draft.old draft.new) }
{
    'turns: for _turn in 0..tokens.left() {
        port_connection(connections, draft, tokens)?;
        if !tokens.eat(TokenKind::Comma) {
            return Ok(());
        }
    }
    Err(tokens.refusal())
}

#[tactic(auto, using(dft_verilog_draft::proofs::OperandLemmas::growing), unfolding(dft_modules::specs::SubInstances::port_connections))]
// Connections, or none.
fn port_connections<'a>(
    connections: &mut SubConnections<'a>,
    draft: &mut ModuleDraft<'a>,
    tokens: &mut Tokens<'a>,
) -> Result<(), ReadError>
    ensures read { Reads (λ _. (draft.new, connections.new)) (spec.port_connections (draft.old, connections.old) tokens.old) result tokens.new }
    ensures grown { OnOk result (Grows draft.old draft.new) }
{
    if tokens.sees(TokenKind::CloseParen) {
        return Ok(());
    }
    listed_connections(connections, draft, tokens)
}

#[tactic(auto, using(crate::proofs::SubLemmas::sub_rules), unfolding(dft_modules::specs::SubInstances::sub_instance))]
// The name of an instance, which is tested at itself, and its connections.
fn sub_instance<'a>(
    of: &'a [u8],
    subs: &mut Vec<DraftSub<'a>>,
    draft: &mut ModuleDraft<'a>,
    tokens: &mut Tokens<'a>,
) -> Result<(), ReadError>
    requires { IsName of.now }
    ensures read { Reads (λ _. said draft.new subs.new.items) (spec.sub_instance of.now (said draft.old subs.old.items) tokens.old) result tokens.new }
    ensures library { OnOk result (draft.new.library ≡ draft.old.library) }
{
    let place = tokens.left();
    let word = tokens.name()?;
    draft.name_sub(place, word)?;
    tokens.expect(TokenKind::OpenParen)?;
    let mut connections = SubConnections::new(draft.alloc());
    port_connections(&mut connections, draft, tokens)?;
    tokens.expect(TokenKind::CloseParen)?;
    let joins = draft.joins().len();
    let cells = draft.instances().len();
    let connections = connections.into_list();
    subs.push(DraftSub::new(Word::read(word), Word::read(of), joins, cells, connections))?;
    Ok(())
}

// Instances of one module with commas between them.
fn listed_instances<'a>(
    of: &'a [u8],
    subs: &mut Vec<DraftSub<'a>>,
    draft: &mut ModuleDraft<'a>,
    tokens: &mut Tokens<'a>,
) -> Result<(), ReadError>
    requires { IsName of.now }
    ensures read { Reads (λ _. said draft.new subs.new.items) (spec.sub_instances_from (left tokens.old) of.now (said draft.old subs.old.items) tokens.old) result tokens.new }
    ensures library { OnOk result (draft.new.library ≡ draft.old.library) }
{
    'turns: for _turn in 0..tokens.left() {
        sub_instance(of, subs, draft, tokens)?;
        if !tokens.eat(TokenKind::Comma) {
            return Ok(());
        }
    }
    Err(tokens.refusal())
}

#[tactic(auto, unfolding(dft_modules::specs::SubInstances::sub_instances))]
/// Instances of a module, and the semicolon behind them.
pub fn sub_instances<'a>(
    of: &'a [u8],
    subs: &mut Vec<DraftSub<'a>>,
    draft: &mut ModuleDraft<'a>,
    tokens: &mut Tokens<'a>,
) -> Result<(), ReadError>
    requires { IsName of.now }
    ensures read { Reads (λ _. said draft.new subs.new.items) (spec.sub_instances of.now (said draft.old subs.old.items) tokens.old) result tokens.new }
    ensures library { OnOk result (draft.new.library ≡ draft.old.library) }
{
    listed_instances(of, subs, draft, tokens)?;
    tokens.expect(TokenKind::Semicolon)?;
    Ok(())
}
