//! The header of a module: names alone, or ports with their directions (IEEE 1364).

ghost use Rattle.std.specs.Prelude.{◌≡◌, IfOk, OnOk};
ghost use Rattle.dft_base.specs.Name.{IsName};
ghost use Rattle.dft_netlist_text.specs.NetlistText as spec;
ghost use Rattle.dft_verilog_module.specs.PortDeclarations.{port_declaration_as};
ghost use Rattle.dft_verilog_module.specs.SaidModules.{headed, module_name};
ghost use Rattle.dft_verilog_tokens.specs.Reading.{Reads};

use dft_base::{Name, Range};
use dft_cells::Library;
use dft_netlist::Dir;
use dft_netlist_text::TokenKind;
use dft_verilog_draft::ModuleDraft;
use dft_verilog_tokens::{ReadError, Tokens, range_if_any};
use std::alloc::Global;

/// What the names behind a direction have.
#[derive(Clone, Copy, Debug)]
pub struct PortDeclaration {
    pub dir: Dir,
    pub range: Option<Range>,
}

#[tactic(auto, using(crate::proofs::KeptLemmas::declared_kept), unfolding(dft_netlist_text::specs::NetlistText::announced_name))]
// One name of a header without directions.
fn announced_name<'a>(draft: &mut ModuleDraft<'a>, tokens: &mut Tokens<'a>) -> Result<(), ReadError>
    ensures read { Reads (λ _. draft.new) (spec.announced_name draft.old tokens.old) result tokens.new }
    ensures library { OnOk result (draft.new.library ≡ draft.old.library) }
{
    let place = tokens.left();
    let word = tokens.name()?;
    draft.announce(place, word)
}

// The names of a header without directions.
fn announced_names<'a>(
    draft: &mut ModuleDraft<'a>,
    tokens: &mut Tokens<'a>,
) -> Result<(), ReadError>
    ensures read { Reads (λ _. draft.new) (spec.announced_names draft.old tokens.old) result tokens.new }
    ensures library { OnOk result (draft.new.library ≡ draft.old.library) }
{
    'turns: for _turn in 0..tokens.left() {
        announced_name(draft, tokens)?;
        if !tokens.eat(TokenKind::Comma) {
            return Ok(());
        }
    }
    Err(tokens.refusal())
}

#[tactic(auto, using(crate::proofs::KeptLemmas::declared_kept), unfolding(dft_netlist_text::specs::NetlistText::declared_port))]
// One name of a header with directions.
fn declared_port<'a>(
    declared: PortDeclaration,
    draft: &mut ModuleDraft<'a>,
    tokens: &mut Tokens<'a>,
) -> Result<(), ReadError>
    ensures read { Reads (λ _. draft.new) (spec.declared_port declared.dir declared.range draft.old tokens.old) result tokens.new }
    ensures library { OnOk result (draft.new.library ≡ draft.old.library) }
{
    let place = tokens.left();
    let word = tokens.name()?;
    draft.declare_new_port(place, word, declared.dir, declared.range)
}

#[tactic(auto, unfolding(dft_netlist_text::specs::NetlistText::port_declaration_of))]
// `input` or `output`, perhaps `wire`, perhaps a range.
fn port_declaration_of(dir: Dir, tokens: &mut Tokens<'_>) -> Result<PortDeclaration, ReadError>
    ensures { Reads port_declaration_as (spec.port_declaration_of dir tokens.old) result tokens.new }
{
    tokens.take();
    tokens.eat(TokenKind::Wire);
    let range = range_if_any(tokens)?;
    Ok(PortDeclaration { dir, range })
}

#[tactic(auto, unfolding(dft_netlist_text::specs::NetlistText::port_declaration))]
// A new direction, or the one of the name before.
fn next_port_declaration(
    before: PortDeclaration,
    tokens: &mut Tokens<'_>,
) -> Result<PortDeclaration, ReadError>
    ensures { Reads port_declaration_as (spec.port_declaration (port_declaration_as before) tokens.old) result tokens.new }
{
    if tokens.sees(TokenKind::Input) {
        port_declaration_of(Dir::Input, tokens)
    } else if tokens.sees(TokenKind::Output) {
        port_declaration_of(Dir::Output, tokens)
    } else {
        Ok(before)
    }
}

// The ports of a header with directions. The first has a direction of its own.
fn declared_ports<'a>(draft: &mut ModuleDraft<'a>, tokens: &mut Tokens<'a>) -> Result<(), ReadError>
    ensures read { Reads (λ _. draft.new) (spec.declared_ports draft.old tokens.old) result tokens.new }
    ensures library { OnOk result (draft.new.library ≡ draft.old.library) }
{
    let mut here = PortDeclaration {
        dir: Dir::Input,
        range: None,
    };
    'turns: for _turn in 0..tokens.left() {
        here = next_port_declaration(here, tokens)?;
        declared_port(here, draft, tokens)?;
        if !tokens.eat(TokenKind::Comma) {
            return Ok(());
        }
    }
    Err(tokens.refusal())
}

#[tactic(auto, unfolding(dft_netlist_text::specs::NetlistText::header_names))]
// What stands between the brackets of a header.
fn header_names<'a>(draft: &mut ModuleDraft<'a>, tokens: &mut Tokens<'a>) -> Result<(), ReadError>
    ensures read { Reads (λ _. draft.new) (spec.header_names draft.old tokens.old) result tokens.new }
    ensures library { OnOk result (draft.new.library ≡ draft.old.library) }
{
    if tokens.sees(TokenKind::CloseParen) {
        Ok(())
    } else if tokens.sees(TokenKind::Input) || tokens.sees(TokenKind::Output) {
        declared_ports(draft, tokens)
    } else {
        announced_names(draft, tokens)
    }
}

#[tactic(auto, unfolding(dft_netlist_text::specs::NetlistText::header))]
// The header in brackets, or none.
fn header<'a>(draft: &mut ModuleDraft<'a>, tokens: &mut Tokens<'a>) -> Result<(), ReadError>
    ensures read { Reads (λ _. draft.new) (spec.header draft.old tokens.old) result tokens.new }
    ensures library { OnOk result (draft.new.library ≡ draft.old.library) }
{
    if !tokens.sees(TokenKind::OpenParen) {
        return Ok(());
    }
    tokens.take();
    header_names(draft, tokens)?;
    tokens.expect(TokenKind::CloseParen)?;
    Ok(())
}

// `module` and its name.
pub(crate) fn module_name<'a>(tokens: &mut Tokens<'a>) -> Result<&'a [u8], ReadError>
    ensures read { Reads (λ word. word.now) (module_name tokens.old) result tokens.new }
    ensures name { IfOk result (λ word. IsName word.now) }
{
    tokens.expect(TokenKind::Module)?;
    tokens.name()
}

#[tactic(auto, unfolding(crate::specs::SaidModules::headed))]
// The header of the module with this name.
pub(crate) fn headed<'a>(
    alloc: Global,
    word: &[u8],
    library: Library,
    tokens: &mut Tokens<'a>,
) -> Result<ModuleDraft<'a>, ReadError>
    requires { IsName word.now }
    ensures read { Reads (λ draft. draft) (headed word.now library tokens.old) result tokens.new }
    ensures library { IfOk result (λ draft. draft.library ≡ library) }
{
    let name = Name::from_slice(alloc, word)?;
    let mut draft = ModuleDraft::new(alloc, name, library);
    header(&mut draft, tokens)?;
    tokens.expect(TokenKind::Semicolon)?;
    Ok(draft)
}

#[tactic(auto, unfolding(dft_netlist_text::specs::NetlistText::heading, crate::specs::SaidModules::headed))]
/// `module`, its name and its header.
pub fn heading<'a>(
    alloc: Global,
    library: Library,
    tokens: &mut Tokens<'a>,
) -> Result<ModuleDraft<'a>, ReadError>
    ensures read { Reads (λ draft. draft) (spec.heading library tokens.old) result tokens.new }
    ensures library { IfOk result (λ draft. draft.library ≡ library) }
{
    let word = module_name(tokens)?;
    headed(alloc, word, library, tokens)
}
