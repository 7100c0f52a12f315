//! Declarations of ports and wires (IEEE 1364).

ghost use Rattle.std.specs.Prelude.{◌≡◌, OnOk};
ghost use Rattle.dft_netlist_text.specs.Items as spec;
ghost use Rattle.dft_verilog_module.specs.Declarations.{declaring};
ghost use Rattle.dft_verilog_tokens.specs.Reading.{Reads};

use dft_base::Range;
use dft_netlist::Dir;
use dft_netlist_text::TokenKind;
use dft_verilog_draft::ModuleDraft;
use dft_verilog_tokens::{ReadError, Tokens, range_if_any};

/// What a declaration declares.
#[derive(Clone, Copy, Debug)]
pub enum Declaring {
    /// Ports of a direction.
    Ports(Dir),
    Wires,
}

#[tactic(auto, using(crate::proofs::KeptLemmas::declared_kept), unfolding(dft_netlist_text::specs::Items::declared_name))]
// One name is declared; its meaning is tested at the name.
fn declared_name<'a>(
    what: Declaring,
    range: Option<Range>,
    draft: &mut ModuleDraft<'a>,
    tokens: &mut Tokens<'a>,
) -> Result<(), ReadError>
    ensures read { Reads (λ _. draft.new) (spec.declared_name (declaring what) range draft.old tokens.old) result tokens.new }
    ensures library { OnOk result (draft.new.library ≡ draft.old.library) }
{
    let place = tokens.left();
    let word = tokens.name()?;
    match what {
        Declaring::Ports(dir) => draft.declare_port(place, word, dir, range),
        Declaring::Wires => draft.declare_wire(place, word, range),
    }
}

// Names with commas between them.
fn declared_names<'a>(
    what: Declaring,
    range: Option<Range>,
    draft: &mut ModuleDraft<'a>,
    tokens: &mut Tokens<'a>,
) -> Result<(), ReadError>
    ensures read { Reads (λ _. draft.new) (spec.declared_names (declaring what) range draft.old tokens.old) result tokens.new }
    ensures library { OnOk result (draft.new.library ≡ draft.old.library) }
{
    'turns: for _turn in 0..tokens.left() {
        declared_name(what, range, draft, tokens)?;
        if !tokens.eat(TokenKind::Comma) {
            return Ok(());
        }
    }
    Err(tokens.refusal())
}

#[tactic(auto, unfolding(dft_netlist_text::specs::Items::declaration))]
// A range, if any, and names.
fn declaration<'a>(
    what: Declaring,
    draft: &mut ModuleDraft<'a>,
    tokens: &mut Tokens<'a>,
) -> Result<(), ReadError>
    ensures read { Reads (λ _. draft.new) (spec.declaration (declaring what) draft.old tokens.old) result tokens.new }
    ensures library { OnOk result (draft.new.library ≡ draft.old.library) }
{
    let range = range_if_any(tokens)?;
    declared_names(what, range, draft, tokens)?;
    tokens.expect(TokenKind::Semicolon)?;
    Ok(())
}

#[tactic(auto, unfolding(dft_netlist_text::specs::Items::port_item))]
/// `input` or `output`, perhaps `wire`, and what they declare.
pub fn port_item<'a>(
    dir: Dir,
    draft: &mut ModuleDraft<'a>,
    tokens: &mut Tokens<'a>,
) -> Result<(), ReadError>
    ensures read { Reads (λ _. draft.new) (spec.port_item dir draft.old tokens.old) result tokens.new }
    ensures library { OnOk result (draft.new.library ≡ draft.old.library) }
{
    tokens.take();
    tokens.eat(TokenKind::Wire);
    declaration(Declaring::Ports(dir), draft, tokens)
}

#[tactic(auto, unfolding(dft_netlist_text::specs::Items::wire_item))]
/// `wire`, and what it declares.
pub fn wire_item<'a>(draft: &mut ModuleDraft<'a>, tokens: &mut Tokens<'a>) -> Result<(), ReadError>
    ensures read { Reads (λ _. draft.new) (spec.wire_item draft.old tokens.old) result tokens.new }
    ensures library { OnOk result (draft.new.library ≡ draft.old.library) }
{
    tokens.take();
    declaration(Declaring::Wires, draft, tokens)
}
