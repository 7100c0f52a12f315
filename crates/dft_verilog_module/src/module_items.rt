//! The items of a module (IEEE 1364, structural part).

ghost use Rattle.std.specs.Prelude.{◌≡◌, false, OnOk};
ghost use Rattle.dft_netlist_text.specs.Items as spec;
ghost use Rattle.dft_netlist_text.specs.Steps.{sees};
ghost use Rattle.dft_netlist_text.specs.declared.text.TokenKind.TheVariants.{Name};
ghost use Rattle.dft_verilog_tokens.specs.Reading.{Reads};

use crate::assignments::assign_item;
use crate::declarations::{port_item, wire_item};
use crate::gates::{gate_item, gate_kind};
use dft_netlist::Dir;
use dft_netlist_text::TokenKind;
use dft_verilog_draft::ModuleDraft;
use dft_verilog_tokens::{ReadError, Tokens};

#[tactic(auto, unfolding(dft_netlist_text::specs::Items::cell_item, dft_netlist_text::specs::Steps::expect))]
// Gates of a kind. Instances begin with a name.
fn gates<'a>(
    kind: TokenKind,
    draft: &mut ModuleDraft<'a>,
    tokens: &mut Tokens<'a>,
) -> Result<(), ReadError>
    requires { sees Name tokens.old ≡ false }
    ensures read { Reads (λ _. draft.new) (spec.gate_or_cell (spec.gate_kind kind) draft.old tokens.old) result tokens.new }
    ensures library { OnOk result (draft.new.library ≡ draft.old.library) }
{
    match gate_kind(kind) {
        Some(kind) => gate_item(kind, draft, tokens),
        None => Err(tokens.refusal()),
    }
}

#[tactic(auto, unfolding(dft_netlist_text::specs::Items::item))]
// One item that begins with no name.
pub(crate) fn item<'a>(
    draft: &mut ModuleDraft<'a>,
    tokens: &mut Tokens<'a>,
) -> Result<(), ReadError>
    requires { sees Name tokens.old ≡ false }
    ensures read { Reads (λ _. draft.new) (spec.item draft.old tokens.old) result tokens.new }
    ensures library { OnOk result (draft.new.library ≡ draft.old.library) }
{
    match tokens.kind() {
        TokenKind::Input => port_item(Dir::Input, draft, tokens),
        TokenKind::Output => port_item(Dir::Output, draft, tokens),
        TokenKind::Wire => wire_item(draft, tokens),
        TokenKind::Assign => assign_item(draft, tokens),
        kind => gates(kind, draft, tokens),
    }
}
