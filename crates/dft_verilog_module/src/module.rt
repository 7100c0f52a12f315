//! The end of a module (IEEE 1364, structural part).

ghost use Rattle.dft_netlist_text.specs.NetlistText as spec;
ghost use Rattle.dft_verilog_tokens.specs.Reading.{Reads};

use dft_netlist_text::TokenKind;
use dft_verilog_draft::ModuleDraft;
use dft_verilog_tokens::{ReadError, Tokens, undeclared};

#[tactic(auto, unfolding(dft_netlist_text::specs::NetlistText::module_end))]
// `endmodule`, where the ports must have been declared.
pub(crate) fn module_end(draft: &ModuleDraft<'_>, tokens: &mut Tokens<'_>) -> Result<(), ReadError>
    ensures { Reads (λ _. draft.now) (spec.module_end draft.now tokens.old) result tokens.new }
{
    let place = tokens.left();
    tokens.expect(TokenKind::Endmodule)?;
    match draft.first_undeclared() {
        Some(name) => Err(undeclared(draft.alloc(), place, name.as_slice())),
        None => Ok(()),
    }
}
