//! Tokens whose bytes are names.

ghost use Rattle.std.specs.Prelude.{IfOk};
ghost use Rattle.dft_base.specs.Name.{IsName};
ghost use Rattle.dft_netlist_text.specs.Steps as spec;
ghost use Rattle.dft_netlist_text.specs.declared.text.TokenKind.TheVariants as kinds;
ghost use Rattle.dft_verilog_tokens.specs.Reading.{Reads};

use crate::cursor::Tokens;
use crate::read_error::ReadError;
use dft_netlist_text::TokenKind;

impl<'a> Tokens<'a> {
    #[tactic(auto, unfolding(dft_netlist_text::specs::Steps::expect, dft_netlist_text::specs::Steps::sees, dft_netlist_text::specs::Steps::same_kind))]
    /// Takes a name, which must come next; else the next token is refused.
    #[inline(always)]
    pub fn name(&mut self) -> Result<&'a [u8], ReadError>
        ensures read { Reads (λ bytes. bytes.now) (spec.expect kinds.Name self.old) result self.new }
        ensures name { IfOk result (λ bytes. IsName bytes.now) }
    {
        if self.kind() == TokenKind::Name {
            Ok(self.take())
        } else {
            Err(self.refusal())
        }
    }

    #[tactic(auto, unfolding(dft_netlist_text::specs::Steps::expect, dft_netlist_text::specs::Steps::sees, dft_netlist_text::specs::Steps::same_kind))]
    /// Takes the digits behind a base, which must come next; else the next token is refused.
    pub fn digits(&mut self) -> Result<&'a [u8], ReadError>
        ensures read { Reads (λ bytes. bytes.now) (spec.expect kinds.Digits self.old) result self.new }
        ensures name { IfOk result (λ bytes. IsName bytes.now) }
    {
        if self.kind() == TokenKind::Digits {
            Ok(self.take())
        } else {
            Err(self.refusal())
        }
    }
}
