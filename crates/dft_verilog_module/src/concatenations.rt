//! Expressions of netlist texts: operands and concatenations (IEEE 1364), read without recursion.

ghost use Rattle.std.specs.Prelude.{◌≡◌, suc, ◌+◌, ◌≤◌, ◌<◌, false, OnOk, IfOk, length};
ghost use Rattle.dft_base.specs.Parser.{and_then, pure};
ghost use Rattle.dft_netlist_text.specs.Expressions as spec;
ghost use Rattle.dft_netlist_text.specs.Steps.{left, sees};
ghost use Rattle.dft_netlist_text.specs.declared.text.TokenKind.TheVariants as kinds;
ghost use Rattle.dft_verilog_draft.specs.Operands.{Grows, AreBits};
ghost use Rattle.dft_verilog_tokens.specs.Reading.{Reads};

use crate::operands::{followed, operand};
use dft_netlist::PinSignals;
use dft_netlist_text::{Site, TokenKind};
use dft_verilog_draft::ModuleDraft;
use dft_verilog_tokens::{MAX_TEXT, ReadError, Tokens};
use std::alloc::Global;
use std::marker::Model;

/// How far an expression is read: how many concatenations are open, whether an operand comes next, and the bits so far.
#[derive(Debug, Drop)]
pub struct OpenConcatenations {
    depth: usize,
    awaits: bool,
    bits: PinSignals,
}

impl Model for OpenConcatenations {
    ghost use Rattle.dft_netlist_text.specs.Expressions as spec;

    ghost Value = { spec.OpenConcatenations };

    ghost use Rattle.dft_verilog_module.specs.ConcatenationsShown.{concatenations_of};

    ghost view = { concatenations_of };
}

impl OpenConcatenations {
    // Nothing is read yet.
    fn unread(alloc: Global) -> OpenConcatenations
        ensures { result ≡ spec.unread }
    {
        OpenConcatenations {
            depth: 0,
            awaits: true,
            bits: PinSignals::new(alloc),
        }
    }

    // Whether the expression is read.
    fn is_read(&self) -> bool
        ensures { result ≡ spec.is_read self.now }
    {
        !self.awaits && self.depth == 0
    }

    // An operand comes.
    fn take_operand<'a>(
        &mut self,
        site: Site,
        draft: &mut ModuleDraft<'a>,
        tokens: &mut Tokens<'a>,
    ) -> Result<(), ReadError>
        ensures read { Reads (λ _. (draft.new, self.new)) (and_then (spec.operand site self.old.depth draft.old tokens.old) (λ o. pure (spec.with_operand self.old o))) result tokens.new }
        ensures depth { OnOk result (self.new.depth ≡ self.old.depth) }
        ensures grown { OnOk result (Grows draft.old draft.new) }
        ensures bits { AreBits (length draft.old.nets) (spec.drives site) self.old.bits → OnOk result (AreBits (length draft.new.nets) (spec.drives site) self.new.bits) }
    {
        operand(site, self.depth, draft, &mut self.bits, tokens)?;
        self.awaits = false;
        Ok(())
    }

    #[tactic(auto, using(dft_verilog_draft::proofs::OperandLemmas::growing), unfolding(dft_netlist_text::specs::Expressions::opening))]
    // A concatenation opens, or an operand comes.
    fn open<'a>(
        &mut self,
        site: Site,
        draft: &mut ModuleDraft<'a>,
        tokens: &mut Tokens<'a>,
    ) -> Result<(), ReadError>
        requires { self.old.depth ≤ MAX_TEXT }
        ensures read { Reads (λ _. (draft.new, self.new)) (spec.opening site draft.old self.old tokens.old) result tokens.new }
        ensures depth { OnOk result (self.new.depth ≤ self.old.depth + 1) }
        ensures grown { OnOk result (Grows draft.old draft.new) }
        ensures bits { AreBits (length draft.old.nets) (spec.drives site) self.old.bits → OnOk result (AreBits (length draft.new.nets) (spec.drives site) self.new.bits) }
    {
        if !tokens.sees(TokenKind::OpenBrace) {
            return self.take_operand(site, draft, tokens);
        }
        tokens.take();
        self.depth += 1;
        Ok(())
    }

    #[tactic(auto, unfolding(dft_netlist_text::specs::Expressions::closing))]
    // Behind an operand of a concatenation comes a comma, or the concatenation closes.
    fn close(&mut self, draft: &ModuleDraft<'_>, tokens: &mut Tokens<'_>) -> Result<(), ReadError>
        ensures read { Reads (λ _. (draft.now, self.new)) (spec.closing draft.now self.old tokens.old) result tokens.new }
        ensures depth { OnOk result (self.new.depth ≤ self.old.depth) }
        ensures bits { OnOk result (self.new.bits ≡ self.old.bits) }
    {
        if tokens.sees(TokenKind::Comma) {
            tokens.take();
            self.awaits = true;
        } else {
            tokens.expect(TokenKind::CloseBrace)?;
            self.depth = self.depth.saturating_sub(1);
        }
        Ok(())
    }

    #[tactic(auto, using(dft_verilog_draft::proofs::OperandLemmas::growing))]
    // One step through an expression.
    fn turn<'a>(
        &mut self,
        site: Site,
        draft: &mut ModuleDraft<'a>,
        tokens: &mut Tokens<'a>,
    ) -> Result<(), ReadError>
        requires { self.old.depth ≤ MAX_TEXT }
        ensures read { Reads (λ _. (draft.new, self.new)) (spec.turn site draft.old self.old tokens.old) result tokens.new }
        ensures depth { OnOk result (self.new.depth ≤ self.old.depth + 1) }
        ensures grown { OnOk result (Grows draft.old draft.new) }
        ensures bits { AreBits (length draft.old.nets) (spec.drives site) self.old.bits → OnOk result (AreBits (length draft.new.nets) (spec.drives site) self.new.bits) }
    {
        if self.awaits {
            self.open(site, draft, tokens)
        } else {
            self.close(draft, tokens)
        }
    }

    // All of an expression, but for what comes behind it.
    fn read_on<'a>(
        &mut self,
        site: Site,
        draft: &mut ModuleDraft<'a>,
        tokens: &mut Tokens<'a>,
    ) -> Result<(), ReadError>
        requires { self.old.depth ≡ 0 }
        ensures read { Reads (λ _. (draft.new, self.new)) (spec.concatenations_from (suc (left tokens.old)) site draft.old self.old tokens.old) result tokens.new }
        ensures grown { OnOk result (Grows draft.old draft.new) }
        ensures bits { AreBits (length draft.old.nets) (spec.drives site) self.old.bits → OnOk result (AreBits (length draft.new.nets) (spec.drives site) self.new.bits) }
    {
        'turns: for _turn in 0..tokens.left() + 1 {
            if self.is_read() {
                return Ok(());
            }
            self.turn(site, draft, tokens)?;
        }
        Err(tokens.refusal())
    }
}

#[tactic(auto, unfolding(dft_netlist_text::specs::Expressions::expression))]
// An expression with concatenations, perhaps.
fn with_concatenations<'a>(
    site: Site,
    draft: &mut ModuleDraft<'a>,
    tokens: &mut Tokens<'a>,
) -> Result<PinSignals, ReadError>
    ensures read { Reads (λ bits. (draft.new, bits)) (spec.expression site draft.old tokens.old) result tokens.new }
    ensures grown { OnOk result (Grows draft.old draft.new) }
    ensures bits { IfOk result (λ bits. AreBits (length draft.new.nets) (spec.drives site) bits) }
{
    let mut so_far = OpenConcatenations::unread(draft.alloc());
    so_far.read_on(site, draft, tokens)?;
    followed(site, 0, tokens)?;
    Ok(so_far.bits)
}

#[tactic(auto, using(crate::proofs::OneOperandLemmas::lone_operands))]
// An expression of one operand.
fn lone_operand<'a>(
    site: Site,
    draft: &mut ModuleDraft<'a>,
    tokens: &mut Tokens<'a>,
) -> Result<PinSignals, ReadError>
    requires some { 0 < left tokens.old }
    requires lone { sees kinds.OpenBrace tokens.old ≡ false }
    ensures read { Reads (λ bits. (draft.new, bits)) (spec.expression site draft.old tokens.old) result tokens.new }
    ensures grown { OnOk result (Grows draft.old draft.new) }
    ensures bits { IfOk result (λ bits. AreBits (length draft.new.nets) (spec.drives site) bits) }
{
    let mut bits = PinSignals::new(draft.alloc());
    operand(site, 0, draft, &mut bits, tokens)?;
    followed(site, 0, tokens)?;
    Ok(bits)
}

/// An expression: its bits, leftmost first. What comes behind it must be what may follow.
pub fn expression<'a>(
    site: Site,
    draft: &mut ModuleDraft<'a>,
    tokens: &mut Tokens<'a>,
) -> Result<PinSignals, ReadError>
    ensures read { Reads (λ bits. (draft.new, bits)) (spec.expression site draft.old tokens.old) result tokens.new }
    ensures grown { OnOk result (Grows draft.old draft.new) }
    ensures bits { IfOk result (λ bits. AreBits (length draft.new.nets) (spec.drives site) bits) }
{
    if tokens.left() == 0 || tokens.sees(TokenKind::OpenBrace) {
        with_concatenations(site, draft, tokens)
    } else {
        lone_operand(site, draft, tokens)
    }
}
