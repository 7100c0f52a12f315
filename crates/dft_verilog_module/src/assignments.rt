//! Continuous assignments (IEEE 1364).

ghost use Rattle.std.specs.Prelude.{◌≡◌, true, false, length, OnOk};
ghost use Rattle.dft_netlist_text.specs.Expressions.{drives};
ghost use Rattle.dft_netlist_text.specs.Items as spec;
ghost use Rattle.dft_netlist_text.specs.Modules.{with_join};
ghost use Rattle.dft_verilog_draft.specs.Operands.{AreBits, IsBit};
ghost use Rattle.dft_verilog_tokens.specs.Reading.{Reads};

use crate::concatenations::expression;
use dft_netlist::{Join, Signal};
use dft_netlist_text::{Cause, Site, TokenKind};
use dft_verilog_draft::ModuleDraft;
use dft_verilog_tokens::{ReadError, Tokens, refused};
use std::alloc::AllocError;

#[tactic(auto, using(dft_verilog_draft::proofs::OperandLemmas::joins))]
// The target has the source's bit.
fn join(draft: &mut ModuleDraft<'_>, target: Signal, source: Signal) -> Result<(), AllocError>
    requires target { IsBit (length draft.old.nets) true target }
    requires source { IsBit (length draft.old.nets) false source }
    ensures { OnOk result (draft.new ≡ with_join (record { target = spec.driven_net target; source = source }) draft.old) }
{
    match target {
        Signal::Net(target) => draft.add_join(Join { target, source }),
        Signal::Constant(_) | Signal::Unconnected => unreachable!(),
    }
}

// Each target has the source's bit at its place.
fn join_all(
    draft: &mut ModuleDraft<'_>,
    targets: &[Signal],
    sources: &[Signal],
) -> Result<(), AllocError>
    requires same { length targets.now ≡ length sources.now }
    requires targets { AreBits (length draft.old.nets) true targets.now }
    requires sources { AreBits (length draft.old.nets) false sources.now }
    ensures joins { OnOk result (draft.new ≡ spec.with_joins targets.now sources.now draft.old) }
    ensures library { OnOk result (draft.new.library ≡ draft.old.library) }
{
    for (place, target) in targets.iter().enumerate() {
        join(draft, *target, sources[place])?;
    }
    Ok(())
}

#[tactic(auto, using(dft_verilog_draft::proofs::OperandLemmas::bits), unfolding(dft_netlist_text::specs::Items::right_side))]
// The right side of an assignment, for these bits on the left. The widths are compared behind it.
fn right_side<'a>(
    targets: &[Signal],
    draft: &mut ModuleDraft<'a>,
    tokens: &mut Tokens<'a>,
) -> Result<(), ReadError>
    requires { AreBits (length draft.old.nets) true targets.now }
    ensures read { Reads (λ _. draft.new) (spec.right_side targets.now draft.old tokens.old) result tokens.new }
    ensures library { OnOk result (draft.new.library ≡ draft.old.library) }
{
    let place = tokens.left();
    let sources = expression(Site::Source, draft, tokens)?;
    let sources = sources.as_slice();
    if targets.len() != sources.len() {
        return Err(refused(place, Cause::Misfit));
    }
    join_all(draft, targets, sources)?;
    Ok(())
}

#[tactic(auto, unfolding(dft_netlist_text::specs::Items::net_assignment))]
// A left side, `=`, and a right side.
fn net_assignment<'a>(draft: &mut ModuleDraft<'a>, tokens: &mut Tokens<'a>) -> Result<(), ReadError>
    ensures read { Reads (λ _. draft.new) (spec.net_assignment draft.old tokens.old) result tokens.new }
    ensures library { OnOk result (draft.new.library ≡ draft.old.library) }
{
    let targets = expression(Site::Target, draft, tokens)?;
    tokens.expect(TokenKind::Equals)?;
    right_side(targets.as_slice(), draft, tokens)
}

// Assignments with commas between them.
fn net_assignments<'a>(
    draft: &mut ModuleDraft<'a>,
    tokens: &mut Tokens<'a>,
) -> Result<(), ReadError>
    ensures read { Reads (λ _. draft.new) (spec.net_assignments draft.old tokens.old) result tokens.new }
    ensures library { OnOk result (draft.new.library ≡ draft.old.library) }
{
    'turns: for _turn in 0..tokens.left() {
        net_assignment(draft, tokens)?;
        if !tokens.eat(TokenKind::Comma) {
            return Ok(());
        }
    }
    Err(tokens.refusal())
}

#[tactic(auto, unfolding(dft_netlist_text::specs::Items::assign_item))]
/// `assign` and its assignments.
pub fn assign_item<'a>(
    draft: &mut ModuleDraft<'a>,
    tokens: &mut Tokens<'a>,
) -> Result<(), ReadError>
    ensures read { Reads (λ _. draft.new) (spec.assign_item draft.old tokens.old) result tokens.new }
    ensures library { OnOk result (draft.new.library ≡ draft.old.library) }
{
    tokens.take();
    net_assignments(draft, tokens)?;
    tokens.expect(TokenKind::Semicolon)?;
    Ok(())
}
