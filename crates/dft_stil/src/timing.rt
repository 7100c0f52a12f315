//! The block of tables of a pattern text (IEEE 1450-1999 `Timing`).

ghost use Rattle.std.specs.Prelude.{length, IfOk, OnOk};
ghost use Rattle.dft_stil_tokens.specs.Steps.{left};
ghost use Rattle.dft_stil_tokens.specs.Reading.{Reads};
ghost use Rattle.dft_stil_text.specs.WaveformTables as spec;
ghost use Rattle.dft_stil.specs.WaveformTablesShown.{timing_as, AreWide};

use crate::names::Names;
use crate::signal_groups::name_if_any;
use crate::waveform_table::table_body;
use crate::waveform_tables::WaveformTables;
use dft_stil_tokens::{ReadError, TokenKind, Tokens, taken};
use std::alloc::Global;

#[tactic(auto, unfolding(dft_stil_text::specs::WaveformTables::waveform_table))]
// A table, whose name no other may have so far.
fn one_table(
    alloc: Global,
    names: &Names,
    tables: &mut WaveformTables,
    tokens: &mut Tokens<'_>,
) -> Result<(), ReadError>
    requires { AreWide (length names.now.signals) tables.old }
    ensures read { Reads (λ _. tables.new) (spec.waveform_table names.now tables.old tokens.old) result tokens.new }
    ensures wide { OnOk result (AreWide (length names.now.signals) tables.new) }
{
    tokens.keyword(b"WaveformTable")?;
    let place = tokens.left();
    let word = tokens.name()?;
    if tables.number(word).is_some() {
        return Err(taken(alloc, word, place));
    }
    let waveforms = table_body(alloc, names, tokens)?;
    tables.add(alloc, word, waveforms)?;
    Ok(())
}

#[tactic(auto, using(crate::proofs::TableLemmas::wide_tables))]
// The tables of the block, and its brace.
fn all_tables(
    alloc: Global,
    names: &Names,
    tokens: &mut Tokens<'_>,
) -> Result<WaveformTables, ReadError>
    ensures read { Reads (λ t. t) (spec.waveform_tables_from (left tokens.old) names.now spec.no_tables tokens.old) result tokens.new }
    ensures wide { IfOk result (λ t. AreWide (length names.now.signals) t) }
{
    let mut tables = WaveformTables::new(alloc);
    'turns: for _turn in 0..tokens.left() {
        if tokens.eat(TokenKind::CloseBrace) {
            return Ok(tables);
        }
        one_table(alloc, names, &mut tables, tokens)?;
    }
    Err(tokens.no_token())
}

/// The block of tables: its name, if it has one, and the tables.
#[derive(Debug)]
pub struct Timing<'a> {
    pub name: Option<&'a [u8]>,
    pub tables: WaveformTables,
}

// One call for all fields, so that the proof of what owns a value stays short.
impl Drop for Timing<'_> {
    fn drop(self) {
        let Timing { name: _, tables: _ } = self;
    }
}

#[tactic(auto, unfolding(dft_stil_text::specs::WaveformTables::timing))]
/// The block of tables.
pub fn timing_block<'a>(
    alloc: Global,
    names: &Names,
    tokens: &mut Tokens<'a>,
) -> Result<Timing<'a>, ReadError>
    ensures read { Reads timing_as (spec.timing names.now tokens.old) result tokens.new }
    ensures wide { IfOk result (λ t. AreWide (length names.now.signals) t.tables) }
{
    tokens.keyword(b"Timing")?;
    let name = name_if_any(tokens)?;
    tokens.expect(TokenKind::OpenBrace)?;
    let tables = all_tables(alloc, names, tokens)?;
    Ok(Timing { name, tables })
}
