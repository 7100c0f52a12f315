//! The statements of a pattern (IEEE 1450-1999 `Pattern`).

ghost use Rattle.std.specs.Prelude.{◌≡◌, ℕ, [], length, option_map, OnOk, IfOk, IfSome};
ghost use Rattle.dft_stil_text.specs.Statements as spec;
ghost use Rattle.dft_stil_tokens.specs.Steps.{left};
ghost use Rattle.dft_stil.specs.WaveformTablesShown.{AreWide};
ghost use Rattle.dft_stil.specs.PatternShown.{pattern_as};
ghost use Rattle.dft_stil.specs.WaveformsShown.{IsWide};
ghost use Rattle.dft_stil.specs.VectorShown.{vector_as};
ghost use Rattle.dft_stil_tokens.specs.Reading.{Reads};

use crate::names::Names;
use crate::vector::{VectorStatement, assignment};
use crate::waveform_tables::WaveformTables;
use crate::waveforms::Waveforms;
use dft_patterns::Acts;
use dft_stil_tokens::{Cause, ReadError, TokenKind, Tokens, fault_at, unknown};
use std::alloc::{AllocError, Global};
use std::mem::replace;

/// A pattern so far: the table of the last `W`, by number, the acts of the last vector, and the vectors. While a vector is
/// read, its acts are out.
#[derive(Debug, Drop)]
pub struct PatternBlock {
    pub table: Option<usize>,
    pub acts: Acts,
    pub vectors: Vec<Acts>,
}

// The waveforms of a table by number, if there is one.
fn waveforms_at(tables: &WaveformTables, number: Option<usize>) -> Option<&Waveforms>
    ensures value { option_map (λ s. s.now) result ≡ spec.waveforms_at tables.now number }
    ensures wide { (count : ℕ) → AreWide count tables.now → IfSome result (λ s. IsWide count s.now) }
{
    tables.waveforms(number?)
}

// A vector that mentions no signal, behind one with these acts.
fn vector_after(alloc: Global, acts: Acts) -> Result<VectorStatement, AllocError>
    ensures value { IfOk result (λ v. vector_as v ≡ spec.vector_after acts) }
    ensures acts { IfOk result (λ v. length v.acts ≡ length acts) }
    ensures told { IfOk result (λ v. length v.told.items ≡ length acts) }
{
    let told = vec![in alloc; false; acts.count()]?;
    Ok(VectorStatement { acts, told })
}

// The assignments of a vector, and its brace.
fn assignments(
    alloc: Global,
    names: &Names,
    waveforms: Option<&Waveforms>,
    begun: VectorStatement,
    tokens: &mut Tokens<'_>,
) -> Result<VectorStatement, ReadError>
    requires acts { length begun.acts ≡ length names.now.signals }
    requires told { length begun.told.items ≡ length names.now.signals }
    requires wide { IfSome waveforms (λ s. IsWide (length names.now.signals) s.now) }
    ensures read { Reads vector_as (spec.assignments_from (left tokens.old) names.now (option_map (λ s. s.now) waveforms.entry) (vector_as begun) tokens.old) result tokens.new }
    ensures acts { IfOk result (λ v. length v.acts ≡ length names.now.signals) }
{
    let mut vector = begun;
    'turns: for _turn in 0..tokens.left() {
        if tokens.eat(TokenKind::CloseBrace) {
            return Ok(vector);
        }
        vector = assignment(alloc, names, waveforms, vector, tokens)?;
    }
    Err(tokens.no_token())
}

// The assignments of a vector behind one with these acts, by the table with this number.
fn assigned(
    alloc: Global,
    names: &Names,
    tables: &WaveformTables,
    table: Option<usize>,
    acts: Acts,
    tokens: &mut Tokens<'_>,
) -> Result<VectorStatement, ReadError>
    requires acts { length acts ≡ length names.now.signals }
    requires wide { AreWide (length names.now.signals) tables.now }
    ensures read { Reads vector_as (spec.assignments_from (left tokens.old) names.now (spec.waveforms_at tables.now table) (spec.vector_after acts) tokens.old) result tokens.new }
    ensures acts { IfOk result (λ v. length v.acts ≡ length names.now.signals) }
{
    let begun = vector_after(alloc, acts)?;
    let waveforms = waveforms_at(tables, table);
    assignments(alloc, names, waveforms, begun, tokens)
}

// Takes the acts of the last vector out of a pattern.
fn taken_acts(alloc: Global, pattern: &mut PatternBlock) -> Acts
    ensures acts { result ≡ pattern.old.acts }
    ensures left { pattern_as pattern.new ≡ record (pattern_as pattern.old) { acts = [] } }
{
    replace(&mut pattern.acts, Acts::new(alloc))
}

// Adds a vector with these acts, which are copied into it.
fn add_acts(alloc: Global, pattern: &mut PatternBlock, acts: Acts) -> Result<(), AllocError>
    ensures added { OnOk result (pattern_as pattern.new ≡ spec.with_acts acts (pattern_as pattern.old)) }
    ensures acts { OnOk result (pattern.new.acts ≡ acts) }
{
    pattern.vectors.push(Acts::copied(alloc, acts.as_slice())?)?;
    pattern.acts = acts;
    Ok(())
}

#[tactic(auto, unfolding(dft_stil_text::specs::Statements::vector))]
// `V` and its assignments. There may be so many vectors at most.
fn vector(
    alloc: Global,
    names: &Names,
    tables: &WaveformTables,
    most: usize,
    pattern: &mut PatternBlock,
    tokens: &mut Tokens<'_>,
) -> Result<(), ReadError>
    requires acts { length pattern.old.acts ≡ length names.now.signals }
    requires wide { AreWide (length names.now.signals) tables.now }
    ensures read { Reads (λ _. pattern_as pattern.new) (spec.vector most names.now tables.now (pattern_as pattern.old) tokens.old) result tokens.new }
    ensures acts { OnOk result (length pattern.new.acts ≡ length names.now.signals) }
{
    let place = tokens.left();
    tokens.keyword(b"V")?;
    if pattern.vectors.len() >= most {
        return Err(fault_at(Cause::Count, place));
    }
    tokens.expect(TokenKind::OpenBrace)?;
    let acts = taken_acts(alloc, pattern);
    let vector = assigned(alloc, names, tables, pattern.table, acts, tokens)?;
    add_acts(alloc, pattern, vector.acts)?;
    Ok(())
}

#[tactic(auto, unfolding(dft_stil_text::specs::Statements::table_used))]
// The name of a table, and a semicolon.
fn table_used(
    alloc: Global,
    tables: &WaveformTables,
    pattern: &mut PatternBlock,
    tokens: &mut Tokens<'_>,
) -> Result<(), ReadError>
    ensures read { Reads (λ _. pattern_as pattern.new) (spec.table_used tables.now (pattern_as pattern.old) tokens.old) result tokens.new }
    ensures acts { OnOk result (length pattern.new.acts ≡ length pattern.old.acts) }
{
    let place = tokens.left();
    let word = tokens.name()?;
    let Some(number) = tables.number(word) else {
        return Err(unknown(alloc, word, place));
    };
    tokens.expect(TokenKind::Semicolon)?;
    pattern.table = Some(number);
    Ok(())
}

#[tactic(auto, unfolding(dft_stil_text::specs::Statements::labelled))]
// A label, and a vector.
fn labelled(
    alloc: Global,
    names: &Names,
    tables: &WaveformTables,
    most: usize,
    pattern: &mut PatternBlock,
    tokens: &mut Tokens<'_>,
) -> Result<(), ReadError>
    requires acts { length pattern.old.acts ≡ length names.now.signals }
    requires wide { AreWide (length names.now.signals) tables.now }
    ensures read { Reads (λ _. pattern_as pattern.new) (spec.labelled most names.now tables.now (pattern_as pattern.old) tokens.old) result tokens.new }
    ensures acts { OnOk result (length pattern.new.acts ≡ length names.now.signals) }
{
    tokens.name()?;
    tokens.expect(TokenKind::Colon)?;
    vector(alloc, names, tables, most, pattern, tokens)
}

#[tactic(auto, unfolding(dft_stil_text::specs::Statements::statement))]
// A statement: `W` without quotes, `V` without quotes, or a label.
fn statement(
    alloc: Global,
    names: &Names,
    tables: &WaveformTables,
    most: usize,
    pattern: &mut PatternBlock,
    tokens: &mut Tokens<'_>,
) -> Result<(), ReadError>
    requires acts { length pattern.old.acts ≡ length names.now.signals }
    requires wide { AreWide (length names.now.signals) tables.now }
    ensures read { Reads (λ _. pattern_as pattern.new) (spec.statement most names.now tables.now (pattern_as pattern.old) tokens.old) result tokens.new }
    ensures acts { OnOk result (length pattern.new.acts ≡ length names.now.signals) }
{
    if tokens.sees_word(b"W") {
        tokens.take();
        table_used(alloc, tables, pattern, tokens)
    } else if tokens.sees_word(b"V") {
        vector(alloc, names, tables, most, pattern, tokens)
    } else if tokens.sees_left_out() {
        Err(tokens.unsupported())
    } else {
        labelled(alloc, names, tables, most, pattern, tokens)
    }
}

/// The statements of a pattern, and its brace.
pub fn statements(
    alloc: Global,
    names: &Names,
    tables: &WaveformTables,
    most: usize,
    pattern: &mut PatternBlock,
    tokens: &mut Tokens<'_>,
) -> Result<(), ReadError>
    requires acts { length pattern.old.acts ≡ length names.now.signals }
    requires wide { AreWide (length names.now.signals) tables.now }
    ensures { Reads (λ _. pattern_as pattern.new) (spec.statements_from (left tokens.old) most names.now tables.now (pattern_as pattern.old) tokens.old) result tokens.new }
{
    'turns: for _turn in 0..tokens.left() {
        if tokens.eat(TokenKind::CloseBrace) {
            return Ok(());
        }
        statement(alloc, names, tables, most, pattern, tokens)?;
    }
    Err(tokens.no_token())
}
