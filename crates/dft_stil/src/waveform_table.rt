//! The tables of waveforms of a pattern text (IEEE 1450-1999 `Timing`).

ghost use Rattle.std.specs.Prelude.{◌≡◌, length, IfOk, OnOk};
ghost use Rattle.dft_base.specs.Name.{IsName};
ghost use Rattle.dft_patterns.specs.Drawings as drawn;
ghost use Rattle.dft_stil_text.specs.WaveformTables as spec;
ghost use Rattle.dft_stil_tokens.specs.Steps.{left, bytes};
ghost use Rattle.dft_stil.specs.MembersShown.{AreBelow};
ghost use Rattle.dft_stil.specs.WaveformsShown.{IsWide};
ghost use Rattle.dft_stil.specs.WaveformTablesShown.{table_as};
ghost use Rattle.dft_patterns.specs.declared.shapes.Drawing.TheVariants as drawings;
ghost use Rattle.dft_stil_tokens.specs.Reading.{Reads};

use crate::names::Names;
use crate::waveforms::Waveforms;
use dft_patterns::{Drawing, Event, Times, act_drawn, act_of_events, begins_shape, extended};
use dft_stil_tokens::{
    Cause, ReadError, TokenKind, Tokens, fault_at, taken, unknown, unsupported_at,
};
use std::alloc::Global;

/// A table so far: its waveforms and its times.
#[derive(Debug, Drop)]
pub struct WaveformTable {
    pub waveforms: Waveforms,
    pub times: Times,
}

#[tactic(auto, unfolding(dft_stil_text::specs::WaveformTables::time))]
// A time between single quotes, in picoseconds.
fn time(tokens: &mut Tokens<'_>) -> Result<u64, ReadError>
    ensures { Reads (λ n. n) (spec.time tokens.old) result tokens.new }
{
    tokens.expect(TokenKind::Quote)?;
    let value = tokens.small_number()?;
    let worth = tokens.unit()?;
    tokens.expect(TokenKind::Quote)?;
    Ok(value * worth)
}

// Whether these events begin a waveform of each of these signals.
fn begin_all(names: &Names, signals: &[usize], drawing: Drawing) -> bool
    ensures { result ≡ spec.begin_all names.now signals.now drawing }
{
    signals
        .iter()
        .all(|signal| begins_shape(names.dir_of(*signal), drawing))
}

#[tactic(auto, unfolding(dft_stil_text::specs::WaveformTables::event_letter))]
// The letter of an event at a time. What follows it in its token is refused behind that.
fn event_letter(
    alloc: Global,
    names: &Names,
    signals: &[usize],
    drawing: Drawing,
    time: u64,
    tokens: &mut Tokens<'_>,
) -> Result<Drawing, ReadError>
    ensures { Reads (λ d. d) (spec.event_letter names.now signals.now drawing time tokens.old) result tokens.new }
{
    let place = tokens.left();
    let letter = tokens.letter()?;
    let more = extended(drawing, Event { letter, time });
    if !begin_all(names, signals, more) {
        return Err(unsupported_at(alloc, &[letter], place));
    }
    tokens.single()?;
    Ok(more)
}

#[tactic(auto, unfolding(dft_stil_text::specs::WaveformTables::event))]
// An event more.
fn event(
    alloc: Global,
    names: &Names,
    signals: &[usize],
    drawing: Drawing,
    tokens: &mut Tokens<'_>,
) -> Result<Drawing, ReadError>
    ensures { Reads (λ d. d) (spec.event names.now signals.now drawing tokens.old) result tokens.new }
{
    let at = time(tokens)?;
    let more = event_letter(alloc, names, signals, drawing, at, tokens)?;
    tokens.expect(TokenKind::Semicolon)?;
    Ok(more)
}

// The brace that ends a waveform, which may not come too early.
fn waveform_end(drawing: Drawing, tokens: &mut Tokens<'_>) -> Result<Drawing, ReadError>
    requires { IsName (bytes tokens.old) }
    ensures { Reads (λ d. d) (spec.waveform_end drawing (drawn.act_of_events drawing) tokens.old) result tokens.new }
{
    match act_of_events(drawing) {
        Some(_) => {
            tokens.take();
            Ok(drawing)
        }
        None => Err(tokens.unsupported()),
    }
}

// The events of a waveform, and its brace.
fn events(
    alloc: Global,
    names: &Names,
    signals: &[usize],
    tokens: &mut Tokens<'_>,
) -> Result<Drawing, ReadError>
    ensures { Reads (λ d. d) (spec.events_from (left tokens.old) names.now signals.now drawings.Begun tokens.old) result tokens.new }
{
    let mut drawing = Drawing::Begun;
    'turns: for _turn in 0..tokens.left() {
        if tokens.sees(TokenKind::CloseBrace) {
            return waveform_end(drawing, tokens);
        }
        drawing = event(alloc, names, signals, drawing, tokens)?;
    }
    Err(tokens.no_token())
}

#[tactic(auto, unfolding(dft_stil_text::specs::WaveformTables::waveform))]
// A waveform of these signals: a character, which none of them may have so far, and its events. What follows the character in
// its token is refused behind that.
fn waveform(
    alloc: Global,
    names: &Names,
    signals: &[usize],
    table: &mut WaveformTable,
    tokens: &mut Tokens<'_>,
) -> Result<(), ReadError>
    requires wide { IsWide (length names.now.signals) table.old.waveforms }
    requires inside { AreBelow (length names.now.signals) signals.now }
    ensures read { Reads (λ _. table_as table.new) (spec.waveform names.now signals.now (table_as table.old) tokens.old) result tokens.new }
    ensures wide { OnOk result (IsWide (length names.now.signals) table.new.waveforms) }
{
    let place = tokens.left();
    let character = tokens.character()?;
    if table.waveforms.is_given(names.count(), signals, character) {
        return Err(taken(alloc, &[character], place));
    }
    tokens.single()?;
    tokens.expect(TokenKind::OpenBrace)?;
    let drawing = events(alloc, names, signals, tokens)?;
    table
        .waveforms
        .set_all(names.count(), signals, character, act_drawn(drawing));
    table.times = table.times.with_times(drawing);
    Ok(())
}

// The waveforms of some signals, and their brace.
fn waveforms(
    alloc: Global,
    names: &Names,
    signals: &[usize],
    table: &mut WaveformTable,
    tokens: &mut Tokens<'_>,
) -> Result<(), ReadError>
    requires wide { IsWide (length names.now.signals) table.old.waveforms }
    requires inside { AreBelow (length names.now.signals) signals.now }
    ensures read { Reads (λ _. table_as table.new) (spec.waveforms_from (left tokens.old) names.now signals.now (table_as table.old) tokens.old) result tokens.new }
    ensures wide { OnOk result (IsWide (length names.now.signals) table.new.waveforms) }
{
    'turns: for _turn in 0..tokens.left() {
        if tokens.eat(TokenKind::CloseBrace) {
            return Ok(());
        }
        waveform(alloc, names, signals, table, tokens)?;
    }
    Err(tokens.no_token())
}

#[tactic(auto, unfolding(dft_stil_text::specs::WaveformTables::signal_waveforms))]
// The name of signals, and their waveforms.
fn signal_waveforms(
    alloc: Global,
    names: &Names,
    table: &mut WaveformTable,
    tokens: &mut Tokens<'_>,
) -> Result<(), ReadError>
    requires { IsWide (length names.now.signals) table.old.waveforms }
    ensures read { Reads (λ _. table_as table.new) (spec.signal_waveforms names.now (table_as table.old) tokens.old) result tokens.new }
    ensures wide { OnOk result (IsWide (length names.now.signals) table.new.waveforms) }
{
    let place = tokens.left();
    let word = tokens.name()?;
    let Some(meant) = names.elsewhere(word) else {
        return Err(unknown(alloc, word, place));
    };
    tokens.expect(TokenKind::OpenBrace)?;
    waveforms(alloc, names, meant.signals, table, tokens)
}

// The waveforms of a table, and their brace.
fn all_waveforms(
    alloc: Global,
    names: &Names,
    table: &mut WaveformTable,
    tokens: &mut Tokens<'_>,
) -> Result<(), ReadError>
    requires { IsWide (length names.now.signals) table.old.waveforms }
    ensures read { Reads (λ _. table_as table.new) (spec.signal_waveforms_from (left tokens.old) names.now (table_as table.old) tokens.old) result tokens.new }
    ensures wide { OnOk result (IsWide (length names.now.signals) table.new.waveforms) }
{
    'turns: for _turn in 0..tokens.left() {
        if tokens.eat(TokenKind::CloseBrace) {
            return Ok(());
        }
        signal_waveforms(alloc, names, table, tokens)?;
    }
    Err(tokens.no_token())
}

// The last brace of a table with this period, whose times must fit.
fn table_end(
    table: WaveformTable,
    period: u64,
    tokens: &mut Tokens<'_>,
) -> Result<Waveforms, ReadError>
    ensures read { Reads (λ s. s) (spec.table_end period (table_as table) tokens.old) result tokens.new }
    ensures same { IfOk result (λ s. s ≡ table.waveforms) }
{
    let place = tokens.left();
    tokens.expect(TokenKind::CloseBrace)?;
    if table.times.fit(period) {
        Ok(table.waveforms)
    } else {
        Err(fault_at(Cause::Times, place))
    }
}

// The waveforms of a table with this period.
fn waveforms_block(
    alloc: Global,
    names: &Names,
    period: u64,
    tokens: &mut Tokens<'_>,
) -> Result<Waveforms, ReadError>
    ensures read { Reads (λ s. s) (spec.waveforms_block names.now period tokens.old) result tokens.new }
    ensures wide { IfOk result (λ s. IsWide (length names.now.signals) s) }
{
    tokens.keyword(b"Waveforms")?;
    tokens.expect(TokenKind::OpenBrace)?;
    let mut table = WaveformTable {
        waveforms: Waveforms::new(alloc, names.count())?,
        times: Times::none(),
    };
    all_waveforms(alloc, names, &mut table, tokens)?;
    table_end(table, period, tokens)
}

#[tactic(auto, unfolding(dft_stil_text::specs::WaveformTables::table_body))]
/// What stands in a table: a period, and waveforms.
pub fn table_body(
    alloc: Global,
    names: &Names,
    tokens: &mut Tokens<'_>,
) -> Result<Waveforms, ReadError>
    ensures read { Reads (λ s. s) (spec.table_body names.now tokens.old) result tokens.new }
    ensures wide { IfOk result (λ s. IsWide (length names.now.signals) s) }
{
    tokens.expect(TokenKind::OpenBrace)?;
    tokens.keyword(b"Period")?;
    let period = time(tokens)?;
    tokens.expect(TokenKind::Semicolon)?;
    waveforms_block(alloc, names, period, tokens)
}
