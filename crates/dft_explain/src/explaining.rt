//! What a person is told of how a run ended.

ghost use Rattle.std.specs.Prelude.{◌≡◌, ◌≤◌, ◌+◌, ◌*◌, ◌++◌, [], true, length, IfOk, OnOk, codes, map, option_map, string_bytes};
ghost use Rattle.std.specs.Fmt.{decimal};
ghost use Rattle.dft_explain.specs.Explained as spec;
ghost use Rattle.dft_explain.specs.Explained.{page_of, told_line};
ghost use Rattle.dft_explain.specs.Options as named;
ghost use Rattle.dft_explain.specs.Told.{bytes_of, ends_of, is_told};
ghost use Rattle.dft_explain.specs.declared.ending.Ending.TheVariants as how;

use crate::ending::{Ending, Refusal};
use crate::options::{LOADED, file_of, option_of, or_empty, push_files_before, saved, value_of};
use crate::page::Page;
use crate::pieces::{
    blanks, closing, cut, dots, file_dots, file_text, first_mark, mark, number_text, place_text,
    untabbed,
};
use crate::windows::{before_column, window};
use dft_base::Place;
use std::alloc::{AllocError, Global};

#[tactic(auto, using(crate::proofs::Silence::silent, crate::proofs::Ends::few_lines, crate::proofs::RunBounds::few_bytes))]
/// What a person is told of how the run of these words ended: the lines that `specs/Explained.antt` states, of printed bytes, none
/// exactly where it is done.
pub fn explanation(alloc: Global, words: &[String], ending: Ending<'_>) -> Result<Page, AllocError>
    ensures says { IfOk result (λ page. page ≡ page_of (spec.explained (map string_bytes words.now) ending.entry)) }
    ensures lines { IfOk result (λ page. ends_of page ≤ 4) }
    ensures few { IfOk result (λ page. length page ≤ 4096 + 4 * bytes_of (map string_bytes words.now)) }
    ensures told { IfOk result (λ page. is_told page ≡ true) }
    ensures silent { IfOk result (λ page. page ≡ [] → ending.entry ≡ how.Done) }
{
    let mut page = Page::new(alloc);
    put_ending(alloc, &mut page, words, ending)?;
    Ok(page)
}

fn put_ending(
    alloc: Global,
    page: &mut Page,
    words: &[String],
    ending: Ending<'_>,
) -> Result<(), AllocError>
    ensures { OnOk result (page.new ≡ page.old ++ page_of (spec.explained (map string_bytes words.now) ending.entry)) }
{
    match ending {
        Ending::Done => Ok(()),
        Ending::Mismatch { vector, signal } => {
            put_failed(alloc, page, words, vector, signal, MISMATCH)
        }
        Ending::Undetermined { vector, signal } => {
            put_failed(alloc, page, words, vector, signal, UNDETERMINED)
        }
        Ending::Refused(refusal) => put_refused(alloc, page, words, &refusal),
        Ending::NotLoaded { file, reason } => put_not_loaded(page, words, file, reason),
        Ending::NotSaved { file, reason } => put_not_saved(alloc, page, words, file, reason),
        Ending::NotPrinted { reason } => put_reason(page, NOT_PRINTED, reason),
        Ending::OutOfMemory => put_no_memory(page),
        Ending::NoWords { reason } => put_reason(page, NO_WORDS, reason),
    }
}

const MISMATCH: &str = ": in every run the opposite of what is printed";

const UNDETERMINED: &str =
    ": not determined; the start, the order of the clocks or an unknown value may decide";

const NOT_PRINTED: &str = "dft: cannot write standard output: ";

const NO_WORDS: &str = "dft: the words of the command line cannot be had: ";

// ---- patterns that do not pass

// Adds the line of a bit that does not pass.
fn put_failed(
    alloc: Global,
    page: &mut Page,
    words: &[String],
    vector: u32,
    signal: &[u8],
    said: &str,
) -> Result<(), AllocError>
    ensures { OnOk result (page.new ≡ page.old ++ page_of (spec.failed (map string_bytes words.now) vector signal.now said.now)) }
{
    let number = format!(in alloc; "{vector}")?;
    let file = value_of(b"patterns".as_slice(), words);
    put_failed_line(page, file, number.as_str(), signal, said)
}

#[tactic(auto, unfolding(crate::specs::Explained::failed_line))]
fn put_failed_line(
    page: &mut Page,
    file: Option<&[u8]>,
    vector: &str,
    signal: &[u8],
    said: &str,
) -> Result<(), AllocError>
    ensures { OnOk result (page.new ≡ page.old ++ told_line (spec.failed_line (option_map (λ file. file.now) file.entry) vector.now signal.now said.now)) }
{
    page.put_text("dft: ")?;
    page.put(or_empty(file))?;
    page.put(mark(": ", file))?;
    page.put_text("vector ")?;
    page.put_text(vector)?;
    put_signal(page, signal, said)
}

#[tactic(auto, unfolding(crate::specs::Explained::signal_pieces))]
fn put_signal(page: &mut Page, signal: &[u8], said: &str) -> Result<(), AllocError>
    ensures { OnOk result (page.new ≡ page.old ++ told_line (spec.signal_pieces signal.now said.now)) }
{
    page.put_text(", signal ")?;
    page.put(cut(signal))?;
    page.put(dots(signal))?;
    page.put_text(said)?;
    page.end()
}

// ---- a refusal

// Adds the lines of a refusal.
fn put_refused(
    alloc: Global,
    page: &mut Page,
    words: &[String],
    refusal: &Refusal<'_>,
) -> Result<(), AllocError>
    ensures { OnOk result (page.new ≡ page.old ++ page_of (spec.refused_lines (map string_bytes words.now) refusal.now)) }
{
    let file = file_of(refusal.code, refusal.name, words);
    put_refused_line(alloc, page, file, refusal)?;
    put_lines_at(alloc, page, refusal.place, refusal.line)?;
    put_advice(page, refusal.advice)
}

#[tactic(auto, unfolding(crate::specs::Explained::refused_line))]
fn put_refused_line(
    alloc: Global,
    page: &mut Page,
    file: Option<&[u8]>,
    refusal: &Refusal<'_>,
) -> Result<(), AllocError>
    ensures { OnOk result (page.new ≡ page.old ++ told_line (spec.refused_line (option_map (λ file. file.now) file.entry) refusal.now)) }
{
    let place = place_text(alloc, refusal.place)?;
    page.put_text("dft: ")?;
    page.put(or_empty(file))?;
    page.put(place.as_bytes())?;
    page.put(mark(": ", file))?;
    put_said(page, refusal)?;
    put_parts(alloc, page, refusal)
}

#[tactic(auto, unfolding(crate::specs::Explained::said_pieces))]
// Adds the code and the sentence: what follows behind them is told behind them.
fn put_said(page: &mut Page, refusal: &Refusal<'_>) -> Result<(), AllocError>
    ensures { (pieces : _) → OnOk result (page.new ++ told_line pieces ≡ page.old ++ told_line (spec.said_pieces refusal.now ++ pieces)) }
{
    page.put(cut(refusal.code))?;
    page.put_text(": ")?;
    page.put(cut(refusal.sentence))?;
    page.put(dots(refusal.sentence))
}

#[tactic(auto, unfolding(crate::specs::Explained::part_pieces))]
// Adds the parts, and the line's end.
fn put_parts(alloc: Global, page: &mut Page, refusal: &Refusal<'_>) -> Result<(), AllocError>
    ensures { OnOk result (page.new ≡ page.old ++ told_line (spec.part_pieces (spec.name_of refusal.now) refusal.now)) }
{
    let name = refusal.name;
    let first = number_text(alloc, first_mark(name), refusal.first)?;
    let second = number_text(alloc, " ", refusal.second)?;
    page.put(mark(": ", name))?;
    page.put(cut(or_empty(name)))?;
    page.put(dots(or_empty(name)))?;
    page.put(first.as_bytes())?;
    page.put(second.as_bytes())?;
    page.end()
}

#[tactic(auto, unfolding(crate::specs::Explained::advice_line))]
fn put_advice(page: &mut Page, advice: &[u8]) -> Result<(), AllocError>
    ensures { OnOk result (page.new ≡ page.old ++ told_line (spec.advice_line advice.now)) }
{
    page.put_text("dft: try: ")?;
    page.put(cut(advice))?;
    page.put(dots(advice))?;
    page.end()
}

// Adds the line of a place and its caret, where the line is there and has the column or ends before it.
fn put_lines_at(
    alloc: Global,
    page: &mut Page,
    place: Option<Place>,
    line: Option<&[u8]>,
) -> Result<(), AllocError>
    ensures { OnOk result (page.new ≡ page.old ++ page_of (spec.lines_at place (option_map (λ line. line.now) line.entry))) }
{
    match (place, line) {
        (Some(place), Some(line)) => put_line_at(alloc, page, place.column as usize, line),
        _ => Ok(()),
    }
}

fn put_line_at(alloc: Global, page: &mut Page, column: usize, line: &[u8]) -> Result<(), AllocError>
    ensures { OnOk result (page.new ≡ page.old ++ page_of (spec.line_at column line.now)) }
{
    if line.len() < column.saturating_sub(1) {
        return Ok(());
    }
    put_text_line(alloc, page, column, line)?;
    put_caret_line(alloc, page, column, line)
}

#[tactic(auto, unfolding(crate::specs::Explained::text_line))]
fn put_text_line(
    alloc: Global,
    page: &mut Page,
    column: usize,
    line: &[u8],
) -> Result<(), AllocError>
    ensures { OnOk result (page.new ≡ page.old ++ told_line (spec.text_line column line.now)) }
{
    let text = untabbed(alloc, window(column, line))?;
    page.put_text("  ")?;
    page.put(&text)?;
    page.end()
}

#[tactic(auto, unfolding(crate::specs::Explained::caret_line))]
fn put_caret_line(
    alloc: Global,
    page: &mut Page,
    column: usize,
    line: &[u8],
) -> Result<(), AllocError>
    ensures { OnOk result (page.new ≡ page.old ++ told_line (spec.caret_line column line.now)) }
{
    let text = blanks(alloc, before_column(column, line))?;
    page.put_text("  ")?;
    page.put(&text)?;
    page.put_text("^")?;
    page.end()
}

// ---- files that fail

fn put_not_loaded(
    page: &mut Page,
    words: &[String],
    file: &[u8],
    reason: &[u8],
) -> Result<(), AllocError>
    ensures { OnOk result (page.new ≡ page.old ++ page_of (spec.not_loaded (map string_bytes words.now) file.now reason.now)) }
{
    let option = option_of(file, words, &LOADED);
    put_fault(page, "dft: cannot load ", option, file, reason)
}

fn put_not_saved(
    alloc: Global,
    page: &mut Page,
    words: &[String],
    file: &[u8],
    reason: &[u8],
) -> Result<(), AllocError>
    ensures { OnOk result (page.new ≡ page.old ++ page_of (spec.not_saved (map string_bytes words.now) file.now reason.now)) }
{
    let option = option_of(file, words, saved(words));
    put_fault(page, "dft: cannot save ", option, file, reason)?;
    put_saved_before(alloc, page, option, file, words)
}

#[tactic(auto, unfolding(crate::specs::Explained::fault_line))]
// Adds the line of a file that cannot be loaded or saved.
fn put_fault(
    page: &mut Page,
    what: &str,
    option: Option<&[u8]>,
    file: &[u8],
    reason: &[u8],
) -> Result<(), AllocError>
    ensures { OnOk result (page.new ≡ page.old ++ told_line (spec.fault_line what.now (option_map (λ option. option.now) option.entry) file.now reason.now)) }
{
    page.put_text(what)?;
    page.put(file_text(option, file))?;
    page.put(file_dots(option, file))?;
    put_option(page, option, reason)
}

#[tactic(auto, unfolding(crate::specs::Explained::option_pieces))]
fn put_option(page: &mut Page, option: Option<&[u8]>, reason: &[u8]) -> Result<(), AllocError>
    ensures { OnOk result (page.new ≡ page.old ++ told_line (spec.option_pieces (option_map (λ option. option.now) option.entry) reason.now)) }
{
    page.put(mark(" (--", option))?;
    page.put(or_empty(option))?;
    page.put(closing(option))?;
    page.put(cut(reason))?;
    page.put(dots(reason))?;
    page.end()
}

// Adds the line of the saves before the one of this file, where there are some.
fn put_saved_before(
    alloc: Global,
    page: &mut Page,
    option: Option<&[u8]>,
    file: &[u8],
    words: &[String],
) -> Result<(), AllocError>
    ensures { OnOk result (page.new ≡ page.old ++ page_of (spec.saved_before (option_map (λ option. option.now) option.entry) file.now (map string_bytes words.now))) }
{
    if option.is_none() {
        return Ok(());
    }
    put_before(alloc, page, file, words)
}

fn put_before(
    alloc: Global,
    page: &mut Page,
    file: &[u8],
    words: &[String],
) -> Result<(), AllocError>
    ensures { OnOk result (page.new ≡ page.old ++ page_of (spec.before_line (named.files_before file.now (map string_bytes words.now) (named.saved (map string_bytes words.now))))) }
{
    let mut files = Vec::new(alloc);
    push_files_before(&mut files, file, words, saved(words))?;
    put_files(page, &files)
}

fn put_files(page: &mut Page, files: &[&[u8]]) -> Result<(), AllocError>
    ensures { OnOk result (page.new ≡ page.old ++ page_of (spec.before_line (map (λ file. file.now) files.now))) }
{
    match files {
        [] => Ok(()),
        [file, more @ ..] => put_saved_line(page, file, more),
    }
}

#[tactic(auto, unfolding(crate::specs::Explained::saved_line))]
fn put_saved_line(page: &mut Page, file: &[u8], files: &[&[u8]]) -> Result<(), AllocError>
    ensures { OnOk result (page.new ≡ page.old ++ told_line (spec.saved_line file.now (map (λ file. file.now) files.now))) }
{
    page.put_text("dft: saved before it:")?;
    page.put(file)?;
    page.put_line(files)
}

#[tactic(auto, unfolding(crate::specs::Explained::reason_line))]
fn put_reason(page: &mut Page, what: &str, reason: &[u8]) -> Result<(), AllocError>
    ensures { OnOk result (page.new ≡ page.old ++ told_line (spec.reason_line what.now reason.now)) }
{
    page.put_text(what)?;
    page.put(cut(reason))?;
    page.put(dots(reason))?;
    page.end()
}

#[tactic(auto, unfolding(crate::specs::Explained::memory_line))]
fn put_no_memory(page: &mut Page) -> Result<(), AllocError>
    ensures { OnOk result (page.new ≡ page.old ++ told_line spec.memory_line) }
{
    page.put_text("dft: memory ran out")?;
    page.end()
}
