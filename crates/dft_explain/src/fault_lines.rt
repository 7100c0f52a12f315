//! What a person is told of words that are no command.

ghost use Rattle.std.specs.Prelude.{◌≡◌, ◌≤◌, ◌+◌, ◌*◌, ◌++◌, true, IfOk, OnOk, flat_map, length, map, option_map, string_bytes};
ghost use Rattle.dft_explain.specs.Explained.{page_of, told_line};
ghost use Rattle.dft_explain.specs.FaultLines as spec;
ghost use Rattle.dft_explain.specs.Faults.{first_fault};
ghost use Rattle.dft_explain.specs.Told.{bytes_of, ends_of, is_told};
ghost use Rattle.dft_explain.specs.CodeFaults.{fault_seen, form_seen};

use crate::fault::{Fault, Pair};
use crate::faults::fault_of_options;
use crate::forms::{Form, is_among};
use crate::page::Page;
use std::alloc::{AllocError, Global};

#[tactic(auto, using(crate::proofs::FaultBounds::lines_told, crate::proofs::FaultBounds::few_bytes))]
/// What is wrong with words that are no command, and the form of the command that they name: the lines that
/// `specs/FaultLines.antt` states, of printed bytes. There are two, and where there is no fault (`specs/Faults.antt`) the form
/// alone.
pub fn fault_of_words(alloc: Global, words: &[String]) -> Result<Page, AllocError>
    ensures says { IfOk result (λ page. page ≡ page_of (spec.fault_lines (map string_bytes words.now))) }
    ensures lines { IfOk result (λ page. ends_of page ≡ spec.count_of (first_fault (map string_bytes words.now))) }
    ensures few { IfOk result (λ page. length page ≤ 4096 + 4 * bytes_of (map string_bytes words.now)) }
    ensures told { IfOk result (λ page. is_told page ≡ true) }
{
    let mut page = Page::new(alloc);
    put_faults(alloc, &mut page, words)?;
    Ok(page)
}

fn put_faults(alloc: Global, page: &mut Page, words: &[String]) -> Result<(), AllocError>
    ensures { OnOk result (page.new ≡ page.old ++ page_of (spec.fault_lines (map string_bytes words.now))) }
{
    match words {
        [] => put_without_form(page, Fault::NoCommand),
        [name, options @ ..] => match Form::named(name.as_str()) {
            Some(form) => put_with_form(alloc, page, &form, options),
            None => put_without_form(page, Fault::NoSuchCommand(name.as_bytes())),
        },
    }
}

fn put_without_form(page: &mut Page, fault: Fault<'_>) -> Result<(), AllocError>
    ensures { OnOk result (page.new ≡ page.old ++ page_of (spec.lines_without_form (fault_seen fault.entry))) }
{
    put_fault(page, "", fault)?;
    put_any_form(page)
}

fn put_with_form(
    alloc: Global,
    page: &mut Page,
    form: &Form,
    words: &[String],
) -> Result<(), AllocError>
    ensures { OnOk result (page.new ≡ page.old ++ page_of (spec.lines_of_form (form_seen form.now) (map string_bytes words.now))) }
{
    let fault = fault_of_options(alloc, form, words)?;
    put_found(page, form.name, fault)?;
    put_form(alloc, page, form)
}

fn put_found(page: &mut Page, command: &str, fault: Option<Fault<'_>>) -> Result<(), AllocError>
    ensures { OnOk result (page.new ≡ page.old ++ page_of (spec.lines_of command.now (option_map fault_seen fault.entry))) }
{
    match fault {
        Some(fault) => put_fault(page, command, fault),
        None => Ok(()),
    }
}

// ---- the fault

// Adds the sentence of a fault in the words of a command of this name.
fn put_fault(page: &mut Page, command: &str, fault: Fault<'_>) -> Result<(), AllocError>
    ensures { OnOk result (page.new ≡ page.old ++ told_line (spec.fault_line command.now (fault_seen fault.entry))) }
{
    match fault {
        Fault::NoCommand => put_word(page, "dft: no command", b"".as_slice()),
        Fault::NoSuchCommand(word) => put_word(page, "dft: no such command: ", word),
        Fault::Unexpected(word) => put_word(page, "dft: unexpected word: ", word),
        Fault::NoOption(option) => put_of_command(page, command, " has no option --", option),
        Fault::Twice(option) => put_option(page, option, " stands twice"),
        Fault::NoValue(option) => put_option(page, option, " has no value"),
        Fault::EmptyValue(option) => put_option(page, option, " has an empty value"),
        Fault::Missing(option) => { put_of_command(page, command, " needs --", option.as_bytes()) }
        Fault::NotOne(pair) => put_pair(page, command, pair),
        Fault::NoNumber(option, range, value) => put_number(page, option, range, value),
        Fault::OneFile(first, second, file) => put_files(page, first, second, file),
    }
}

#[tactic(auto, unfolding(crate::specs::FaultLines::line_of))]
fn put_word(page: &mut Page, what: &str, text: &[u8]) -> Result<(), AllocError>
    ensures { OnOk result (page.new ≡ page.old ++ told_line (spec.line_of what.now text.now)) }
{
    page.put_text(what)?;
    page.put(text)?;
    page.end()
}

#[tactic(auto, unfolding(crate::specs::FaultLines::option_line))]
// Adds an option and what is said of it.
fn put_option(page: &mut Page, option: &[u8], text: &str) -> Result<(), AllocError>
    ensures { OnOk result (page.new ≡ page.old ++ told_line (spec.option_line option.now text.now)) }
{
    page.put_text("dft: --")?;
    page.put(option)?;
    page.put_text(text)?;
    page.end()
}

#[tactic(auto, unfolding(crate::specs::FaultLines::command_line))]
// Adds a command, what is said of it, and an option.
fn put_of_command(
    page: &mut Page,
    command: &str,
    text: &str,
    option: &[u8],
) -> Result<(), AllocError>
    ensures { OnOk result (page.new ≡ page.old ++ told_line (spec.command_line command.now text.now option.now)) }
{
    page.put_text("dft: ")?;
    page.put_text(command)?;
    page.put_text(text)?;
    page.put(option)?;
    page.end()
}

#[tactic(auto, unfolding(crate::specs::FaultLines::pair_line))]
// Adds a command and the two options of which it needs just one.
fn put_pair(page: &mut Page, command: &str, pair: Pair) -> Result<(), AllocError>
    ensures { OnOk result (page.new ≡ page.old ++ told_line (spec.pair_line command.now pair.first.now pair.second.now)) }
{
    page.put_text("dft: ")?;
    page.put_text(command)?;
    page.put_text(" needs one of --")?;
    put_both(page, pair)
}

#[tactic(auto, unfolding(crate::specs::FaultLines::pair_pieces))]
fn put_both(page: &mut Page, pair: Pair) -> Result<(), AllocError>
    ensures { OnOk result (page.new ≡ page.old ++ told_line (spec.pair_pieces pair.first.now pair.second.now)) }
{
    page.put_text(pair.first)?;
    page.put_text(" and --")?;
    page.put_text(pair.second)?;
    page.put_text(", and not both")?;
    page.end()
}

#[tactic(auto, unfolding(crate::specs::FaultLines::number_line))]
fn put_number(page: &mut Page, option: &str, range: &str, value: &[u8]) -> Result<(), AllocError>
    ensures { OnOk result (page.new ≡ page.old ++ told_line (spec.number_line option.now range.now value.now)) }
{
    page.put_text("dft: --")?;
    page.put_text(option)?;
    page.put_text(" wants a number from ")?;
    page.put_text(range)?;
    page.put_text(": ")?;
    page.put(value)?;
    page.end()
}

#[tactic(auto, unfolding(crate::specs::FaultLines::files_line))]
fn put_files(page: &mut Page, first: &[u8], second: &str, file: &[u8]) -> Result<(), AllocError>
    ensures { OnOk result (page.new ≡ page.old ++ told_line (spec.files_line first.now second.now file.now)) }
{
    page.put_text("dft: --")?;
    page.put(first)?;
    page.put_text(" and --")?;
    put_second(page, second, file)
}

#[tactic(auto, unfolding(crate::specs::FaultLines::second_pieces))]
fn put_second(page: &mut Page, second: &str, file: &[u8]) -> Result<(), AllocError>
    ensures { OnOk result (page.new ≡ page.old ++ told_line (spec.second_pieces second.now file.now)) }
{
    page.put_text(second)?;
    page.put_text(" save one file: ")?;
    page.put(file)?;
    page.end()
}

// ---- how commands are written

#[tactic(auto, unfolding(crate::specs::FaultLines::any_form_line))]
fn put_any_form(page: &mut Page) -> Result<(), AllocError>
    ensures { OnOk result (page.new ≡ page.old ++ told_line spec.any_form_line) }
{
    page.put_text("dft: usage: dft COMMAND ..; dft --help says more")?;
    page.end()
}

#[tactic(auto, unfolding(crate::specs::FaultLines::form_line))]
// Adds the line that says how a command is written.
fn put_form(alloc: Global, page: &mut Page, form: &Form) -> Result<(), AllocError>
    ensures { OnOk result (page.new ≡ page.old ++ told_line (spec.form_line (form_seen form.now))) }
{
    let mut options = Vec::new(alloc);
    push_needed(&mut options, form.needed)?;
    push_optional(&mut options, form.optional)?;
    page.put_text("dft: usage: dft ")?;
    page.put_text(form.name)?;
    page.put_line(&options)
}

// Adds the pieces of options that are needed.
fn push_needed(
    pieces: &mut Vec<&'static [u8]>,
    options: &'static [&'static str],
) -> Result<(), AllocError>
    ensures { OnOk result (map (λ piece. piece.now) pieces.new.items ≡ map (λ piece. piece.now) pieces.old.items
        ++ flat_map spec.needed_pieces (map (λ option. option.now) options.entry.now)) }
{
    for option in options {
        push_one(pieces, " --", option)?;
    }
    Ok(())
}

// Adds the pieces of options that may be left out.
fn push_optional(
    pieces: &mut Vec<&'static [u8]>,
    options: &'static [&'static str],
) -> Result<(), AllocError>
    ensures { OnOk result (map (λ piece. piece.now) pieces.new.items ≡ map (λ piece. piece.now) pieces.old.items
        ++ flat_map spec.optional_pieces (map (λ option. option.now) options.entry.now)) }
{
    for option in options {
        push_one(pieces, " [--", option)?;
        pieces.push(b"]".as_slice())?;
    }
    Ok(())
}

#[tactic(auto, unfolding(crate::specs::FaultLines::option_pieces))]
// Adds the pieces of an option.
fn push_one(
    pieces: &mut Vec<&'static [u8]>,
    mark: &'static str,
    option: &'static str,
) -> Result<(), AllocError>
    ensures { OnOk result (map (λ piece. piece.now) pieces.new.items ≡ map (λ piece. piece.now) pieces.old.items ++ spec.option_pieces mark.now option.now) }
{
    pieces.push(mark.as_bytes())?;
    pieces.push(option.as_bytes())?;
    pieces.push(kind_of(option).as_bytes())?;
    Ok(())
}

// The options whose values are numbers.
static COUNTED: [&str; 8] = [
    "seed", "size", "channels", "chains", "length", "outputs", "masks", "limit",
];

// What an option's value is.
fn kind_of(option: &str) -> &'static str
    ensures { result.now ≡ spec.kind_of option.now }
{
    if is_among(option.as_bytes(), &COUNTED) {
        " NUMBER"
    } else if option == "clock" {
        " NAME"
    } else {
        " FILE"
    }
}
