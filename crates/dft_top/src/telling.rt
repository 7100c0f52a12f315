//! What a person is told of a run.

ghost use Rattle.std.specs.Prelude.{◌≡◌, [], IfOk, is_some, map, option_map, string_bytes, true};
ghost use Rattle.dft_explain.specs.Rows.{row_of};
ghost use Rattle.dft_top.specs.Pages.{IsBit, IsEnding, IsEndingOfBit, IsEndingOfRefusal, IsExplained, IsInWords, IsNotWritten, IsPageOf, IsRow, IsWhole, MaySayNothing, beside, line_in};

use dft_answers::{Answer, Refusal, Status, Unpassed, code_text};
use dft_explain::{Ending, Page, Said, explanation, fault_of_words, file_of, line_at, said_of};
use dft_files::{Files, HostFiles};
use std::alloc::{AllocError, Global};
use std::{fs, io};

// No file that is read is longer.
const LIMIT: u32 = 268_435_456;

/// What the outside says of a run beside its answer: the name in the last load or save that failed, the host's reason for that, where
/// there is one, and the host's reason where the line could not be put.
#[derive(Clone, Copy)]
pub(crate) struct Faults<'a> {
    pub failed: &'a str,
    pub reason: Option<io::Error>,
    pub unput: Option<io::Error>,
}

#[tactic(auto, using(crate::proofs::PageLemmas::faults_are_told))]
// What a person is told of a run of these words. The line of a refusal is loaded anew.
pub(crate) fn page_of_run<R: AllocGlobal + std::rt::Files>(
    rt: &R,
    words: &[String],
    answer: &Answer,
    faults: Faults<'_>,
) -> Result<Page, AllocError>
    ensures told { IsWhole answer.now →
        IfOk result (λ page. IsPageOf (map string_bytes words.now) answer.now faults.entry.failed.now (is_some faults.entry.unput) page) }
    ensures silent { IsWhole answer.now → IfOk result (λ page. page ≡ [] → answer.now.status ≡ Status.Done) }
{
    match answer.status {
        Status::Usage => fault_of_words(rt.alloc(), words),
        _ => page_of_ending(rt, words, answer, faults),
    }
}

// What a person is told of how the run of a command ended.
fn page_of_ending<R: AllocGlobal + std::rt::Files>(
    rt: &R,
    words: &[String],
    answer: &Answer,
    faults: Faults<'_>,
) -> Result<Page, AllocError>
    ensures told { IsWhole answer.now →
        IfOk result (λ page. IsExplained (map string_bytes words.now) answer.now faults.entry.failed.now (is_some faults.entry.unput) page) }
    ensures silent { IsWhole answer.now → IfOk result (λ page. page ≡ [] → MaySayNothing answer.now.status) }
{
    let text = text_of_answer(rt, words, answer);
    let reason = reason_of(rt.alloc(), answer.status, faults)?;
    let is_put = faults.unput.is_some();
    let ending = ending_of(answer, faults.failed, is_put, reason.as_str(), &text);
    explanation(rt.alloc(), words, ending)
}

// How a run ended that answers so.
fn ending_of<'a>(
    answer: &'a Answer,
    failed: &'a str,
    is_put: bool,
    reason: &'a str,
    text: &'a Option<Vec<u8>>,
) -> Ending<'a>
    ensures { IsWhole answer.entry.now → IsEnding answer.entry.now
        (beside failed.entry.now is_put reason.entry.now (option_map (λ text. text.items) text.entry.now)) result }
{
    match answer.status {
        Status::Done | Status::Usage => Ending::Done,
        Status::NotPassed => ending_of_replay(&answer.unpassed),
        Status::Refused => ending_of_refusal(&answer.refusal, text),
        Status::ReadFault => Ending::NotLoaded {
            file: failed.as_bytes(),
            reason: reason.as_bytes(),
        },
        Status::WriteFault => ending_of_write(failed, is_put, reason),
        Status::OutOfMemory => Ending::OutOfMemory,
    }
}

// ---- patterns that do not pass

fn ending_of_replay<'a>(unpassed: &'a Option<Unpassed>) -> Ending<'a>
    ensures { is_some unpassed.entry.now ≡ true → IsEndingOfBit unpassed.entry.now result }
{
    match unpassed {
        Some(unpassed) => ending_at(unpassed),
        None => Ending::Done,
    }
}

fn ending_at<'a>(unpassed: &'a Unpassed) -> Ending<'a>
    ensures { IsBit unpassed.entry.now result }
{
    let vector = unpassed.vector;
    let signal = unpassed.signal.as_slice();
    if unpassed.is_opposite {
        Ending::Mismatch { vector, signal }
    } else {
        Ending::Undetermined { vector, signal }
    }
}

// ---- a refusal

fn ending_of_refusal<'a>(refusal: &'a Option<Refusal>, text: &'a Option<Vec<u8>>) -> Ending<'a>
    ensures { is_some refusal.entry.now ≡ true →
        IsEndingOfRefusal refusal.entry.now (option_map (λ text. text.items) text.entry.now) result }
{
    match refusal {
        Some(refusal) => Ending::Refused(in_words(refusal, text)),
        None => Ending::Done,
    }
}

// A refusal in words, with the line of its place in this text.
fn in_words<'a>(refusal: &'a Refusal, text: &'a Option<Vec<u8>>) -> dft_explain::Refusal<'a>
    ensures { IsInWords refusal.entry.now (option_map (λ text. text.items) text.entry.now) result }
{
    let code = code_text(refusal.code);
    let name = name_of(refusal);
    let row = row_or_nothing(code, name);
    dft_explain::Refusal {
        code: code.as_bytes(),
        sentence: row.sentence.as_bytes(),
        advice: row.advice.as_bytes(),
        place: refusal.place,
        name,
        first: refusal.first,
        second: refusal.second,
        line: line_of(refusal, text),
    }
}

// What a code says, or nothing where it is not known.
fn row_or_nothing(code: &'static str, name: Option<&[u8]>) -> Said
    ensures { IsRow (row_of code.now (option_map (λ name. name.now) name.entry)) result }
{
    match said_of(code, name) {
        Some(said) => *said,
        None => Said {
            code,
            sentence: "",
            advice: "",
        },
    }
}

// The line of a refusal's place.
fn line_of<'a>(refusal: &Refusal, text: &'a Option<Vec<u8>>) -> Option<&'a [u8]>
    ensures { option_map (λ line. line.now) result ≡ line_in (option_map (λ text. text.items) text.entry.now) refusal.now.place }
{
    match (text, refusal.place) {
        (Some(text), Some(place)) => line_at(text, place.line),
        _ => None,
    }
}

fn name_of(refusal: &Refusal) -> Option<&[u8]>
    ensures { option_map (λ name. name.now) result ≡ refusal.entry.now.name }
{
    match &refusal.name {
        Some(name) => Some(name.as_slice()),
        None => None,
    }
}

// The text that a refusal speaks of, where it can be loaded anew.
fn text_of_answer<R: AllocGlobal + std::rt::Files>(
    rt: &R,
    words: &[String],
    answer: &Answer,
) -> Option<Vec<u8>> {
    match &answer.refusal {
        Some(refusal) => text_of(rt, words, refusal),
        None => None,
    }
}

// The text that a refusal with a place speaks of, where it can be loaded anew: of a file that is no pipe, which gives its bytes
// once, and would wait for others.
fn text_of<R: AllocGlobal + std::rt::Files>(
    rt: &R,
    words: &[String],
    refusal: &Refusal,
) -> Option<Vec<u8>> {
    if refusal.place.is_none() {
        return None;
    }
    let file = file_of(code_text(refusal.code).as_bytes(), name_of(refusal), words)?;
    let name = str::from_utf8(file).ok()?;
    if !fs::metadata(rt, name).ok()?.is_file() {
        return None;
    }
    let mut files = HostFiles::new(rt, rt.alloc());
    files.load(rt.alloc(), name, LIMIT).ok()
}

// ---- calls of the outside that failed

fn ending_of_write<'a>(failed: &'a str, is_put: bool, reason: &'a str) -> Ending<'a>
    ensures { IsNotWritten failed.entry.now is_put reason.entry.now result }
{
    if is_put {
        Ending::NotPrinted {
            reason: reason.as_bytes(),
        }
    } else {
        Ending::NotSaved {
            file: failed.as_bytes(),
            reason: reason.as_bytes(),
        }
    }
}

// The host's reason for the call that failed, where one did.
fn reason_of(alloc: Global, status: Status, faults: Faults<'_>) -> Result<String, AllocError> {
    match status {
        Status::ReadFault => reason_text(alloc, faults.reason),
        Status::WriteFault => match faults.unput {
            Some(error) => format!(in alloc; "{error}"),
            None => reason_text(alloc, faults.reason),
        },
        _ => Ok(String::new(alloc)),
    }
}

// What the host says of a load or a save; where it says nothing, a file had no end.
fn reason_text(alloc: Global, reason: Option<io::Error>) -> Result<String, AllocError> {
    match reason {
        Some(error) => format!(in alloc; "{error}"),
        None => String::from_str(alloc, "its length grew without end"),
    }
}

// ---- what is no run

// What a person is told where standard output cannot be written.
pub(crate) fn page_of_output(
    alloc: Global,
    words: &[String],
    error: io::Error,
) -> Result<Page, AllocError> {
    let reason = format!(in alloc; "{error}")?;
    let ending = Ending::NotPrinted {
        reason: reason.as_bytes(),
    };
    explanation(alloc, words, ending)
}

// What a person is told where the words cannot be had.
pub(crate) fn page_without_words(alloc: Global, error: io::Error) -> Result<Page, AllocError> {
    let reason = format!(in alloc; "{error}")?;
    let ending = Ending::NoWords {
        reason: reason.as_bytes(),
    };
    explanation(alloc, &[], ending)
}
