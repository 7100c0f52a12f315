//! From an answer to an exit status.

ghost use Rattle.std.specs.Prelude.{◌≡◌, ◌≤◌, ◌⊎◌, IfOk, map, string_bytes};
ghost use Rattle.std.specs.Process.{exit_status};
ghost use Rattle.dft_top.specs.Ends.{EndsProgram, EndsWith, HasNoWords, IsStatusOfRun, IsStatusOfWords, IsToldOf, status_number};
ghost use Rattle.dft_top.specs.Run.{seen};

use crate::telling::{Faults, page_of_output, page_of_run, page_without_words};
use crate::{Status, run};
use dft_answers::Answer;
use dft_explain::{Page, asked, help};
use dft_files::{Files, HostFiles, OutSink, Sink};
use std::alloc::{AllocError, Global};
use std::io;
use std::process::ExitCode;
use std::rt::Env;

// The exit status of a command's status (0 where it is done).
fn number_of(status: Status) -> u8
    ensures number { result ≡ status_number status }
    ensures small { result ≤ 6 }
{
    match status {
        Status::Done => 0,
        Status::NotPassed => 1,
        Status::Usage => 2,
        Status::Refused => 3,
        Status::ReadFault => 4,
        Status::WriteFault => 5,
        Status::OutOfMemory => 6,
    }
}

/// Runs a command, and gives the number of the status that the run answers, with the answer: 0 Done, 1 NotPassed, 2 Usage,
/// 3 Refused, 4 ReadFault, 5 WriteFault, 6 OutOfMemory. What `run` promises holds of it.
pub fn status_of_run<F: Files, O: Sink>(
    alloc: Global,
    words: &[String],
    files: &mut F,
    out: &mut O,
) -> (u8, Answer)
    ensures status { IsStatusOfRun (map string_bytes words.entry.now)
        (seen (F.held files.old) (F.failed files.old) (F.read_faults files.old) (F.write_faults files.old) (F.short_saves files.old) (O.told out.old) (O.faults out.old) (O.short_puts out.old))
        (seen (F.held files.new) (F.failed files.new) (F.read_faults files.new) (F.write_faults files.new) (F.short_saves files.new) (O.told out.new) (O.faults out.new) (O.short_puts out.new))
        result.1 result.0 }
    ensures small { result.0 ≤ 6 }
{
    let answer = run(alloc, words, files, out);
    (number_of(answer.status), answer)
}

/// The run of these words over the files and the output of a host: its exit status, and what a person is told of it where
/// memory is found for that, which is nothing exactly where the run is done.
pub fn told_run<R: AllocGlobal + Print + std::rt::Files>(
    rt: &R,
    words: &[String],
) -> (u8, Result<Page, AllocError>)
    ensures status { IsStatusOfWords (map string_bytes words.now) result.0 }
    ensures told { IfOk result.1 (IsToldOf (map string_bytes words.now) result.0) }
    ensures small { result.0 ≤ 6 }
{
    let mut files = HostFiles::new(rt, rt.alloc());
    let mut out = OutSink::new(rt);
    let (status, answer) = status_of_run(rt.alloc(), words, &mut files, &mut out);
    let unput = out.reason();
    let reason = files.reason();
    let failed = files.failed_name();
    let faults = Faults {
        failed,
        reason,
        unput,
    };
    let page = page_of_run(rt, words, &answer, faults);
    (status, page)
}

// Prints a text, and gives the exit status: 5 where it cannot be printed, which a person is told.
fn print_text<R: AllocGlobal + Print + Eprint>(rt: &R, words: &[String], text: &str) -> u8
    ensures answered { (result ≡ 0) ⊎ (result ≡ 5) }
{
    let mut out = OutSink::new(rt);
    if out.put(text.as_bytes()).is_ok() {
        return 0;
    }
    if let Some(error) = out.reason() {
        tell(rt, page_of_output(rt.alloc(), words, error));
    }
    5
}

// Tells a person a page on standard error, or that memory ran out. Where that fails, nothing more happens.
fn tell<R: Eprint>(rt: &R, page: Result<Page, AllocError>) {
    let told = match page {
        Ok(page) => match str::from_utf8(page.as_slice()) {
            Ok(text) => rt.eprint(text),
            Err(_) => Ok(()),
        },
        Err(_) => rt.eprint(NO_MEMORY),
    };
    drop(told);
}

const NO_MEMORY: &str = "dft: memory ran out\n";

// Where the words cannot be had: 6 for want of memory, else 7.
fn end_without_words<R: AllocGlobal + Eprint>(rt: &R, error: io::Error) -> u8
    ensures { HasNoWords result }
{
    if error.kind() == io::ErrorKind::OutOfMemory {
        tell(rt, Err(AllocError));
        return 6;
    }
    tell(rt, page_without_words(rt.alloc(), error));
    7
}

/// The whole program on a host: its words without the first, its files, its output. Words that ask for help or for the version
/// are answered on standard output, with status 0. Else the exit status is that of the run of the words, and where they are
/// not done, standard error says what is wrong. It is 6 where the words cannot be had for want of memory, and 7 where the host
/// names another cause, among them a word that is not text.
pub fn end<R: AllocGlobal + Env + Print + Eprint + std::rt::Files>(rt: &R) -> ExitCode
    ensures ends { EndsProgram (exit_status result) }
    ensures small { exit_status result ≤ 7 }
{
    let words = match std::env::args(rt) {
        Ok(words) => words,
        Err(error) => return ExitCode::from(end_without_words(rt, error)),
    };
    let words: Vec<String> = match words.skip(1).collect(rt.alloc()) {
        Ok(words) => words,
        Err(_) => {
            tell(rt, Err(AllocError));
            return ExitCode::from(6);
        }
    };
    ExitCode::from(end_of_words(rt, words.as_slice()))
}

/// The program with these words: those that ask for help or for the version are answered, and all others are run. It gives the
/// exit status.
pub fn end_of_words<R: AllocGlobal + Print + Eprint + std::rt::Files>(
    rt: &R,
    words: &[String],
) -> u8
    ensures ends { EndsWith (map string_bytes words.now) result }
    ensures small { result ≤ 6 }
{
    match asked(words) {
        Some(request) => print_text(rt, words, help(request)),
        None => {
            let (status, page) = told_run(rt, words);
            tell(rt, page);
            status
        }
    }
}
