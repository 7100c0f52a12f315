//! A run of the tool.

ghost use Rattle.std.specs.Prelude.{map, option_map, string_bytes};
ghost use Rattle.dft_command_line.specs.Named.{command_of};
ghost use Rattle.dft_answers.specs.Steps.{seen_files};
ghost use Rattle.dft_top.specs.Follows.{Follows};
ghost use Rattle.dft_top.specs.Outcomes.{IsSized, course_of};
ghost use Rattle.dft_top.specs.Run.{Ends, EndsFor, IsDelivered, CertifiesTold, CompilesTold, CompletesTold, ConfiguresTold, FailsTold, GeneratesJob, GradesTold, KeepsFiles, PassesTold, ScansTold, SeeksTold, UngradedTold, seen};
ghost use Rattle.dft_top.specs.Saves.{CountsSaves, SavesApart, savings};

use crate::certifying::outcome_of_certify;
use crate::compiling::outcome_of_compile;
use crate::configuring::outcome_of_configure;
use crate::generating::outcome_of_generate;
use crate::grading::outcome_of_grade;
use crate::replaying::outcome_of_replay;
use crate::saving::save_outcome;
use crate::scanning::outcome_of_scan;
use crate::seeking::outcome_of_seek;
use dft_answers::{Answer, Outcome, Status, Stop, line, put_line};
use dft_certify::reports_are_certified;
use dft_certify_laws::certified_in_runs;
use dft_command_line::{Command, command};
use dft_compile_laws::compilations_hold;
use dft_files::{Files, SaveError, Sink};
use std::alloc::Global;

/// Runs a command. `replay --netlist FILE --patterns FILE` replays the patterns on the netlist. `scan --netlist FILE
/// --config FILE --out FILE --report FILE` inserts scan chains into the netlist as the configuration says, and saves the
/// scanned netlist and a report. `compile --netlist FILE --config FILE --cubes FILE --out-netlist FILE --out-patterns FILE
/// --out-report FILE` inserts them behind compression hardware, and saves the scanned netlist, patterns that load the test
/// cubes, and a report. `certify --netlist FILE --config FILE --cubes FILE --report FILE` tests whether the sums that a report
/// prints for cubes show that no channel bits load them. `grade --netlist FILE --patterns FILE --out FILE` replays the patterns
/// and, where they pass, saves a report of both stuck-at faults of each driven net that shows no clock, each with its grade.
/// `configure --netlist FILE --channels B --chains C --out FILE` makes a configuration of compression hardware for the netlist, with `--length L` in
/// place of the chains, and `--outputs O` and `--masks M` where they are wished, and saves it. `seek --netlist FILE --config FILE --clock NAME --limit N
/// --out-cubes FILE --out-report FILE` seeks a test cube for each fault, which captures once in the named domain, with so many dead nodes of its
/// search at most, and saves the cubes and a report. All these take `--library FILE` for the cells. `generate --seed N --size N` makes a job of its own, compiles it and replays what comes of it; it
/// loads and saves nothing. Files are loaded in their turn, and each passes its checks before the next is loaded; all texts are made
/// before the first is saved; and one line is printed, of a generated job two.
///
/// A run ends in one of five ways. It answers what the words and the files come to, all is saved, and its line is put:
/// Done, NotPassed, Refused with the first check that fails, or Usage. Or a load of a file whose turn came failed
/// (ReadFault). Or a save failed, and nothing is printed; or the line could not be put whole (WriteFault). Or memory ran
/// out. Only a scan, a compilation, a grading, a made configuration or a search that passes all checks changes files.
///
/// Where a replay answers Done and the files are told, every run of the netlist over the patterns, whatever the starting
/// bits, the order of clock edges, any of them at once, and the free bits, shows each compared bit as printed; where it answers NotPassed and tells a
/// bit that differs, every run shows the opposite there. Where a scan answers Done, the netlist that is saved keeps the design
/// and behaves as it while scan is off, and its chains shift in every run. Where a compilation does, so does the netlist that is
/// saved; the patterns that are saved pass on it, and every run over them loads each cube that is reported encoded; and a cube
/// is reported unsolvable exactly where no channel bits load it in any run. Where a test of certificates does, no channel bits
/// load a cube that the report calls unsolvable, in any run of the scanned netlist. Where a grading does, the patterns pass, the
/// report that is saved has every fault in order with its grade, and a fault that is detected fails in every run of the netlist with
/// it: the strobe that is named shows the opposite of the printed bit. Where a configuration is made, the file that is saved is read as
/// what was made, a compilation of the same netlist with it has no failing check before its cubes, and no cube of one or two care bits is
/// unsolvable under it. Where a search does, each cube that is saved detects its fault in each assignment that completes it, and a fault is told to have none only where no assignment detects it.
///
/// Where files are told that pass all checks of a command, and no call of the outside fails, the command answers Done, and a
/// replay or a grading Done exactly where the verdict is Pass. A generated job, which needs no files, is Done where its lines can be put; one
/// of more than 16,240 cells may be refused. Want of memory is the one exception.
pub fn run<F: Files, O: Sink>(alloc: Global, words: &[String], files: &mut F, out: &mut O) -> Answer
    ensures ends { Ends (map string_bytes words.entry.now)
        (seen (F.held files.old) (F.failed files.old) (F.read_faults files.old) (F.write_faults files.old) (F.short_saves files.old) (O.told out.old) (O.faults out.old) (O.short_puts out.old))
        (seen (F.held files.new) (F.failed files.new) (F.read_faults files.new) (F.write_faults files.new) (F.short_saves files.new) (O.told out.new) (O.faults out.new) (O.short_puts out.new))
        result }
    ensures kept { KeepsFiles (map string_bytes words.entry.now) (F.held files.old) (F.held files.new) (F.write_faults files.old)
        (F.write_faults files.new) result }
    ensures passes { PassesTold (map string_bytes words.entry.now) (F.held files.old) result }
    ensures fails { FailsTold (map string_bytes words.entry.now) (F.held files.old) result }
    ensures scans { ScansTold (map string_bytes words.entry.now) (F.held files.old) (F.held files.new) result }
    ensures compiles { CompilesTold (map string_bytes words.entry.now) (F.held files.old) (F.held files.new) result }
    ensures certifies { CertifiesTold (map string_bytes words.entry.now) (F.held files.old) result }
    ensures grades { GradesTold (map string_bytes words.entry.now) (F.held files.old) (F.held files.new) result }
    ensures ungraded { UngradedTold (map string_bytes words.entry.now) (F.held files.old) result }
    ensures configures { ConfiguresTold (map string_bytes words.entry.now) (F.held files.old) (F.held files.new) result }
    ensures seeks { SeeksTold (map string_bytes words.entry.now) (F.held files.old) (F.held files.new) result }
    ensures generates { GeneratesJob (map string_bytes words.entry.now) (O.faults out.old) (O.faults out.new) result }
    ensures completes { CompletesTold (map string_bytes words.entry.now)
        (seen (F.held files.old) (F.failed files.old) (F.read_faults files.old) (F.write_faults files.old) (F.short_saves files.old) (O.told out.old) (O.faults out.old) (O.short_puts out.old))
        (seen (F.held files.new) (F.failed files.new) (F.read_faults files.new) (F.write_faults files.new) (F.short_saves files.new) (O.told out.new) (O.faults out.new) (O.short_puts out.new))
        result }
{
    compilations_hold();
    reports_are_certified();
    certified_in_runs();
    match command(alloc, words) {
        Ok(command) => run_command(alloc, command, files, out),
        Err(_) => Answer::stopped(Status::OutOfMemory),
    }
}

// Runs a command, or none.
fn run_command<F: Files, O: Sink>(
    alloc: Global,
    command: Option<Command<'_>>,
    files: &mut F,
    out: &mut O,
) -> Answer
    requires apart { SavesApart (option_map command_of command) }
    requires sized { IsSized (option_map command_of command) }
    ensures { EndsFor (option_map command_of command.entry)
        (seen (F.held files.old) (F.failed files.old) (F.read_faults files.old) (F.write_faults files.old) (F.short_saves files.old) (O.told out.old) (O.faults out.old) (O.short_puts out.old))
        (seen (F.held files.new) (F.failed files.new) (F.read_faults files.new) (F.write_faults files.new) (F.short_saves files.new) (O.told out.new) (O.faults out.new) (O.short_puts out.new))
        result }
{
    match outcome_of(alloc, command, files) {
        Ok(outcome) => deliver(alloc, command, outcome, files, out),
        Err(Stop::Refused(refusal)) => {
            deliver(alloc, command, Outcome::Refused(refusal), files, out)
        }
        Err(Stop::ReadFault) => Answer::stopped(Status::ReadFault),
        Err(Stop::OutOfMemory) => Answer::stopped(Status::OutOfMemory),
    }
}

// What a command comes to, or what it is that there is none.
fn outcome_of<F: Files>(
    alloc: Global,
    command: Option<Command<'_>>,
    files: &mut F,
) -> Result<Outcome, Stop>
    requires { IsSized (option_map command_of command) }
    ensures { Follows (course_of (option_map command_of command.entry))
        (seen_files (F.held files.old) (F.failed files.old) (F.read_faults files.old) (F.write_faults files.old) (F.short_saves files.old))
        (seen_files (F.held files.new) (F.failed files.new) (F.read_faults files.new) (F.write_faults files.new) (F.short_saves files.new)) result }
{
    match command {
        None => Ok(Outcome::Usage),
        Some(Command::Replay(names)) => outcome_of_replay(alloc, names, files),
        Some(Command::Scan(names)) => outcome_of_scan(alloc, names, files),
        Some(Command::Compile(names)) => outcome_of_compile(alloc, names, files),
        Some(Command::Certify(names)) => outcome_of_certify(alloc, names, files),
        Some(Command::Generate(numbers)) => outcome_of_generate(alloc, numbers),
        Some(Command::Grade(names)) => outcome_of_grade(alloc, names, files),
        Some(Command::Configure(names)) => outcome_of_configure(alloc, names, files),
        Some(Command::Seek(names)) => outcome_of_seek(alloc, names, files),
    }
}

// Saves what a command saves of its outcome, and puts the outcome's line.
fn deliver<F: Files, O: Sink>(
    alloc: Global,
    command: Option<Command<'_>>,
    outcome: Outcome,
    files: &mut F,
    out: &mut O,
) -> Answer
    requires { SavesApart (option_map command_of command) }
    ensures delivered { IsDelivered (option_map command_of command.entry) outcome
        (seen (F.held files.old) (F.failed files.old) (F.read_faults files.old) (F.write_faults files.old) (F.short_saves files.old) (O.told out.old) (O.faults out.old) (O.short_puts out.old))
        (seen (F.held files.new) (F.failed files.new) (F.read_faults files.new) (F.write_faults files.new) (F.short_saves files.new) (O.told out.new) (O.faults out.new) (O.short_puts out.new))
        result }
    ensures counts { CountsSaves (savings (option_map command_of command.entry) outcome) (F.write_faults files.old) (F.write_faults files.new) }
{
    let line = match line(alloc, &outcome) {
        Ok(line) => line,
        Err(_) => return Answer::stopped(Status::OutOfMemory),
    };
    match save_outcome(alloc, command, &outcome, files) {
        Ok(()) => put_line(outcome, line.as_slice(), out),
        Err(SaveError::Failed) => Answer::stopped(Status::WriteFault),
        Err(SaveError::Memory(_)) => Answer::stopped(Status::OutOfMemory),
    }
}
