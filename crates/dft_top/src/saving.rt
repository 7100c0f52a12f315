//! The saves of an outcome.

ghost use Rattle.std.specs.Prelude.{◌≡◌, ◌≢◌, ◌≤◌, Err, OnErr, OnOk, Some, map, option_map};
ghost use Rattle.dft_files.specs.Outside.{IsShortSave, KeepsOthers, LeavesPart, Rose, Told, ToldChange, file_at};
ghost use Rattle.dft_command_line.specs.Named.{command_of};
ghost use Rattle.dft_top.specs.Saves.{AreApart, CountsSaves, HaveSaved, HaveSavedSome, SaveFailed, SavesApart, savings};
ghost use Rattle.dft_top.specs.Named.{saving_of};

use dft_answers::{Outcome, Work};
use dft_command_line::Command;
use dft_files::{Files, SaveError};
use std::alloc::Global;

/// A file that is to be saved.
#[derive(Clone, Copy, Debug)]
pub struct Saving<'a> {
    pub name: &'a str,
    pub bytes: &'a [u8],
}

impl<'a> Saving<'a> {
    // The bytes that are to be saved by this name.
    fn of(name: &'a str, bytes: &'a [u8]) -> Saving<'a>
        ensures { saving_of result ≡ record { name = name.now; bytes = bytes.now } }
    {
        Saving { name, bytes }
    }
}

/// Saves what a command saves of its outcome, in order: of a scan the scanned netlist, and then the report; of a compilation the scanned
/// netlist, the patterns, and then the report; of a grading the report; of a made configuration its text; of a search the cube file, and then the report.
pub fn save_outcome<F: Files>(
    alloc: Global,
    command: Option<Command<'_>>,
    outcome: &Outcome,
    files: &mut F,
) -> Result<(), SaveError>
    requires { SavesApart (option_map command_of command) }
    ensures saved { OnOk result (HaveSaved (savings (option_map command_of command.entry) outcome.now) (F.held files.old) (F.held files.new)) }
    ensures failed { result ≡ Err SaveError.Failed → SaveFailed (savings (option_map command_of command.entry) outcome.now)
        (F.held files.old) (F.held files.new) (F.failed files.new) (F.write_faults files.old) (F.write_faults files.new) }
    ensures memory { OnErr result (result ≢ Err SaveError.Failed → HaveSavedSome (savings (option_map command_of command.entry) outcome.now)
        (F.held files.old) (F.held files.new)) }
    ensures short { IsShortSave result → Rose (F.short_saves files.old) (F.short_saves files.new) }
    ensures counts { CountsSaves (savings (option_map command_of command.entry) outcome.now) (F.write_faults files.old) (F.write_faults files.new) }
{
    match (command, outcome) {
        (
            Some(Command::Scan(names)),
            Outcome::Finished(
                Work::Scanned {
                    netlist,
                    report,
                    ..
                },
            ),
        ) => {
            let netlist = Saving::of(names.out, netlist.as_slice());
            let report = Saving::of(names.report, report.as_slice());
            save_all(alloc, &[netlist, report], files)
        }
        (
            Some(Command::Compile(names)),
            Outcome::Finished(
                Work::Compiled {
                    netlist,
                    patterns,
                    report,
                    ..
                },
            ),
        ) => {
            let netlist = Saving::of(names.out_netlist, netlist.as_slice());
            let patterns = Saving::of(names.out_patterns, patterns.as_slice());
            let report = Saving::of(names.out_report, report.as_slice());
            save_all(alloc, &[netlist, patterns, report], files)
        }
        (Some(Command::Grade(names)), Outcome::Finished(Work::Graded { report, .. })) => {
            let report = Saving::of(names.out, report.as_slice());
            save_all(alloc, &[report], files)
        }
        (Some(Command::Configure(names)), Outcome::Finished(Work::Configured { text, .. })) => {
            let text = Saving::of(names.out, text.as_slice());
            save_all(alloc, &[text], files)
        }
        (Some(Command::Seek(names)), Outcome::Finished(Work::Sought { cubes, report, .. })) => {
            let cubes = Saving::of(names.out_cubes, cubes.as_slice());
            let report = Saving::of(names.out_report, report.as_slice());
            save_all(alloc, &[cubes, report], files)
        }
        _ => Ok(()),
    }
}

// Saves these files, in order.
fn save_all<F: Files>(alloc: Global, savings: &[Saving<'_>], files: &mut F) -> Result<(), SaveError>
    requires { AreApart (map saving_of savings.now) }
    ensures saved { OnOk result (HaveSaved (map saving_of savings.now) (F.held files.old) (F.held files.new)) }
    ensures failed { result ≡ Err SaveError.Failed → SaveFailed (map saving_of savings.now)
        (F.held files.old) (F.held files.new) (F.failed files.new) (F.write_faults files.old) (F.write_faults files.new) }
    ensures memory { OnErr result (result ≢ Err SaveError.Failed →
        HaveSavedSome (map saving_of savings.now) (F.held files.old) (F.held files.new)) }
    ensures short { IsShortSave result → Rose (F.short_saves files.old) (F.short_saves files.new) }
{
    for saving in savings {
        save_one(alloc, saving, files)?;
    }
    Ok(())
}

// Saves a file.
fn save_one<F: Files>(alloc: Global, saving: &Saving<'_>, files: &mut F) -> Result<(), SaveError>
    ensures saved { OnOk result (Told (λ h. file_at (saving_of saving.now).name h ≡ Some (saving_of saving.now).bytes) (F.held files.new)) }
    ensures others { ToldChange (KeepsOthers (saving_of saving.now).name) (F.held files.old) (F.held files.new) }
    ensures part { result ≡ Err SaveError.Failed → ToldChange (λ old new. LeavesPart (saving_of saving.now).bytes
        (file_at (saving_of saving.now).name old) (file_at (saving_of saving.now).name new)) (F.held files.old) (F.held files.new) }
    ensures memory { OnErr result (result ≢ Err SaveError.Failed → F.held files.new ≡ F.held files.old) }
    ensures fault { result ≡ Err SaveError.Failed → Rose (F.write_faults files.old) (F.write_faults files.new) }
    ensures failed { result ≡ Err SaveError.Failed → F.failed files.new ≡ (saving_of saving.now).name }
    ensures more { F.write_faults files.old ≤ F.write_faults files.new }
    ensures short { IsShortSave result → Rose (F.short_saves files.old) (F.short_saves files.new) }
    ensures enough { ¬ IsShortSave result → F.short_saves files.new ≡ F.short_saves files.old }
{
    files.save(alloc, saving.name, saving.bytes)
}
