//! The command that `clap` found.

ghost use Rattle.std.specs.Prelude.{◌≡◌, option_map};
ghost use Rattle.clap.specs.Words.{subcommand_rows_of};
ghost use Rattle.clap.specs.Matches.{found_of};
ghost use Rattle.clap.specs.Walk.{first_of, rows_of};
ghost use Rattle.dft_command_line.specs.CommandLine as spec;
ghost use Rattle.dft_command_line.specs.CommandLine.{certify_in, command_from, command_in, compile_in, configure_in, decimal_in, further_from, generate_in, grade_in, number_in, numbers_in, perhaps_in, perhaps_number_in, replay_in, scan_in, seek_in, value_in};
ghost use Rattle.dft_command_line.specs.Named.{certify_files_of, command_of, compile_files_of, configure_files_of, grade_files_of, hardware_of, numbers_of, replay_files_of, scan_files_of, seek_files_of};

use crate::commands::{
    CertifyFiles, Command, CompileFiles, ConfigureFiles, GradeFiles, HardwareNumbers, JobNumbers,
    ReplayFiles, ScanFiles, SeekFiles,
};
use crate::numbers::{decimal, ranged};
use clap::ArgMatches;

// The command with its files or numbers, where no value is empty, the outputs differ and the numbers are in range.
pub(crate) fn command_found<'a>(found: &ArgMatches<'a>) -> Option<Command<'a>>
    ensures { option_map command_of result ≡ command_in (subcommand_rows_of found.now) }
{
    match found.subcommand() {
        Some((name, options)) => command_named(name, options),
        None => None,
    }
}

// The command of a name with its options.
fn command_named<'a>(name: &str, options: &ArgMatches<'a>) -> Option<Command<'a>>
    ensures { option_map command_of result ≡ command_from name.now (rows_of (found_of options.now)) }
{
    if name == "replay" {
        Some(Command::Replay(replay_found(options)?))
    } else if name == "scan" {
        Some(Command::Scan(scan_found(options)?))
    } else if name == "compile" {
        Some(Command::Compile(compile_found(options)?))
    } else if name == "certify" {
        Some(Command::Certify(certify_found(options)?))
    } else {
        further_found(name, options)
    }
}

// The commands that are told by none of the names before.
fn further_found<'a>(name: &str, options: &ArgMatches<'a>) -> Option<Command<'a>>
    ensures { option_map command_of result ≡ further_from name.now (rows_of (found_of options.now)) }
{
    if name == "generate" {
        Some(Command::Generate(generate_found(options)?))
    } else if name == "grade" {
        Some(Command::Grade(grade_found(options)?))
    } else if name == "configure" {
        Some(Command::Configure(configure_found(options)?))
    } else if name == "seek" {
        Some(Command::Seek(seek_found(options)?))
    } else {
        None
    }
}

fn replay_found<'a>(found: &ArgMatches<'a>) -> Option<ReplayFiles<'a>>
    ensures { option_map replay_files_of result ≡ replay_in (rows_of (found_of found.now)) }
{
    Some(ReplayFiles {
        library: perhaps(found, "library")?,
        netlist: value(found, "netlist")?,
        patterns: value(found, "patterns")?,
    })
}

fn scan_found<'a>(found: &ArgMatches<'a>) -> Option<ScanFiles<'a>>
    ensures { option_map scan_files_of result ≡ scan_in (rows_of (found_of found.now)) }
{
    let files = ScanFiles {
        library: perhaps(found, "library")?,
        netlist: value(found, "netlist")?,
        config: value(found, "config")?,
        out: value(found, "out")?,
        report: value(found, "report")?,
    };
    if files.out == files.report {
        None
    } else {
        Some(files)
    }
}

fn compile_found<'a>(found: &ArgMatches<'a>) -> Option<CompileFiles<'a>>
    ensures { option_map compile_files_of result ≡ compile_in (rows_of (found_of found.now)) }
{
    let files = CompileFiles {
        library: perhaps(found, "library")?,
        netlist: value(found, "netlist")?,
        config: value(found, "config")?,
        cubes: value(found, "cubes")?,
        out_netlist: value(found, "out-netlist")?,
        out_patterns: value(found, "out-patterns")?,
        out_report: value(found, "out-report")?,
    };
    if outputs_differ(&files) {
        Some(files)
    } else {
        None
    }
}

// The three files that are saved have different names.
fn outputs_differ(files: &CompileFiles<'_>) -> bool
    ensures { result ≡ spec.outputs_differ (compile_files_of files.now) }
{
    if files.out_netlist == files.out_patterns || files.out_netlist == files.out_report {
        return false;
    }
    files.out_patterns != files.out_report
}

fn certify_found<'a>(found: &ArgMatches<'a>) -> Option<CertifyFiles<'a>>
    ensures { option_map certify_files_of result ≡ certify_in (rows_of (found_of found.now)) }
{
    Some(CertifyFiles {
        library: perhaps(found, "library")?,
        netlist: value(found, "netlist")?,
        config: value(found, "config")?,
        cubes: value(found, "cubes")?,
        report: value(found, "report")?,
    })
}

fn generate_found(found: &ArgMatches<'_>) -> Option<JobNumbers>
    ensures { option_map numbers_of result ≡ generate_in (rows_of (found_of found.now)) }
{
    let seed = number(found, "seed", 20)?;
    let size = number(found, "size", 5)?;
    if 16 <= size && size <= 20_000 {
        Some(JobNumbers {
            seed,
            size: size as u32,
        })
    } else {
        None
    }
}

fn grade_found<'a>(found: &ArgMatches<'a>) -> Option<GradeFiles<'a>>
    ensures { option_map grade_files_of result ≡ grade_in (rows_of (found_of found.now)) }
{
    let library = perhaps(found, "library")?;
    let netlist = value(found, "netlist")?;
    let patterns = value(found, "patterns")?;
    let out = value(found, "out")?;
    Some(GradeFiles {
        library,
        netlist,
        patterns,
        out,
    })
}

fn configure_found<'a>(found: &ArgMatches<'a>) -> Option<ConfigureFiles<'a>>
    ensures { option_map configure_files_of result ≡ configure_in (rows_of (found_of found.now)) }
{
    let library = perhaps(found, "library")?;
    let netlist = value(found, "netlist")?;
    let out = value(found, "out")?;
    let numbers = hardware_found(found)?;
    Some(ConfigureFiles {
        library,
        netlist,
        out,
        numbers,
    })
}

fn seek_found<'a>(found: &ArgMatches<'a>) -> Option<SeekFiles<'a>>
    ensures { option_map seek_files_of result ≡ seek_in (rows_of (found_of found.now)) }
{
    let library = perhaps(found, "library")?;
    let netlist = value(found, "netlist")?;
    let config = value(found, "config")?;
    let clock = value(found, "clock")?;
    let limit = number(found, "limit", 7)?;
    let out_cubes = value(found, "out-cubes")?;
    let out_report = value(found, "out-report")?;
    if limit <= 1_000_000 && out_cubes != out_report {
        Some(SeekFiles {
            library,
            netlist,
            config,
            clock,
            limit: limit as u32,
            out_cubes,
            out_report,
        })
    } else {
        None
    }
}

fn hardware_found(found: &ArgMatches<'_>) -> Option<HardwareNumbers>
    ensures { option_map hardware_of result ≡ numbers_in (rows_of (found_of found.now)) }
{
    let channels = number_within(found, "channels", 2, 32)?;
    let chains = perhaps_within(found, "chains", 4, 1_024)?;
    let longest = perhaps_within(found, "length", 5, 65_536)?;
    let outputs = perhaps_within(found, "outputs", 2, 32)?;
    let masks = perhaps_within(found, "masks", 2, 32)?;
    if is_one(chains, longest) {
        Some(HardwareNumbers {
            channels,
            chains,
            longest,
            outputs,
            masks,
        })
    } else {
        None
    }
}

// Whether just one of two numbers is there.
fn is_one(one: Option<u32>, other: Option<u32>) -> bool
    ensures { result ≡ spec.is_one one other }
{
    match (one, other) {
        (Some(_), None) | (None, Some(_)) => true,
        _ => false,
    }
}

// The number that an option gives in decimal, with at most so many digits, from 1 to so many.
fn number_within(found: &ArgMatches<'_>, name: &str, digits: usize, most: u32) -> Option<u32>
    ensures { result ≡ number_in digits most name.now (rows_of (found_of found.now)) }
{
    ranged(number(found, name, digits)?, most)
}

// The number of an option that may be left out.
fn perhaps_within(
    found: &ArgMatches<'_>,
    name: &str,
    digits: usize,
    most: u32,
) -> Option<Option<u32>>
    ensures { result ≡ perhaps_number_in digits most name.now (rows_of (found_of found.now)) }
{
    match text_of(found, name) {
        Some(text) => Some(Some(ranged(decimal(text, digits)?, most)?)),
        None => Some(None),
    }
}

// The number that an option gives in decimal, with at most so many digits.
fn number(found: &ArgMatches<'_>, name: &str, most: usize) -> Option<u64>
    ensures { result ≡ decimal_in most name.now (rows_of (found_of found.now)) }
{
    decimal(value(found, name)?, most)
}

// The value of an option, where it is given and not empty.
fn value<'a>(found: &ArgMatches<'a>, name: &str) -> Option<&'a str>
    ensures { option_map (λ text. text.now) result ≡ value_in name.now (rows_of (found_of found.now)) }
{
    match text_of(found, name) {
        Some(text) if !text.is_empty() => Some(text),
        _ => None,
    }
}

// The value of an option that may be left out, where it is not empty.
fn perhaps<'a>(found: &ArgMatches<'a>, name: &str) -> Option<Option<&'a str>>
    ensures { option_map (λ value. option_map (λ text. text.now) value) result ≡ perhaps_in name.now (rows_of (found_of found.now)) }
{
    match text_of(found, name) {
        Some(text) if text.is_empty() => None,
        value => Some(value),
    }
}

fn text_of<'a>(found: &ArgMatches<'a>, name: &str) -> Option<&'a str>
    ensures { option_map (λ text. text.now) result ≡ first_of name.now (rows_of (found_of found.now)) }
{
    found.get_str(name)
}
