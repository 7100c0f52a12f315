//! The files of a command: each is loaded in its turn, and gives a value by its checks, or is refused.

ghost use Rattle.std.specs.Prelude.{IfOk, Some, option_map};
ghost use Rattle.dft_patterns.specs.Patterns.{IsWellFormed};
ghost use Rattle.dft_verilog_out.specs.Named.{GatesAreJoined};
ghost use Rattle.dft_answers.specs.Steps.{Takes, seen_files};
ghost use Rattle.dft_top.specs.Checks.{AreFew, LibraryGives, ConfigGives, CubesGive, NetlistGives, PatternsGive, ReportGives};

use crate::limits::{
    MAX_CONFIG_BYTES, MAX_CUBE_BYTES, MAX_LIBRARY_BYTES, MAX_NETLIST_BYTES, MAX_PATTERN_BYTES,
    MAX_REPORT_BYTES,
};
use crate::reading::{config_in, cubes_in, design_in, library_in, patterns_in, report_in};
use dft_answers::{Stop, load_text};
use dft_cells::Library;
use dft_config::{Config, Listed};
use dft_cubes::Cube;
use dft_files::Files;
use dft_netlist::Design;
use dft_patterns::PatternSet;
use dft_report::Report;
use std::alloc::Global;

/// The library with this name, or the standard one where there is no name.
pub fn load_library<F: Files>(
    alloc: Global,
    files: &mut F,
    name: Option<&str>,
) -> Result<Library, Stop>
    ensures { Takes (option_map (λ name. name.now) name.entry) (LibraryGives (option_map (λ name. name.now) name.entry))
        (seen_files (F.held files.old) (F.failed files.old) (F.read_faults files.old) (F.write_faults files.old) (F.short_saves files.old))
        (seen_files (F.held files.new) (F.failed files.new) (F.read_faults files.new) (F.write_faults files.new) (F.short_saves files.new)) result }
{
    match name {
        None => Ok(Library::standard(alloc)?),
        Some(name) => load_named_library(alloc, files, name),
    }
}

fn load_named_library<F: Files>(alloc: Global, files: &mut F, name: &str) -> Result<Library, Stop>
    ensures { Takes (Some name.now) (LibraryGives (Some name.now))
        (seen_files (F.held files.old) (F.failed files.old) (F.read_faults files.old) (F.write_faults files.old) (F.short_saves files.old))
        (seen_files (F.held files.new) (F.failed files.new) (F.read_faults files.new) (F.write_faults files.new) (F.short_saves files.new)) result }
{
    let text = load_text(alloc, files, name, b"library", MAX_LIBRARY_BYTES)?;
    library_in(alloc, text.as_slice())
}

/// The configuration with this name.
pub fn load_config<F: Files>(alloc: Global, files: &mut F, name: &str) -> Result<Config, Stop>
    ensures { Takes (Some name.now) (ConfigGives name.now)
        (seen_files (F.held files.old) (F.failed files.old) (F.read_faults files.old) (F.write_faults files.old) (F.short_saves files.old))
        (seen_files (F.held files.new) (F.failed files.new) (F.read_faults files.new) (F.write_faults files.new) (F.short_saves files.new)) result }
{
    let text = load_text(alloc, files, name, b"config", MAX_CONFIG_BYTES)?;
    config_in(alloc, text.as_slice())
}

/// The design of the netlist with this name, over the cells of a library.
pub fn load_netlist<F: Files>(
    alloc: Global,
    files: &mut F,
    name: &str,
    library: Library,
) -> Result<Design, Stop>
    ensures takes { Takes (Some name.now) (NetlistGives library name.now)
        (seen_files (F.held files.old) (F.failed files.old) (F.read_faults files.old) (F.write_faults files.old) (F.short_saves files.old))
        (seen_files (F.held files.new) (F.failed files.new) (F.read_faults files.new) (F.write_faults files.new) (F.short_saves files.new)) result }
    ensures joined { IfOk result GatesAreJoined }
{
    let text = load_text(alloc, files, name, b"netlist", MAX_NETLIST_BYTES)?;
    design_in(alloc, text.as_slice(), library)
}

/// The patterns with this name.
pub fn load_patterns<F: Files>(alloc: Global, files: &mut F, name: &str) -> Result<PatternSet, Stop>
    ensures takes { Takes (Some name.now) (PatternsGive name.now)
        (seen_files (F.held files.old) (F.failed files.old) (F.read_faults files.old) (F.write_faults files.old) (F.short_saves files.old))
        (seen_files (F.held files.new) (F.failed files.new) (F.read_faults files.new) (F.write_faults files.new) (F.short_saves files.new)) result }
    ensures well_formed { IfOk result IsWellFormed }
{
    let text = load_text(alloc, files, name, b"patterns", MAX_PATTERN_BYTES)?;
    patterns_in(alloc, text.as_slice())
}

/// The cubes with this name, for the design and the configuration.
pub fn load_cubes<F: Files>(
    alloc: Global,
    files: &mut F,
    name: &str,
    design: &Design,
    config: &Config,
) -> Result<Listed<Cube>, Stop>
    ensures takes { Takes (Some name.now) (CubesGive design.now config.now name.now)
        (seen_files (F.held files.old) (F.failed files.old) (F.read_faults files.old) (F.write_faults files.old) (F.short_saves files.old))
        (seen_files (F.held files.new) (F.failed files.new) (F.read_faults files.new) (F.write_faults files.new) (F.short_saves files.new)) result }
    ensures few { IfOk result AreFew }
{
    let text = load_text(alloc, files, name, b"cubes", MAX_CUBE_BYTES)?;
    cubes_in(alloc, text.as_slice(), design, config)
}

/// The report with this name.
pub fn load_report<F: Files>(alloc: Global, files: &mut F, name: &str) -> Result<Report, Stop>
    ensures { Takes (Some name.now) (ReportGives name.now)
        (seen_files (F.held files.old) (F.failed files.old) (F.read_faults files.old) (F.write_faults files.old) (F.short_saves files.old))
        (seen_files (F.held files.new) (F.failed files.new) (F.read_faults files.new) (F.write_faults files.new) (F.short_saves files.new)) result }
{
    let text = load_text(alloc, files, name, b"report", MAX_REPORT_BYTES)?;
    report_in(alloc, text.as_slice())
}
