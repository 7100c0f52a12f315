//! What the texts of files give by their checks.

ghost use Rattle.std.specs.Prelude.{◌≤◌, IfErr, IfOk, length};
ghost use Rattle.dft_patterns.specs.Patterns.{IsWellFormed};
ghost use Rattle.dft_netlist_reader.specs.Refusals.{HasNoDesign};
ghost use Rattle.dft_verilog_out.specs.Named.{GatesAreJoined};
ghost use Rattle.dft_answers.specs.Steps.{IsGiven};
ghost use Rattle.dft_top.specs.Checks.{AreFew, ConfigText, CubeText, IsDesignOf, LibraryText, NetlistText, PatternText, ReportText};
ghost use Rattle.dft_top.specs.declared.limits.TheConstants.{MAX_CONFIG_BYTES, MAX_CUBE_BYTES, MAX_LIBRARY_BYTES, MAX_NETLIST_BYTES, MAX_PATTERN_BYTES, MAX_REPORT_BYTES};

use dft_answers::{
    Stop, config_refusal, cube_refusal, design_refusal, library_refusal, read_refusal, stil_refusal,
};
use dft_cells::Library;
use dft_config::{Config, Listed};
use dft_cubes::Cube;
use dft_netlist::Design;
use dft_netlist_reader::DesignError;
use dft_patterns::PatternSet;
use dft_report::Report;
use std::alloc::Global;

/// The library of a text.
pub fn library_in(alloc: Global, text: &[u8]) -> Result<Library, Stop>
    requires { length text.now ≤ MAX_LIBRARY_BYTES }
    ensures { IsGiven (LibraryText text.now) result }
{
    match dft_library_text::read(alloc, text) {
        Ok(library) => Ok(library),
        Err(error) => Err(Stop::Refused(library_refusal(error)?)),
    }
}

/// The configuration of a text.
pub fn config_in(alloc: Global, text: &[u8]) -> Result<Config, Stop>
    requires { length text.now ≤ MAX_CONFIG_BYTES }
    ensures given { IsGiven (ConfigText text.now) result }
{
    match dft_config_text::read(alloc, text) {
        Ok(config) => Ok(config),
        Err(error) => Err(Stop::Refused(config_refusal(error)?)),
    }
}

/// The design of a netlist text over the cells of a library.
pub fn design_in(alloc: Global, text: &[u8], library: Library) -> Result<Design, Stop>
    requires { length text.now ≤ MAX_NETLIST_BYTES }
    ensures given { IsGiven (NetlistText library text.now) result }
    ensures joined { IfOk result GatesAreJoined }
{
    match design_of(alloc, text, library) {
        Ok(design) => Ok(design),
        Err(error) => Err(Stop::Refused(design_refusal(alloc, error)?)),
    }
}

// The design of a netlist text, which is sound and has an order.
fn design_of(alloc: Global, text: &[u8], library: Library) -> Result<Design, DesignError>
    requires { length text.now ≤ MAX_NETLIST_BYTES }
    ensures design { IfOk result (IsDesignOf library text.now) }
    ensures joined { IfOk result GatesAreJoined }
    ensures refused { IfErr result (HasNoDesign library text.now) }
{
    let design = dft_netlist_reader::read(alloc, text, library)?;
    design.soundness();
    Ok(design)
}

/// The patterns of a text.
pub fn patterns_in(alloc: Global, text: &[u8]) -> Result<PatternSet, Stop>
    requires { length text.now ≤ MAX_PATTERN_BYTES }
    ensures given { IsGiven (PatternText text.now) result }
    ensures well_formed { IfOk result IsWellFormed }
{
    match dft_stil::read(alloc, text) {
        Ok(patterns) => Ok(patterns),
        Err(error) => Err(Stop::Refused(stil_refusal(error)?)),
    }
}

/// The cubes of a text, for the design and the configuration.
pub fn cubes_in(
    alloc: Global,
    text: &[u8],
    design: &Design,
    config: &Config,
) -> Result<Listed<Cube>, Stop>
    requires short { length text.now ≤ MAX_CUBE_BYTES }
    ensures given { IsGiven (CubeText design.now config.now text.now) result }
    ensures few { IfOk result AreFew }
{
    match dft_cubes::read(alloc, text, design, config) {
        Ok(cubes) => Ok(Listed::from_vec(cubes)),
        Err(error) => Err(Stop::Refused(cube_refusal(error)?)),
    }
}

/// The report of a text.
pub fn report_in(alloc: Global, text: &[u8]) -> Result<Report, Stop>
    requires { length text.now ≤ MAX_REPORT_BYTES }
    ensures { IsGiven (ReportText text.now) result }
{
    match dft_report_reader::read(alloc, text) {
        Ok(report) => Ok(report),
        Err(error) => Err(Stop::Refused(read_refusal(error)?)),
    }
}
