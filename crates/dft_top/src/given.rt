//! Texts that are given as if they were files: each is checked for its length, and gives a value by its checks, or is refused.

ghost use Rattle.std.specs.Prelude.{IfOk, Some, codes};
ghost use Rattle.dft_patterns.specs.Patterns.{IsWellFormed};
ghost use Rattle.dft_verilog_out.specs.Named.{GatesAreJoined};
ghost use Rattle.dft_answers.specs.Texts.{FileGives};
ghost use Rattle.dft_answers.specs.Steps.{IsGiven};
ghost use Rattle.dft_top.specs.Checks.{AreFew, ConfigText, CubeText, NetlistText, PatternText};
ghost use Rattle.dft_top.specs.declared.limits.TheConstants as limit;

use crate::limits::{MAX_CONFIG_BYTES, MAX_CUBE_BYTES, MAX_NETLIST_BYTES, MAX_PATTERN_BYTES};
use crate::reading::{config_in, cubes_in, design_in, patterns_in};
use dft_answers::{Stop, check_length};
use dft_cells::Library;
use dft_config::{Config, Listed};
use dft_cubes::Cube;
use dft_netlist::Design;
use dft_patterns::PatternSet;
use std::alloc::Global;

/// The configuration of a text.
pub fn given_config(alloc: Global, text: &[u8]) -> Result<Config, Stop>
    ensures given { IsGiven (FileGives limit.MAX_CONFIG_BYTES (codes "config") ConfigText (Some text.now)) result }
{
    check_length(alloc, text, b"config", MAX_CONFIG_BYTES)?;
    config_in(alloc, text)
}

/// The design of a netlist text over the cells of a library.
pub fn given_netlist(alloc: Global, text: &[u8], library: Library) -> Result<Design, Stop>
    ensures given { IsGiven (FileGives limit.MAX_NETLIST_BYTES (codes "netlist") (NetlistText library) (Some text.now)) result }
    ensures joined { IfOk result GatesAreJoined }
{
    check_length(alloc, text, b"netlist", MAX_NETLIST_BYTES)?;
    design_in(alloc, text, library)
}

/// The cubes of a text, for the design and the configuration.
pub fn given_cubes(
    alloc: Global,
    text: &[u8],
    design: &Design,
    config: &Config,
) -> Result<Listed<Cube>, Stop>
    ensures given { IsGiven (FileGives limit.MAX_CUBE_BYTES (codes "cubes") (CubeText design.now config.now) (Some text.now)) result }
    ensures few { IfOk result AreFew }
{
    check_length(alloc, text, b"cubes", MAX_CUBE_BYTES)?;
    cubes_in(alloc, text, design, config)
}

/// The patterns of a text.
pub fn given_patterns(alloc: Global, text: &[u8]) -> Result<PatternSet, Stop>
    ensures given { IsGiven (FileGives limit.MAX_PATTERN_BYTES (codes "patterns") PatternText (Some text.now)) result }
    ensures well_formed { IfOk result IsWellFormed }
{
    check_length(alloc, text, b"patterns", MAX_PATTERN_BYTES)?;
    patterns_in(alloc, text)
}
