//! Laws of compilations, as contracts of functions that do nothing.

ghost use Rattle.dft_compile_laws.specs.Holding.{CompilationsHold};
ghost use Rattle.dft_compile_laws.specs.Agreeing.{AgreedGoesOn};
ghost use Rattle.dft_compile_laws.specs.Formed.{WrittenFormed};
ghost use Rattle.dft_compile_laws.specs.Passing.{RowsDo, SignalsFit, SignalsStand};
ghost use Rattle.dft_compile_laws.specs.Standing.{PatternsStand};
ghost use Rattle.dft_compile_laws.specs.Written.{WrittenPass};
ghost use Rattle.dft_compile_laws.specs.Bringing.{CubesAreCaptured, CubesAreLoaded, CubesAreReplayed};
ghost use Rattle.dft_compile_laws.specs.Playing.{PatternsPlay, RunsLoad};
ghost use Rattle.dft_compile_laws.specs.Reporting.{EncodedAreBrought, EntriesAreExact, UnscannedAreSkipped};

/// What is compiled from test cubes does what it says: in every run of the scanned netlist over the set's vectors, under all ports that
/// suit, each cube that is reported encoded in a pattern is loaded and captured by it; what the report tells of a cube is exact,
/// and a cube that names a cell which is not scanned is reported skipped; a replay passes; and the text of the set is read
/// back. There are such runs, and runs that load each table.
pub fn compilations_hold()
    ensures { CompilationsHold }
{}

/// The signals of a netlist stand for the bits of its ports, in order, and fit it; and the rows that a replay makes of a compiled set do the acts
/// that it lists. A vector whose compared bits all agree with the strobe decides nothing.
pub fn rows_play()
    ensures signals { SignalsStand }
    ensures fits { SignalsFit }
    ensures rows { RowsDo }
    ensures agreed { AgreedGoesOn }
{}

/// Patterns of which each captures what its load leaves, by a domain of the configuration, and masks what is unknown in it, are patterns as the
/// laws of vectors ask: in a ready design each domain has a clock.
pub fn patterns_stand()
    ensures { PatternsStand }
{}

/// What is compiled passes: a replay of compiled patterns on the scanned netlist finds each compared bit known and as printed. It compares,
/// of each pattern, the output bits that its captures know and each output of the compactor in each cycle of its unload, and nothing else;
/// and every run shows each of them as printed.
pub fn written_pass()
    ensures { WrittenPass }
{}

/// What is compiled can be replayed and written: its signals have names that differ and can be quoted, its vectors set each input and compare
/// or pass over each output, and a signal that pulses in one of them is low or pulses in all. So its text is read back.
pub fn written_formed()
    ensures { WrittenFormed }
{}

/// The vectors of compiled patterns load and capture each pattern, and a run over them contains a run of each pattern's load. So in
/// every run, where the first capture vector of a pattern begins, each cell of each cube that was placed in it has the cube's
/// bit, and each of its capture vectors sets the cube's ports and pulses its own clock.
pub fn cubes_are_brought()
    ensures plays { PatternsPlay }
    ensures runs { RunsLoad }
    ensures loaded { CubesAreLoaded }
    ensures captured { CubesAreCaptured }
    ensures replayed { CubesAreReplayed }
{}

/// In every run of a compiled set each cube that is reported encoded is loaded and captured by the pattern that is told. Each cube has its
/// entry, and where its cells are scanned the entry is exact: encoded where some channel bits load the cube in every run,
/// unsolvable where none do in any.
pub fn reports_are_true()
    ensures encoded { EncodedAreBrought }
    ensures skipped { UnscannedAreSkipped }
    ensures exact { EntriesAreExact }
{}
