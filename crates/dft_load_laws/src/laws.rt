//! Laws of loads, as contracts of functions that do nothing.

ghost use Rattle.dft_load_laws.specs.Loading.{BitsLoad, ChainsFit, LoadsRun, LoadsSolve, PatternsLoad, PlacedInRuns, UnsolvableInRuns};
ghost use Rattle.dft_load_laws.specs.Sums.{SumsAreLoads};
ghost use Rattle.dft_load_laws.specs.Unloading.{UnloadsRun};

/// Each chain that is planned for a design fits a load, and the sums of placement are what a load brings to the cells.
pub fn loads_bring()
    ensures fit { ChainsFit }
    ensures sums { SumsAreLoads }
{}

/// In every run channel bits load the cells whose equations they solve, and a table that loads them in one run solves these. A cube of
/// scanned cells is unsolvable exactly where no table loads it in any run, of which each table has one, and is placed in a
/// pattern exactly where some table loads it in every run; the channel bits of the pattern do.
pub fn cubes_load()
    ensures bits { BitsLoad }
    ensures solve { LoadsSolve }
    ensures run { LoadsRun }
    ensures exact { UnsolvableInRuns }
    ensures placed { PlacedInRuns }
    ensures patterns { PatternsLoad }
{}

/// For all masks and every table there is a run with an unload, of each number of cycles, under all ports that suit.
pub fn unloads_run()
    ensures { UnloadsRun }
{}
