//! What help and the version say.

ghost use Rattle.std.specs.Prelude.{◌≡◌, true};
ghost use Rattle.dft_explain.specs.Told.{is_told};

use crate::asking::{Request, Topic};

const COMMANDS: &str = "\
dft replay    plays patterns against a netlist: do they pass in every run?
dft scan      inserts scan chains
dft compile   inserts chains behind compression hardware, and makes patterns of test cubes
dft certify   tests what a report gives for its unsolvable cubes
dft generate  makes a job from a seed, compiles it, and replays what it compiled
dft grade     tells which single stuck-at faults of a netlist patterns find
dft seek      makes test cubes for stuck-at faults, and tells which faults no cube detects
dft configure makes a configuration: compression hardware for so many chains and channels

dft COMMAND --help tells its options, what it prints, and an example.
";

const REPLAY: &str = "\
usage: dft replay --netlist FILE --patterns FILE [--library FILE]

--netlist FILE   the netlist, structural Verilog
--patterns FILE  the patterns, STIL
--library FILE   the cells of the netlist, TOML; without it the standard cells

prints
  pass V vectors B compared          every run shows each compared bit as printed
  mismatch vector V signal NAME      every run shows the opposite there
  undetermined vector V signal NAME  it may differ from run to run, or cannot be told
status 0 pass, 1 not, 2 wrong words, 3 refused, 4 not loaded, 5 not printed, 6 no memory

dft replay --netlist scanned.v --patterns patterns.stil
";

const SCAN: &str = "\
usage: dft scan --netlist FILE --config FILE --out FILE --report FILE [--library FILE]

--netlist FILE  the netlist, structural Verilog
--config FILE   clocks, resets and how many chains, TOML
--out FILE      where the scanned netlist is saved
--report FILE   where the chains and the cells that are not scanned are told
--library FILE  the cells of the netlist, TOML; without it the standard cells

prints
  scanned cells N unscanned U chains C lockups L
status 0 saved, 2 wrong words, 3 refused, 4 not loaded, 5 not saved or printed, 6 no memory

dft scan --netlist design.v --config scan.toml --out scanned.v --report scan.report
";

const COMPILE: &str = "\
usage: dft compile --netlist FILE --config FILE --cubes FILE --out-netlist FILE --out-patterns FILE --out-report FILE [--library FILE]

--netlist FILE       the netlist, structural Verilog
--config FILE        clocks, chains, ring, compactor and names, TOML
--cubes FILE         the test cubes
--out-netlist FILE   where the scanned netlist is saved
--out-patterns FILE  where the patterns are saved, STIL
--out-report FILE    where chains are told, and what became of each cube
--library FILE       the cells of the netlist, TOML; without it the standard cells

prints
  compiled cells N chains C cycles T patterns P encoded E unsolvable U skipped S masked M vectors V
status 0 saved, 2 wrong words, 3 refused, 4 not loaded, 5 not saved or printed, 6 no memory

dft compile --netlist design.v --config edt.toml --cubes design.cubes --out-netlist scanned.v --out-patterns patterns.stil --out-report edt.report
";

const CERTIFY: &str = "\
usage: dft certify --netlist FILE --config FILE --cubes FILE --report FILE [--library FILE]

--netlist FILE  the netlist that was compiled
--config FILE   its configuration
--cubes FILE    its test cubes
--report FILE   the report, whoever wrote it
--library FILE  the cells of the netlist, TOML; without it the standard cells

prints
  certified U cubes
status 0 all hold, 2 wrong words, 3 refused, 4 not loaded, 5 not printed, 6 no memory

dft certify --netlist design.v --config edt.toml --cubes design.cubes --report edt.report
";

const GENERATE: &str = "\
usage: dft generate --seed NUMBER --size NUMBER

--seed NUMBER  any number below 2^64: the same seed makes the same job
--size NUMBER  how many flip-flops the job has, 16 to 20000

prints the line of compile, and then that of replay
status 0 pass, 2 wrong words, 5 not printed, 6 no memory

dft generate --seed 1 --size 64
";

const GRADE: &str = "\
usage: dft grade --netlist FILE --patterns FILE --out FILE [--library FILE]

--netlist FILE   the netlist, structural Verilog
--patterns FILE  the patterns, STIL; they must pass on it
--out FILE       where both stuck-at faults of each net are told, each with its grade: nets
                 that a cell, an assign or a joined port drives and that show no clock
--library FILE   the cells of the netlist, TOML; without it the standard cells

prints
  graded faults F detected D undetected U  a detected fault fails a compared bit in every run
  the line of replay                       where the patterns do not pass; nothing is saved
status 0 saved, 1 not passed, 2 wrong words, 3 refused, 4 not loaded, 5 not saved or printed, 6 no memory

dft grade --netlist scanned.v --patterns patterns.stil --out faults.report
";

const SEEK: &str = "\
usage: dft seek --netlist FILE --config FILE --clock NAME --limit N --out-cubes FILE --out-report FILE [--library FILE]

--netlist FILE     the netlist, structural Verilog
--config FILE      the configuration, TOML
--clock NAME       the domain of it that captures once
--limit N          how many dead ends a search may meet for one fault, 0 to 1000000
--out-cubes FILE   where the cubes go: dft compile takes them
--out-report FILE  where each fault is told, with its cube or why it has none
--library FILE     the cells of the netlist, TOML; without it the standard cells

prints
  seek faults F cubes C not-testable N aborted A
status 0 saved, 2 wrong words, 3 refused, 4 not loaded, 5 not saved or printed, 6 no memory

dft seek --netlist core.v --config core.toml --clock clk --limit 100 --out-cubes core.cubes --out-report core.faults
";

const CONFIGURE: &str = "\
usage: dft configure --netlist FILE --channels B --chains C|--length L --out FILE [--outputs O] [--masks M] [--library FILE]

--netlist FILE   the netlist, structural Verilog
--channels B     how many channels feed the ring, 1 to 32
--chains C       how many chains there are, 1 to 1024; or else
--length L       how many cells a chain has at most, 1 to 65536
--out FILE       where the configuration goes, TOML: dft compile takes it
--outputs O      how many outputs, 1 to 32; without it the lesser of B and C
--masks M        how many mask inputs, 1 to 32; without it as many as keep a load short
--library FILE   the cells of the netlist, TOML; without it the standard cells

prints
  configured cells N unscanned U domains D resets R chains C longest K stages S ..
status 0 saved, 2 wrong words, 3 refused, 4 not loaded, 5 not saved or printed, 6 no memory

dft configure --netlist core.v --chains 64 --channels 2 --out core.toml
";

const VERSION: &str = "dft 0.1\n";

/// What is told to who asks: of `--help` a line for each command; of a command its form, its options, what it prints and an
/// example; of `--version` the version. All bytes are printed ones, blanks and ends of lines.
pub fn help(request: Request) -> &'static str
    ensures { is_told result.now ≡ true }
{
    match request {
        Request::Help => COMMANDS,
        Request::HelpOf(Topic::Replay) => REPLAY,
        Request::HelpOf(Topic::Scan) => SCAN,
        Request::HelpOf(Topic::Compile) => COMPILE,
        Request::HelpOf(Topic::Certify) => CERTIFY,
        Request::HelpOf(Topic::Generate) => GENERATE,
        Request::HelpOf(Topic::Grade) => GRADE,
        Request::HelpOf(Topic::Configure) => CONFIGURE,
        Request::HelpOf(Topic::Seek) => SEEK,
        Request::Version => VERSION,
    }
}
