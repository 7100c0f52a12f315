use crate::answer::Refusal;
use dft_base::{Listed, Name};
use dft_compile::Counts as CompileCounts;
use dft_configuring::MadeCounts;
use dft_scan::Counts;
use dft_seeking::SeekCounts;

/// What a replay comes to. Vectors are numbered from 0.
#[derive(Debug, Drop)]
pub enum Replayed {
    /// Every compared bit is known and as printed.
    Passed { vectors: u32, compared: u64 },
    /// The first compared bit that is not known to be as printed is the opposite, at this signal.
    Mismatch { vector: u32, signal: Name },
    /// The first compared bit that is not known to be as printed is not known, at this signal.
    Undetermined { vector: u32, signal: Name },
}

/// What a command did: a variant for each command. A grading whose patterns do not pass did a replay.
#[derive(Debug, Drop)]
pub enum Work {
    /// Patterns are replayed.
    Replayed(Replayed),
    /// The design is scanned: what is counted, and the texts of the scanned netlist and of the report, to be saved.
    Scanned {
        counts: Counts,
        netlist: Listed<u8>,
        report: Listed<u8>,
    },
    /// The cubes are compiled: what is counted, and the texts of the scanned netlist, of the patterns and of the report, to be
    /// saved.
    Compiled {
        counts: CompileCounts,
        netlist: Listed<u8>,
        patterns: Listed<u8>,
        report: Listed<u8>,
    },
    /// The sums that a report prints certify so many cubes: no channel bits load them.
    Certified {
        unsolvable: u32,
    },
    /// A generated job is compiled and replayed: what the compilation counts, and what the replay comes to.
    Generated {
        counts: CompileCounts,
        replay: Replayed,
    },
    /// The faults of a design are graded: how many there are, how many are detected and how many are not, and the text of the
    /// report, to be saved.
    Graded {
        faults: u32,
        detected: u32,
        undetected: u32,
        report: Listed<u8>,
    },
    /// A configuration is made: what is counted of it, and its text, to be saved.
    Configured {
        counts: MadeCounts,
        text: Listed<u8>,
    },
    /// Test cubes are sought: what is counted, and the texts of the cubes and of the report, to be saved.
    Sought {
        counts: SeekCounts,
        cubes: Listed<u8>,
        report: Listed<u8>,
    },
}

/// What a command comes to where nothing outside fails and memory is found.
#[derive(Debug, Drop)]
pub enum Outcome {
    /// The words are no command.
    Usage,
    /// A file is refused.
    Refused(Refusal),
    /// No check failed, and this was done.
    Finished(Work),
}
