ghost use Rattle.std.specs.Prelude.{◌≡◌};
ghost use Rattle.dft_answers.specs.Answers as spec;

use crate::outcome::{Outcome, Replayed, Work};
use dft_base::{Name, Place};

/// How a command ended.
#[derive(Clone, Copy, Debug, PartialEq, Eq)]
pub enum Status {
    /// It did what it is for: patterns passed, those of a generated job among them; the files of a scan, of a compilation, of a
    /// grading, of a made configuration or of a search are saved; or a report's certificates hold.
    Done,
    /// The patterns do not pass: a bit differs, or is not determined.
    NotPassed,
    /// The words are no command.
    Usage,
    /// A file is refused, with a code.
    Refused,
    /// A file could not be loaded.
    ReadFault,
    /// A file could not be saved, or the line could not be put.
    WriteFault,
    /// Memory ran out.
    OutOfMemory,
}

/// Why a file is refused.
#[derive(Clone, Copy, Debug, PartialEq, Eq)]
pub enum Code {
    /// A file has more bytes than its limit. Its part is the name of the file's option.
    F1,
    /// A cell has a kind that is not known. Its part is the cell's name, as at L2, L3 and L5.
    L1,
    /// A cell has a wrong number of inputs, a table of another length or character, or a pin twice.
    L2,
    /// A cell has the name of a word that IEEE 1364 reserves.
    L3,
    /// No cell has a kind that a library needs. Its part is the kind.
    L4,
    /// A cell's `scan` names no scan cell that fits it.
    L5,
    /// The library is no TOML text. It has no part.
    L6,
    /// A cell, or the table `cells`, has a missing or another key, a value of another kind, or a name with other bytes.
    L7,
    /// A configuration is no TOML text. It has no part.
    C1,
    /// A key is missing, holds another kind of value, or is unknown. Its part is the key, as at C3, C4 and C6.
    C2,
    /// A number, or the count of a list, is outside of its range. Its parts are the key and the number.
    C3,
    /// A list in the list at a key is empty.
    C4,
    /// A chain stands in no group. Its part is the chain.
    C5,
    /// Something stands twice at a key.
    C6,
    /// A byte that no netlist text may have there. Its part is the place, as at all codes of netlist texts (IEEE 1364).
    V1,
    /// A token that stands where none such may, or a constant that is driven.
    V2,
    /// A word or directive that the structural part leaves out. Its parts are the place and the word, as at V5, V11 and
    /// V12.
    V3,
    /// A pin that the cell has not.
    V5,
    /// Widths, numbers of terminals, bits or sizes that do not fit.
    V6,
    /// `inout`.
    V7,
    /// The text ends too early.
    V9,
    /// A number that is too large.
    V10,
    /// A name that was not declared.
    V11,
    /// A pin that was connected before.
    V12,
    /// A module has the name of a module before it or of a cell of the library. Its part is the name, as at H2 and H3.
    H1,
    /// An instance of a module that is not there.
    H2,
    /// A module that has an instance of itself, or below one of its instances.
    H3,
    /// The modules that no module has an instance of are none, or several. Its part is how many there are.
    H4,
    /// A connection that fits no port of its module. Its parts are the place and the name.
    H5,
    /// A net has two drivers. Its part is the net's name.
    N1,
    /// The nets have no order. Its part is the name of a net of a loop.
    N2,
    /// A printed name is taken. Its part is the name.
    N3,
    /// There would be more than a limit. Its parts are what is counted and the limit.
    N4,
    /// A clock is used as data. Its part is the name of the net.
    G1,
    /// A scan cell is there already. Its part is the name of the instance, as at G5.
    G2,
    /// There are fewer scanned cells than chains. Its parts are how many there are, and how many chains.
    G3,
    /// A name of the configuration is not in the design. Its part is the name, as at G6 and G7.
    G4,
    /// A lock-up latch is there already.
    G5,
    /// A name that insertion adds is taken.
    G6,
    /// A port's name has a double quote.
    G7,
    /// A token of a pattern text (IEEE 1450-1999) that stands where none such may. Its part is the place.
    P1,
    /// A word, a waveform or a character in a pattern text that is left out of the subset that is read. Its parts are the
    /// place and the word.
    P2,
    /// A name in a pattern text that is not given before. Its parts are the place and the name.
    P3,
    /// A number or a length in a pattern text that does not fit. Its part is the place, as at P5 and P8.
    P4,
    /// A character or an act in a pattern text that its signal has not.
    P5,
    /// The patterns of a compilation would be longer than their limit. Its part is how many bytes they would have.
    P6,
    /// A signal is no bit of a port with its direction. Its part is the signal's name.
    P7,
    /// Times of a pattern text that do not fit.
    P8,
    /// A name in a pattern text that is given twice. Its parts are the place and the name.
    P9,
    /// A signal that pulses in a vector is high or unset in another. Its parts are the signal's name and the vector.
    P10,
    /// A line of a cube file that is none of those that may stand there. Its part is the place, as at Q7 and Q9.
    Q1,
    /// A cell of a cube that is no flip-flop. Its parts are the place and the name, as at Q3 to Q6 and Q8.
    Q2,
    /// A port of a cube that is no bit of an input.
    Q3,
    /// A clock of a cube that is no domain.
    Q4,
    /// A name of a cube that was given before.
    Q5,
    /// A cell or a port that was given before in its cube.
    Q6,
    /// A cube file that ends inside of a cube.
    Q7,
    /// A port of a cube that is a domain or a reset.
    Q8,
    /// One cube more than a file may have.
    Q9,
    /// A line of a report that is not of its form. Its part is the place.
    K1,
    /// A sum of a report is no care bit of its cube, stands twice, or has other variables than its cell sums. Its parts are the
    /// place and the cell's name, as at K4.
    K2,
    /// The sums of a cube are no certificate. Its part is the cube's name, as at K5.
    K3,
    /// A sum of a report names no scanned cell.
    K4,
    /// A cube that is reported unsolvable is not in the cube file.
    K5,
    /// A report, a cube file that is sought, or a made configuration is longer than its limit. Its part is how many bytes it would have.
    K6,
    /// A clock is no domain of the configuration. Its part is its name, with `?` for each byte that no name has.
    X1,
    /// A netlist has no scan clock. It has no part.
    X2,
    /// There would be more than the chains, or than the most of them. Its parts are what is counted, and the most.
    X3,
    /// No size of ring has phase sets for so many chains. It has no part.
    X4,
}

/// A refusal: its code, and the parts that are printed behind it.
#[derive(Debug, Drop)]
pub struct Refusal {
    pub code: Code,
    /// Where in the text.
    pub place: Option<Place>,
    pub name: Option<Name>,
    pub first: Option<i64>,
    pub second: Option<i64>,
}

/// The first compared bit of a replay that does not pass.
#[derive(Debug, Drop)]
pub struct Unpassed {
    /// The vector, from 0.
    pub vector: u32,
    /// The signal's name.
    pub signal: Name,
    /// Whether the bit is the opposite in every run, else it is not determined.
    pub is_opposite: bool,
}

/// What a command answers. The refusal is there exactly where the status is `Refused`, the bit that does not pass exactly where
/// it is `NotPassed`.
#[derive(Debug, Drop)]
pub struct Answer {
    pub status: Status,
    pub refusal: Option<Refusal>,
    pub unpassed: Option<Unpassed>,
}

impl Answer {
    /// An answer that stands for no outcome.
    pub fn stopped(status: Status) -> Answer
        ensures { result ≡ spec.stopped status }
    {
        Answer {
            status,
            refusal: None,
            unpassed: None,
        }
    }

    // The answer of a replay that does not pass.
    fn failed(vector: u32, signal: Name, is_opposite: bool) -> Answer
        ensures { result ≡ spec.failed vector signal is_opposite }
    {
        Answer {
            status: Status::NotPassed,
            refusal: None,
            unpassed: Some(Unpassed {
                vector,
                signal,
                is_opposite,
            }),
        }
    }

    /// The answer of an outcome.
    pub fn of(outcome: Outcome) -> Answer
        ensures { result ≡ spec.answer_of outcome }
    {
        match outcome {
            Outcome::Usage => Answer::stopped(Status::Usage),
            Outcome::Refused(refusal) => Answer {
                status: Status::Refused,
                refusal: Some(refusal),
                unpassed: None,
            },
            Outcome::Finished(work) => Answer::of_work(work),
        }
    }

    // A replay may not pass, that of a generated job too; all else that is finished is done.
    fn of_work(work: Work) -> Answer
        ensures { result ≡ spec.answer_of (Outcome.Finished work) }
    {
        match work {
            Work::Replayed(replay) => Answer::of_replay(replay),
            Work::Generated { replay, .. } => Answer::of_replay(replay),
            Work::Scanned { .. }
            | Work::Compiled { .. }
            | Work::Certified { .. }
            | Work::Graded { .. }
            | Work::Configured { .. }
            | Work::Sought { .. } => Answer::stopped(Status::Done),
        }
    }

    // A replay is done where the patterns pass.
    fn of_replay(replay: Replayed) -> Answer
        ensures { result ≡ spec.answer_of_replay replay }
    {
        match replay {
            Replayed::Passed { .. } => Answer::stopped(Status::Done),
            Replayed::Mismatch { vector, signal } => Answer::failed(vector, signal, true),
            Replayed::Undetermined { vector, signal } => Answer::failed(vector, signal, false),
        }
    }
}
