//! The commands that are understood.

/// The files that the words of a replay name.
#[derive(Clone, Copy, Debug)]
pub struct ReplayFiles<'a> {
    pub library: Option<&'a str>,
    pub netlist: &'a str,
    pub patterns: &'a str,
}

/// The files that the words of a scan name: three that are read, and two that are saved.
#[derive(Clone, Copy, Debug)]
pub struct ScanFiles<'a> {
    pub library: Option<&'a str>,
    pub netlist: &'a str,
    pub config: &'a str,
    pub out: &'a str,
    pub report: &'a str,
}

/// The files that the words of a compilation name: four that are read, and three that are saved.
#[derive(Clone, Copy, Debug)]
pub struct CompileFiles<'a> {
    pub library: Option<&'a str>,
    pub netlist: &'a str,
    pub config: &'a str,
    pub cubes: &'a str,
    pub out_netlist: &'a str,
    pub out_patterns: &'a str,
    pub out_report: &'a str,
}

/// The files that the words of a test of certificates name; all are read.
#[derive(Clone, Copy, Debug)]
pub struct CertifyFiles<'a> {
    pub library: Option<&'a str>,
    pub netlist: &'a str,
    pub config: &'a str,
    pub cubes: &'a str,
    pub report: &'a str,
}

/// The numbers of a generated job: its seed, and how many cells it has, 16 to 20,000.
#[derive(Clone, Copy, Debug)]
pub struct JobNumbers {
    pub seed: u64,
    pub size: u32,
}

/// The files that the words of a grading name: three that are read, and one that is saved.
#[derive(Clone, Copy, Debug)]
pub struct GradeFiles<'a> {
    pub library: Option<&'a str>,
    pub netlist: &'a str,
    pub patterns: &'a str,
    pub out: &'a str,
}

/// The numbers of a made configuration: how many channels feed the ring, 1 to 32; how many chains there are, 1 to 1,024, or
/// how many cells one has at most, 1 to 65,536, just one of the two; and how many outputs and mask inputs, 1 to 32, where they
/// are given.
#[derive(Clone, Copy, Debug)]
pub struct HardwareNumbers {
    pub channels: u32,
    pub chains: Option<u32>,
    pub longest: Option<u32>,
    pub outputs: Option<u32>,
    pub masks: Option<u32>,
}

/// The files and numbers that the words of a made configuration name: two files are read, and one is saved.
#[derive(Clone, Copy, Debug)]
pub struct ConfigureFiles<'a> {
    pub library: Option<&'a str>,
    pub netlist: &'a str,
    pub out: &'a str,
    pub numbers: HardwareNumbers,
}

/// The files of a search of cubes, of which three are read and two are saved, the clock of its captures, and its limit of dead nodes,
/// at most 1,000,000.
#[derive(Clone, Copy, Debug)]
pub struct SeekFiles<'a> {
    pub library: Option<&'a str>,
    pub netlist: &'a str,
    pub config: &'a str,
    pub clock: &'a str,
    pub limit: u32,
    pub out_cubes: &'a str,
    pub out_report: &'a str,
}

/// A command with its files, or with its numbers.
#[derive(Clone, Copy, Debug)]
pub enum Command<'a> {
    Replay(ReplayFiles<'a>),
    Scan(ScanFiles<'a>),
    Compile(CompileFiles<'a>),
    Certify(CertifyFiles<'a>),
    Generate(JobNumbers),
    Grade(GradeFiles<'a>),
    Configure(ConfigureFiles<'a>),
    Seek(SeekFiles<'a>),
}
