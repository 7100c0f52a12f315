//! Laws of generated jobs, as contracts of functions that do nothing.

ghost use Rattle.dft_generate_laws.specs.Laws.{ConfigurationIsRead, CubesAreRead, DesignsAreAccepted, JobsAreRead, NetlistsAreRead, PatternTextsFit, PatternsFit, ReportsFit, ScannedAreShort, SeedsGiveWords, TextsAreShort};

/// The law that the netlist text of every size from 16 to 20,000, from whatever words, stands for the stated design over the standard
/// library: so it is read, and as this design.
pub fn netlists_are_read()
    ensures { NetlistsAreRead }
{}

/// The law that no check before the cubes refuses that design with the stated configuration: no scan rule, no limit of the plan, and
/// nothing that insertion adds.
pub fn designs_are_accepted()
    ensures { DesignsAreAccepted }
{}

/// The law that the cubes text of every size, from words that are enough for it, is read for that design and the stated
/// configuration as the stated cubes; and that the words of every seed are enough.
pub fn cubes_are_read()
    ensures cubes { CubesAreRead }
    ensures words { SeedsGiveWords }
{}

/// The law that the configuration text of generated jobs is read as the stated configuration.
pub fn configuration_is_read()
    ensures { ConfigurationIsRead }
{}

/// The law that the three texts of the job of every seed and size are read: the netlist as the stated design, the configuration and
/// the cubes as the stated ones.
pub fn jobs_are_read()
    ensures { JobsAreRead }
{}

/// The law that up to a size of 16,240 the patterns of these cubes, however the cubes are placed, take no more vectors than a reader of
/// pattern texts takes.
pub fn patterns_fit()
    ensures { PatternsFit }
{}

/// The law that of every size, and however the cubes are placed, the text of their patterns is no longer than a pattern text may be.
pub fn pattern_texts_fit()
    ensures { PatternTextsFit }
{}

/// The law that however the cubes are placed, the report of them is no longer than a report may be.
pub fn reports_fit()
    ensures { ReportsFit }
{}

/// The law that the netlist text that comes of every size is short, far below the limit of a netlist file.
pub fn scanned_texts_are_short()
    ensures { ScannedAreShort }
{}

/// The law that the texts of the job of every seed and size are short, each far below the limit of its file.
pub fn texts_are_short()
    ensures { TextsAreShort }
{}
