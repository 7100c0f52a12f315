//! Laws of certified reports, as contracts of functions that do nothing.

ghost use Rattle.dft_certify_laws.specs.Compiled.{CompiledCertifies};
ghost use Rattle.dft_certify_laws.specs.InRuns.{CertifiedInRuns};
ghost use Rattle.dft_certify_laws.specs.Read.{CompiledReportIsRead};
ghost use Rattle.dft_certify_laws.specs.Written.{WrittenCertifies};

/// Where a report is certified, no table of channel bits loads a cube that it calls unsolvable into the scanned netlist, in any run.
pub fn certified_in_runs()
    ensures { CertifiedInRuns }
{}

/// A report whose entries are those of the cubes of a text, placed as a compilation places them, passes every check.
pub fn written_certifies()
    ensures { WrittenCertifies }
{}

/// The report of a compilation passes every check against the same design, configuration and cubes.
pub fn compiled_certifies()
    ensures { CompiledCertifies }
{}

/// The text of the report that a compilation gives is read as a report that passes every check against the same design, configuration and
/// cubes.
pub fn compiled_report_is_read()
    ensures { CompiledReportIsRead }
{}
