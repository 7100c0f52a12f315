//! Laws of reports, as contracts of functions that do nothing.

ghost use Rattle.dft_report_reader.specs.WrittenRead.{ReadIsReadable, ReadIsWritten, WrittenIsRead};

/// The written form of a report is read as that report, where its numbers are below 2^32, its names are printed, and cubes stand where there is a
/// load.
pub fn written_is_read()
    ensures { WrittenIsRead }
{}

/// A text that is read as a report is the written form of that report: there is one text for each report, and no other is read.
pub fn read_is_written()
    ensures { ReadIsWritten }
{}

/// What is read can be read: its names are printed, its numbers are below 2^32, and cubes stand where there is a load. So by the laws above a text is
/// refused exactly where it is not the written form of such a report.
pub fn read_is_readable()
    ensures { ReadIsReadable }
{}
