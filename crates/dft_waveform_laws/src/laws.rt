//! Laws about waveforms, as contracts of functions that do nothing.

ghost use Rattle.dft_waveform_laws.specs.Laws.{ActsByTable, BegunByTable, TimesByPairs};

/// The events that may stand in a pattern text so far are those with which a waveform of the table begins.
pub fn begun_by_table()
    ensures { BegunByTable }
{}

/// What a whole waveform does is what the table says.
pub fn acts_by_table()
    ensures { ActsByTable }
{}

/// The times of a table of waveforms fit its period exactly where each pair of them does.
pub fn times_by_pairs()
    ensures { TimesByPairs }
{}
