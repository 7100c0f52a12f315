//! Worked examples, as contracts of a function that does nothing.

ghost use Rattle.dft_configure_laws.specs.Examples.{MovesOfEight, PhasesOfEight, RingOfEight, RunsOfEight};

/// The ring of eight stages: its taps, and its injectors for one channel and for two, and no others. It has the polynomial, and one bit is back
/// after 255 cycles and not before. What a phase set becomes in a cycle, and the phase sets of one chain and of two, and no others.
pub fn worked_ring()
    ensures ring { RingOfEight }
    ensures runs { RunsOfEight }
    ensures moves { MovesOfEight }
    ensures phases { PhasesOfEight }
{}
