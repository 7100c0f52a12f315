//! Worked examples, as contracts of a function that does nothing.

ghost use Rattle.dft_faults.specs.Examples.{KeepsNet, ListsFaults};

/// The faults of two inverters behind each other, and the design with the net between them stuck.
pub fn worked_faults()
    ensures lists { ListsFaults }
    ensures keeps { KeepsNet }
{}
