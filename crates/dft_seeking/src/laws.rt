//! What holds of all that a search tells.

ghost use Rattle.dft_seeking.specs.Expected.{ExpectedIsShown, ExpectedTells};
ghost use Rattle.dft_seeking.specs.Laws.{SavedAreRead, ToldAreCubes, ToldIsOne, ToldIsTrue};

/// Each cube that is told detects its fault in each assignment that completes it, and of a fault that is told to have none no
/// assignment of bits to all scanned cells and drivable ports detects it.
pub fn told_is_true()
    ensures { ToldIsTrue }
{}

/// A design, a configuration, a domain and a limit have one list of what is told.
pub fn told_is_one()
    ensures { ToldIsOne }
{}

/// What is told are cubes of the design and the configuration: their names differ, each gives a scanned cell and a drivable port once
/// at most. The cube file is read as the cubes that were found, where no name in it begins with `#`, which begins a comment there.
pub fn saved_cubes_are_read()
    ensures cubes { ToldAreCubes }
    ensures read { SavedAreRead }
{}

/// What is expected of a pattern that captures once is what the capture of the values that it gives shows. Where these complete a cube
/// that is told, the design with the fault shows something else somewhere, and both are known there.
pub fn expected_is_captured()
    ensures shown { ExpectedIsShown }
    ensures tells { ExpectedTells }
{}
