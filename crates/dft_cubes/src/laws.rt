//! What holds of the cubes of every text.

ghost use Rattle.dft_cubes.specs.Laws.{CubesAreSound};

/// The cubes of a text have names that differ, and each gives a cell and a port once at most. A cube's clock is a
/// domain, its cells are instances with names, and its ports bits of input ports that are no clocks and no resets of the
/// configuration.
pub fn cubes_are_sound()
    ensures { CubesAreSound }
{}
