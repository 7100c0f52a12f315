//! Laws of cubes' lines, as contracts of functions that do nothing.

ghost use Rattle.dft_cube_reports.specs.Laws.{CubesHaveLines};

/// Of the cubes of a text that are placed each has its lines in order, and none is left out: under its name its pattern, all sums of its
/// certificate, or the name of the cell that is not scanned.
pub fn cubes_have_lines()
    ensures { CubesHaveLines }
{}
