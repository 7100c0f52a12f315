//! What holds of written cubes.

ghost use Rattle.dft_cubes_out.specs.Laws.{WrittenCubesAreRead};

/// Written cubes are read as these cubes, where each captures once, gives flip-flops that may be scanned, and no name begins with
/// `#`, which begins a comment there.
pub fn written_cubes_are_read()
    ensures { WrittenCubesAreRead }
{}
