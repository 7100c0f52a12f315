//! Laws of flat designs.

ghost use Rattle.dft_hier.specs.Laws.{FlatIsOneForOne, GivenAreOver, GivesOne, OneModuleGives};

/// A text stands for one design at most.
pub fn texts_give_one_design()
    ensures { GivesOne }
{}

/// The nets and instances of a flat design are those at all paths, one for one and in order, and each instance has its cell.
pub fn flat_designs_are_one_for_one()
    ensures { FlatIsOneForOne }
{}

/// What a text stands for is over the cells that it was read over, and has the name of none of them.
pub fn given_designs_are_over()
    ensures { GivenAreOver }
{}

/// A text of one module that has no cell's name stands for the design that it stands for alone.
pub fn one_module_gives_its_design()
    ensures { OneModuleGives }
{}
