//! Laws of what netlist texts say.

ghost use Rattle.dft_modules.specs.Laws.{SaidAreModules};
ghost use Rattle.dft_verilog.specs.Buildable.{BuildableAreBuilt, ModulesAreBuildable};
ghost use Rattle.dft_verilog.specs.Laws.{StandsForOne};

/// The law that no part is refused of a draft whose printed names differ and that keeps the limits.
pub fn distinct_names_are_built()
    ensures { BuildableAreBuilt }
{}

/// The law that what a text without a fault says is such a draft.
pub fn modules_are_buildable()
    ensures { ModulesAreBuildable }
{}

/// The law that a text stands for one netlist at most.
pub fn texts_stand_for_one_netlist()
    ensures { StandsForOne }
{}

/// The law that the modules that a text of several says are sound, and that each has a name that no cell and no module before
/// it has.
pub fn said_modules_are_sound()
    ensures { SaidAreModules }
{}
