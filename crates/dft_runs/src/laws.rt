//! The laws, as contracts of functions that do nothing.

ghost use Rattle.dft_runs.specs.Choices.{ChoicesRun, OrdersExist, RunsExist};
ghost use Rattle.dft_runs.specs.Passes.{RoundPasses, RoundsPass, TurnPasses, TurnsPass};
ghost use Rattle.dft_runs.specs.WiderPorts.{PortsWiden};

/// Runs exist: over any vectors that pulse finitely many clocks there is an order of the edges, and every order, with any
/// clocks at once, start with low clocks and choice of free bits is that of a run. So what holds in every run is never said
/// of none.
pub fn runs_exist()
    ensures choices { ChoicesRun }
    ensures orders { OrdersExist }
    ensures runs { RunsExist }
{}

/// Ports with the same clocks and more resets model each flip-flop that was modelled, and leave what each net means
/// but where it was free.
pub fn ports_widen()
    ensures { PortsWiden }
{}

/// What the abstract cycle knows of a vector for all its halves, from the values before it, is there after each round and
/// after each turn, and is shown at its strobe; so it is vector by vector.
pub fn known_passes()
    ensures round { RoundPasses }
    ensures turn { TurnPasses }
    ensures rounds { RoundsPass }
    ensures turns { TurnsPass }
{}
