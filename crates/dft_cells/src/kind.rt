ghost use Rattle.std.specs.Prelude.{◌≡◌};
ghost use Rattle.dft_cells.specs.Pins as pins;

/// What a gate, a table or a tie computes (IEEE 1364 gate tables).
#[derive(Clone, Copy, Debug, PartialEq, Eq)]
pub enum Gate {
    /// The input.
    Buf,
    /// The inverse of the input.
    Inv,
    And,
    Nand,
    Or,
    Nor,
    /// Whether an odd number of inputs are 1.
    Xor,
    /// Whether an even number of inputs are 1.
    Xnor,
    /// First, second and select: select 1 gives the second.
    Mux2,
    /// The bit of the number at the sum of `input i` times `2^i`.
    Table(u64),
    /// Constant 0.
    Tie0,
    /// Constant 1.
    Tie1,
}

/// What acts on a flip-flop at once.
#[derive(Clone, Copy, Debug, PartialEq, Eq)]
pub enum Forcing {
    Nothing,
    /// A reset that acts at 0.
    Reset,
    /// A set that acts at 0.
    Set,
}

/// What a flip-flop has. It takes D at the rise of its clock.
#[derive(Clone, Copy, Debug, PartialEq, Eq)]
pub struct Flop {
    pub force: Forcing,
    /// Whether it has a scan input, which it takes where its scan enable is 1.
    pub scan: bool,
}

/// What a cell does (flip-flops as their library cells are named).
#[derive(Clone, Copy, Debug, PartialEq, Eq)]
pub enum Kind {
    /// A gate, a table or a tie.
    Gate(Gate),
    Flop(Flop),
    /// A latch that is a wire while its clock is low and holds while it is high.
    Lockup,
    /// A cell that is not modelled: its outputs may have any bit at any moment.
    Opaque,
}

/// The kind dff: a flip-flop with no more than its clock and its data input.
pub const DFF: Kind = Kind::Flop(Flop {
    force: Forcing::Nothing,
    scan: false,
});

/// What a pin is for.
#[derive(Clone, Copy, Debug, PartialEq, Eq)]
pub enum Role {
    /// An input of a gate, a table or an opaque cell.
    Input,
    /// The clock of a flip-flop or a lock-up.
    Clock,
    /// The data input of a flip-flop or a lock-up.
    Din,
    /// 0 clears the flip-flop.
    Reset,
    /// 0 sets the flip-flop.
    Preset,
    /// The scan input.
    ScanIn,
    /// Where it is 1 the flip-flop takes its scan input.
    ScanEnable,
    /// An output.
    Output,
    /// The inverse of a flip-flop's output.
    Inverted,
}

impl Gate {
    /// Whether this may have so many inputs (IEEE 1364: gates have one or more; at most eight are read here). A tie has none of its own, so
    /// that any number will do.
    pub fn takes_inputs(self, inputs: usize) -> bool
        ensures { result ≡ pins.takes_inputs self inputs }
    {
        match self {
            Gate::Buf | Gate::Inv => inputs == 1,
            Gate::And | Gate::Nand | Gate::Or | Gate::Nor | Gate::Xor | Gate::Xnor => {
                1 <= inputs && inputs <= 8
            },
            Gate::Mux2 => inputs == 3,
            Gate::Table(_) => 1 <= inputs && inputs <= 6,
            Gate::Tie0 | Gate::Tie1 => true,
        }
    }

    /// Whether this is a tie.
    pub fn is_tie(self) -> bool
        ensures { result ≡ pins.is_tie self }
    {
        matches!(self, Gate::Tie0 | Gate::Tie1)
    }
}

impl Kind {
    /// Whether a cell of this kind may have so many inputs. A flip-flop, a lock-up or an opaque cell has pins of its own, so that any number
    /// will do.
    pub fn takes_inputs(self, inputs: usize) -> bool
        ensures { result ≡ pins.kind_takes_inputs self inputs }
    {
        match self {
            Kind::Gate(gate) => gate.takes_inputs(inputs),
            Kind::Flop(_) | Kind::Lockup | Kind::Opaque => true,
        }
    }
}

impl Role {
    /// Whether this is an input of a gate, a table or an opaque cell.
    pub fn is_input(self) -> bool
        ensures { result ≡ pins.is_input self }
    {
        matches!(self, Role::Input)
    }

    /// Whether this is an output, or the inverse of one: the pin drives the net that it is joined to.
    pub fn is_output(self) -> bool
        ensures { result ≡ pins.is_output self }
    {
        matches!(self, Role::Output | Role::Inverted)
    }
}
