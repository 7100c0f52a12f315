//! A design made ready for settling.

ghost use Rattle.std.specs.Prelude.{◌≡◌, ◌++◌, ◌∷◌, [], OnOk, OnErr};
ghost use Rattle.dft_logic.specs.Circuit as spec;

use crate::packed::Table;
use dft_cells::Gate;
use dft_netlist::{InstanceId, NetId};
use std::alloc::{AllocError, Global};
use std::marker::Model;

/// Where an input pin takes its value from.
#[derive(Clone, Copy)]
pub enum Operand {
    Net(NetId),
    Tied(bool),
    /// Nothing: the pin of this number of an instance is joined to no net.
    Loose(InstanceId, u32),
}

/// Operands in order. A clause sees them as a list.
pub struct Operands {
    operands: Vec<Operand>,
}

// One call for all fields, so that the proof of what owns a value stays short.
impl Drop for Operands {
    fn drop(self) {
        let Operands { operands: _ } = self;
    }
}

impl Model for Operands {
    ghost use Rattle.std.specs.Prelude.{List};
    ghost use Rattle.dft_logic.specs.declared.circuit.Operand.{Operand};

    ghost Value = { List Operand };

    ghost view = { λ o. o.operands.items };
}

impl Operands {
    /// No operand yet.
    pub fn new(alloc: Global) -> Operands
        ensures { result ≡ [] }
    {
        Operands {
            operands: Vec::new(alloc),
        }
    }

    /// Adds an operand at the end.
    pub fn push(&mut self, operand: Operand) -> Result<(), AllocError>
        ensures ok { OnOk result (self.new ≡ self.old ++ operand ∷ []) }
        ensures err { OnErr result (self.new ≡ self.old) }
    {
        self.operands.push(operand)?;
        Ok(())
    }

    /// The operands.
    pub fn as_slice(&self) -> &[Operand]
        ensures { result.now ≡ self.now }
    {
        &self.operands
    }
}

// Numbers of nets or of instances. A clause sees them as a list.
pub(crate) struct Numbers {
    numbers: Vec<u32>,
}

// One call for all fields, so that the proof of what owns a value stays short.
impl Drop for Numbers {
    fn drop(self) {
        let Numbers { numbers: _ } = self;
    }
}

impl Model for Numbers {
    ghost use Rattle.std.specs.Prelude.{ℕ, List};

    ghost Value = { List ℕ };

    ghost view = { λ n. n.numbers.items };
}

impl Numbers {
    // No number yet.
    pub(crate) fn new(alloc: Global) -> Numbers
        ensures { result ≡ [] }
    {
        Numbers {
            numbers: Vec::new(alloc),
        }
    }

    // Adds a number at the end.
    pub(crate) fn push(&mut self, number: u32) -> Result<(), AllocError>
        ensures ok { OnOk result (self.new ≡ self.old ++ number ∷ []) }
        ensures err { OnErr result (self.new ≡ self.old) }
    {
        self.numbers.push(number)?;
        Ok(())
    }

    // The numbers.
    pub(crate) fn as_slice(&self) -> &[u32]
        ensures { result.now ≡ self.now }
    {
        &self.numbers
    }
}

/// What a net takes its value from.
#[derive(Drop)]
pub enum Op {
    /// The bit of an input port that is no clock.
    Input,
    /// The bit of a clock port.
    Clock,
    Gate(Gate, Operands),
    Joined(Operand),
    /// A flip-flop, by its instance, or its inverse.
    Flop(InstanceId, bool),
    /// A lock-up, by its instance, the net of its clock port, whether it is a wire while that is 1, and its input.
    Lockup(InstanceId, NetId, bool, Operand),
    /// Nothing that is known.
    Free,
}

/// The pins of a scan cell that are there for scan.
#[derive(Clone, Copy)]
pub struct ScanPins {
    pub enable: Operand,
    pub input: Operand,
}

/// A reset or a set, by the net of the port that is 0 where it acts.
#[derive(Clone, Copy)]
pub enum Acting {
    Clear(NetId),
    Preset(NetId),
}

/// What stores a bit, a flip-flop or a lock-up: the net of its clock port, whether it takes its bit as that falls, and
/// its pins.
#[derive(Clone, Copy)]
pub struct FlipFlop {
    pub domain: NetId,
    pub falling: bool,
    pub input: Operand,
    pub scan: Option<ScanPins>,
    pub force: Option<Acting>,
}

/// A lock-up: the net of its clock port, and its input.
#[derive(Clone, Copy)]
pub struct Latch {
    pub domain: NetId,
    pub input: Operand,
}

/// A circuit: what each net takes its value from, by net, in an order in which each comes after what it reads; and by
/// instance what it stores a bit in, and the lock-up that it is, if it is one. Then what is found by tables: the sources; by
/// net the nets that read it and the flip-flops that it resets or sets; and by the net of a clock the nets that show it or its
/// domain's flip-flops and lock-ups, what stores bits in its domain, and its lock-ups. That it hangs together so
/// (`IsCircuit`) holds of every value of the type.
pub struct Circuit {
    pub order: Vec<NetId>,
    pub ops: Vec<Op>,
    pub flops: Vec<FlipFlop>,
    pub latches: Vec<Option<Latch>>,
    pub readers: Table,
    pub sources: Table,
    pub leaves: Table,
    pub cells: Table,
    pub holders: Table,
    pub followers: Table,
}

// One call for all fields, so that the proof of what owns a value stays short.
impl Drop for Circuit {
    fn drop(self) {
        let Circuit {
            order: _,
            ops: _,
            flops: _,
            latches: _,
            readers: _,
            sources: _,
            leaves: _,
            cells: _,
            holders: _,
            followers: _,
        } = self;
    }
}

impl Model for Circuit {
    ghost use Rattle.dft_logic.specs.Circuit as spec;

    ghost Value = { spec.Circuit };

    ghost use Rattle.dft_logic.specs.CircuitShown.{circuit_of, IsSound};

    ghost view = { circuit_of };

    ghost invariant = { IsSound };
}

impl Circuit {
    /// Does nothing: its clause is what holds of every circuit.
    pub fn soundness(&self)
        ensures { spec.IsCircuit self.now }
    {
        let _ = &self.order;
    }
}
