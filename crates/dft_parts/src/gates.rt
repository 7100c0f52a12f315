//! Gates, flip-flops and lock-ups that are made.

ghost use Rattle.std.specs.Prelude.{◌≡◌, ◌<◌, ◌≤◌, IsTrue, IfOk, OnOk, length};
ghost use Rattle.dft_cells.specs.WellFormed.{TakesInputs};
ghost use Rattle.dft_netlist.specs.declared.instance.CellRef.TheVariants.{Library};
ghost use Rattle.dft_netlist.specs.Sound.{is_primitive};
ghost use Rattle.dft_parts.specs.Cells.{pins_between};
ghost use Rattle.dft_parts.specs.Recipes.{AreThere, Makes, a_flop, a_gate, a_lockup, an_instance};
ghost use Rattle.dft_parts.specs.Sums.{a_driving_gate};

use crate::parts_builder::PartsBuilder;
use crate::pins::{Between, cell_pins, first_dff, first_lockup, gate_pins, store_pins};
use dft_cells::{CellId, Gate};
use dft_netlist::{CellRef, NetId, NetlistError};

impl PartsBuilder {
    /// Makes a gate primitive (IEEE 1364) between nets that are there.
    pub fn gate(&mut self, kind: Gate, inputs: &[NetId], output: NetId) -> Result<(), NetlistError>
        requires primitive { IsTrue (is_primitive kind) }
        requires width { TakesInputs kind (length inputs.now) }
        requires inputs { AreThere self.old.netlist inputs.now }
        requires output { output.0 < length self.old.netlist.nets }
        ensures makes { Makes (λ _. tt) (a_gate kind inputs.now output) self.old result self.new }
        ensures nets { OnOk result (length self.old.netlist.nets ≤ length self.new.netlist.nets) }
    {
        let pins = gate_pins(self.alloc(), inputs, output)?;
        let cell = CellRef::Gate(kind, inputs.len() as u8);
        self.instance(cell, pins.as_slice())
    }

    /// Makes a gate primitive that drives a net of its own, which is made just before it.
    pub fn driving_gate(&mut self, kind: Gate, inputs: &[NetId]) -> Result<NetId, NetlistError>
        requires primitive { IsTrue (is_primitive kind) }
        requires width { TakesInputs kind (length inputs.now) }
        requires inputs { AreThere self.old.netlist inputs.now }
        ensures makes { Makes (λ net. net) (a_driving_gate kind inputs.now) self.old result self.new }
        ensures there { IfOk result (λ net. net.0 < length self.new.netlist.nets) }
        ensures nets { OnOk result (length self.old.netlist.nets ≤ length self.new.netlist.nets) }
    {
        let output = self.net()?;
        self.gate(kind, inputs, output)?;
        Ok(output)
    }

    /// Makes a flip-flop between nets that are there: the first of the library that has no reset.
    pub fn flop(&mut self, clock: NetId, input: NetId, output: NetId) -> Result<(), NetlistError>
        requires clock { clock.0 < length self.old.netlist.nets }
        requires input { input.0 < length self.old.netlist.nets }
        requires output { output.0 < length self.old.netlist.nets }
        ensures makes { Makes (λ _. tt) (a_flop clock input output) self.old result self.new }
        ensures nets { OnOk result (length self.old.netlist.nets ≤ length self.new.netlist.nets) }
    {
        let cell = first_dff(self.builder().library());
        self.store(
            cell,
            Between {
                clock,
                input,
                output,
            },
        )
    }

    /// Makes a lock-up between nets that are there: the first of the library.
    pub fn lockup(&mut self, clock: NetId, input: NetId, output: NetId) -> Result<(), NetlistError>
        requires clock { clock.0 < length self.old.netlist.nets }
        requires input { input.0 < length self.old.netlist.nets }
        requires output { output.0 < length self.old.netlist.nets }
        ensures makes { Makes (λ _. tt) (a_lockup clock input output) self.old result self.new }
        ensures nets { OnOk result (length self.old.netlist.nets ≤ length self.new.netlist.nets) }
    {
        let cell = first_lockup(self.builder().library());
        self.store(
            cell,
            Between {
                clock,
                input,
                output,
            },
        )
    }

    // Makes an instance of a cell of the library between nets that are there.
    fn store(&mut self, cell: CellId, nets: Between) -> Result<(), NetlistError>
        requires cell { cell.0 < length self.old.netlist.library }
        requires clock { nets.clock.0 < length self.old.netlist.nets }
        requires input { nets.input.0 < length self.old.netlist.nets }
        requires output { nets.output.0 < length self.old.netlist.nets }
        ensures makes { Makes (λ _. tt) (an_instance (Library cell) (pins_between self.old.netlist.library cell nets.clock nets.input nets.output)) self.old result self.new }
        ensures nets { OnOk result (length self.old.netlist.nets ≤ length self.new.netlist.nets) }
    {
        let cell_pins = cell_pins(self.builder().library(), cell);
        let pins = store_pins(self.alloc(), cell_pins, nets)?;
        self.instance(CellRef::Library(cell), pins.as_slice())
    }
}
