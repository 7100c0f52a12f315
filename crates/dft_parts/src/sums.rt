//! Sums that are made.

ghost use Rattle.std.specs.Prelude.{◌≡◌, ◌<◌, ◌≤◌, IfOk, OnOk, length};
ghost use Rattle.dft_parts.specs.Recipes.{AreThere, Makes};
ghost use Rattle.dft_parts.specs.Sums.{a_sum};
ghost use Rattle.dft_parts.specs.Sums as spec;

use crate::lists::push_net;
use crate::parts_builder::PartsBuilder;
use dft_cells::Gate;
use dft_netlist::{NetId, NetlistError};

impl PartsBuilder {
    /// Makes the sum of these nets, of which there is one at least: neighbours are joined by XOR gates of two inputs, an odd
    /// last net is passed on, and this is repeated until one net is left.
    pub fn sum(&mut self, terms: &[NetId]) -> Result<NetId, NetlistError>
        requires some { 0 < length terms.now }
        requires there { AreThere self.old.netlist terms.now }
        ensures makes { Makes (λ net. net) (a_sum terms.now) self.old result self.new }
        ensures there { IfOk result (λ net. net.0 < length self.new.netlist.nets) }
        ensures nets { OnOk result (length self.old.netlist.nets ≤ length self.new.netlist.nets) }
    {
        let mut left = Vec::from_slice(self.alloc(), terms)?;
        while left.len() > 1 {
            left = self.pairs(&left)?;
        }
        Ok(left[0])
    }

    // Joins neighbours by XOR gates, two by two, and passes an odd last net on.
    fn pairs(&mut self, nets: &[NetId]) -> Result<Vec<NetId>, NetlistError>
        requires { AreThere self.old.netlist nets.now }
        ensures makes { Makes (λ joined. joined.items) (spec.pairs nets.now) self.old result self.new }
        ensures there { IfOk result (λ joined. AreThere self.new.netlist joined.items) }
        ensures nets { OnOk result (length self.old.netlist.nets ≤ length self.new.netlist.nets) }
    {
        let mut joined = Vec::new(self.alloc());
        let mut place = 0;
        while place + 1 < nets.len() {
            let net = self.driving_gate(Gate::Xor, &[nets[place], nets[place + 1]])?;
            push_net(&mut joined, net)?;
            place += 2;
        }
        if place < nets.len() {
            push_net(&mut joined, nets[place])?;
        }
        Ok(joined)
    }
}
