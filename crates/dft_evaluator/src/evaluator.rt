//! A design's nets with their values in 512 patterns.

ghost use Rattle.std.specs.Prelude.{◌≡◌, ℕ, ◌<◌, length, replicate, IfOk};
ghost use Rattle.dft_base.specs.declared.tri.Tri.TheVariants.{Unknown};
ghost use Rattle.dft_netlist.specs.Netlist.{Netlist};
ghost use Rattle.dft_behavior.specs.Logic.{Ports, logic_of};
ghost use Rattle.dft_behavior.specs.Settled.{TriSources, IsTriSettled};
ghost use Rattle.dft_evaluator.specs.Wides.{unknown_wide, IsWide, value_in};
ghost use Rattle.dft_evaluator.specs.Evaluations.{IsFor, IsSet, IsSetWide, IsSettledIn, AreGiven, value_at};

use crate::sweeping::sweep;
use crate::wides::{unknown, value_in, with_value};
use dft_base::Tri;
use dft_lanes::Wide;
use dft_logic::{Circuit, compile};
use dft_netlist::{Design, NetId};
use std::alloc::{AllocError, Global};
use std::marker::Model;

/// The values of a design's nets in 512 patterns at once, settled from those of its sources: the bits of input ports, the
/// outputs of flip-flops, lock-ups and opaque cells, and nets that nothing drives. A clause sees them by pattern and net.
pub struct Evaluator {
    circuit: Circuit,
    values: Vec<Wide>,
}

// One call for all fields, so that the proof of what owns a value stays short.
impl Drop for Evaluator {
    fn drop(self) {
        let Evaluator {
            circuit: _,
            values: _,
        } = self;
    }
}

impl Model for Evaluator {
    ghost use Rattle.dft_evaluator.specs.Evaluations.{Evaluation};

    ghost Value = { Evaluation };

    ghost use Rattle.dft_evaluator.specs.EvaluatorShown.{evaluation_of, IsEvaluator};

    ghost view = { evaluation_of };

    ghost invariant = { IsEvaluator };
}

impl Evaluator {
    /// The evaluator of a design, in which every source is Unknown in all patterns. The other calls take no memory.
    pub fn prepare(alloc: Global, design: &Design) -> Result<Evaluator, AllocError>
        ensures design { IfOk result (IsFor design.now) }
        ensures unknown { IfOk result (λ e. (pattern net : ℕ) → value_at e pattern net ≡ Unknown) }
    {
        let circuit = compile(alloc, design, &[])?;
        let values = blank(alloc, design.net_count())?;
        Ok(Evaluator { circuit, values })
    }

    /// Sets the value of a net in pattern 0. The inverted output of a flip-flop is set to the inverse of its bit. What is set
    /// at a net that is no source counts for nothing once the nets are settled.
    pub fn set_source(&mut self, net: NetId, value: Tri)
        requires { net.0 < length self.old.wides }
        ensures { IsSet self.old 0 net.0 value self.new }
    {
        self.set_source_at(net, 0, value);
    }

    /// Sets the value of a net in one of the 512 patterns.
    pub fn set_source_at(&mut self, net: NetId, pattern: u16, value: Tri)
        requires net { net.0 < length self.old.wides }
        requires pattern { pattern < 512 }
        ensures { IsSet self.old pattern net.0 value self.new }
    {
        let wide = with_value(&self.values[net.0 as usize], pattern, value);
        self.values[net.0 as usize] = wide;
    }

    /// Sets the values of a net in all patterns.
    pub fn set_source_wide(&mut self, net: NetId, wide: &Wide)
        requires net { net.0 < length self.old.wides }
        requires wide { IsWide wide.now (value_in wide.now) }
        ensures { IsSetWide self.old net.0 wide.now self.new }
    {
        self.values[net.0 as usize] = *wide;
    }

    /// Settles all nets in all patterns, from the sources as they were set last.
    pub fn settle(&mut self)
        ensures settled { IsSettledIn self.old self.new }
        ensures design { (n : Netlist) → IsFor n self.old → IsFor n self.new }
        // whatever ports are clocks and resets, the values are those that are settled from what the sources show
        ensures values { (n : Netlist) (ports : Ports) (s : TriSources) (pattern : ℕ) → IsFor n self.old → pattern < 512 → AreGiven (logic_of n ports).net s (value_at self.old pattern)
            → IsTriSettled (logic_of n ports) s (value_at self.new pattern) }
    {
        sweep(&self.circuit, &mut self.values);
    }

    /// The value of a net in pattern 0, and Unknown for a number past the end.
    pub fn value(&self, net: NetId) -> Tri
        ensures { result ≡ value_at self.now 0 net.0 }
    {
        self.value_at(net, 0)
    }

    /// The value of a net in one of the 512 patterns, and Unknown for a number past the end.
    pub fn value_at(&self, net: NetId, pattern: u16) -> Tri
        requires { pattern < 512 }
        ensures { result ≡ value_at self.now pattern net.0 }
    {
        match self.values.get(net.0 as usize) {
            Some(wide) => value_in(wide, pattern),
            None => Tri::Unknown,
        }
    }
}

// Either for each net in each pattern.
fn blank(alloc: Global, nets: u32) -> Result<Vec<Wide>, AllocError>
    ensures { IfOk result (λ wides. wides.items ≡ replicate nets unknown_wide) }
{
    let mut wides = Vec::new(alloc);
    wides.resize(nets as usize, unknown())?;
    Ok(wides)
}
