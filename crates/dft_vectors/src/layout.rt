//! What vectors are made from.

ghost use Rattle.std.specs.Prelude.{◌≡◌, ◌++◌, length, IfOk, OnOk};
ghost use Rattle.dft_cubes.specs.declared.cube.Merged.{Merged as AMerged};
ghost use Rattle.dft_vectors.specs.AddedPorts.{capturing};
ghost use Rattle.dft_vectors.specs.OwnPorts as own;
ghost use Rattle.dft_vectors.specs.Shown.{IsLayout};
ghost use Rattle.dft_vectors.specs.VectorList as spec;

use crate::acts::{push_compared, push_ignored};
use crate::added::{Segment, push_capturing, segments};
use crate::own::{OwnPorts, own_ports, push_captured, push_quiet};
use dft_base::Tri;
use dft_cubes::Merged;
use dft_patterns::Act;
use dft_stitch::Planned;
use std::alloc::{AllocError, Global};

// A planned design, and what is looked up in it once.
pub(crate) struct Layout<'a> {
    pub(crate) alloc: Global,
    pub(crate) planned: &'a Planned<'a>,
    pub(crate) own: OwnPorts,
    pub(crate) segments: Vec<Segment>,
}

// One call for all fields, so that the proof of what owns a value stays short.
impl Drop for Layout<'_> {
    fn drop(self) {
        let Layout {
            alloc: _,
            planned: _,
            own: _,
            segments: _,
        } = self;
    }
}

// What vectors of a planned design are made from.
pub(crate) fn look_up<'a>(alloc: Global, planned: &'a Planned<'a>) -> Result<Layout<'a>, AllocError>
    ensures layout { IfOk result IsLayout }
    ensures planned { IfOk result (λ l. l.planned.now ≡ planned.entry.now) }
{
    planned.soundness();
    let own = own_ports(alloc, planned.design(), planned.config())?;
    let segments = segments(alloc, planned.config())?;
    Ok(Layout {
        alloc,
        planned,
        own,
        segments,
    })
}

impl<'a> Layout<'a> {
    // Adds the acts of outputs that are not compared.
    fn push_unseen(&self, acts: &mut Vec<Act>) -> Result<(), AllocError>
        requires { IsLayout self.now }
        ensures { OnOk result (acts.new.items ≡ acts.old.items ++ own.ignored (length self.now.planned.now.config.compactor.groups)) }
    {
        push_ignored(
            acts,
            self.planned.config().compactor().groups.as_slice().len(),
        )
    }

    // Adds the acts of the set-up vector.
    pub(crate) fn push_set_up(&self, acts: &mut Vec<Act>) -> Result<(), AllocError>
        requires { IsLayout self.now }
        ensures { OnOk result (acts.new.items ≡ acts.old.items ++ spec.set_up_acts self.now.planned.now.design self.now.planned.now.config) }
    {
        push_quiet(acts, &self.own.inputs)?;
        push_capturing(acts, self.planned.config(), true)?;
        push_ignored(acts, self.own.outputs)?;
        self.push_unseen(acts)?;
        Ok(())
    }

    // Adds the acts of a capture vector of a pattern, its last one or one before it: a domain's clock pulses, and outputs
    // have these values.
    pub(crate) fn push_capture(
        &self,
        acts: &mut Vec<Act>,
        merged: &Merged,
        domain: u8,
        last: bool,
        outputs: &[Tri],
    ) -> Result<(), AllocError>
        requires { IsLayout self.now }
        ensures { OnOk result (acts.new.items ≡ acts.old.items ++ spec.capture_with self.now.planned.now.design self.now.planned.now.config merged.now domain (capturing last self.now.planned.now.config) outputs.now) }
    {
        push_captured(self.alloc, acts, &self.own, merged, domain)?;
        push_capturing(acts, self.planned.config(), last)?;
        push_compared(acts, outputs)?;
        self.push_unseen(acts)
    }
}
