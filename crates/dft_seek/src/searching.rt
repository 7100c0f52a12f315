//! The search of a cube for a stuck net.

ghost use Rattle.std.specs.Prelude.{◌≡◌, ◌≤◌, ◌+◌, ◌∷◌, [], length, true, false, vec_capacity, IfOk};
ghost use Rattle.dft_faults.specs.Faulty.{IsFault};
ghost use Rattle.dft_seek.specs.Cones.{AreNeeded, AreOnce, AreTaking, cone_of};
ghost use Rattle.dft_seek.specs.Nodes.{AreAt, AreMarkable, AreOpen};
ghost use Rattle.dft_faults.specs.declared.fault.Fault.{Fault as FaultOf};
ghost use Rattle.dft_seek.specs.Rigs.{IsRig, search_in};
ghost use Rattle.dft_seek.specs.Sought.{IsSought, cube_at};
ghost use Rattle.dft_seek.specs.Turns as spec;
ghost use Rattle.dft_seek.specs.Turns.{IsLeaf};
ghost use Rattle.dft_seek.specs.declared.found.Found.TheVariants as found;

use crate::assigning::rest;
use crate::cones::Cone;
use crate::found::Found;
use crate::looking::{Values, Verdict};
use crate::rig::Rig;
use dft_base::{Listed, Name};
use dft_cubes::{Cube, Domains};
use dft_faults::Fault;
use dft_netlist::{InstanceId, NetId};
use std::alloc::{AllocError, Global};

// The cells that have bits, with these.
fn given_cells(
    alloc: Global,
    cells: &[InstanceId],
    bits: &[bool],
) -> Result<Vec<(InstanceId, bool)>, AllocError>
    ensures { IfOk result (λ given. given.items ≡ spec.paired cells.now bits.now) }
{
    let mut given = Vec::new(alloc);
    let count = cells.len().min(bits.len());
    for place in 0..count {
        given.push((cells[place], bits[place]))?;
    }
    Ok(given)
}

// The ports that have bits, with these.
fn given_ports(
    alloc: Global,
    ports: &[NetId],
    bits: &[bool],
) -> Result<Vec<(NetId, bool)>, AllocError>
    ensures { IfOk result (λ given. given.items ≡ spec.paired ports.now bits.now) }
{
    let mut given = Vec::new(alloc);
    let count = ports.len().min(bits.len());
    for place in 0..count {
        given.push((ports[place], bits[place]))?;
    }
    Ok(given)
}

impl Rig<'_> {
    // The cube of a node.
    fn cube(
        &self,
        alloc: Global,
        name: Name,
        cone: &Cone,
        bits: &[bool],
    ) -> Result<Found, AllocError>
        ensures { IfOk result (λ f. f ≡ found.Cube (cube_at name self.now.domain (cone_of cone.now).variables bits.now)) }
    {
        let cells = given_cells(alloc, &cone.cells, bits)?;
        let ports = given_ports(alloc, &cone.ports, rest(bits, cone.cells.len()))?;
        Ok(Found::Cube(Cube {
            name,
            domains: Domains {
                first: self.domain,
                second: None,
            },
            cells: Listed::from_vec(cells),
            ports: Listed::from_vec(ports),
        }))
    }

    // Goes to the node after a dead one: the last 0 is turned to 1, and what comes after it is left off. Whether there is one.
    fn turn(&self, cone: &Cone, bits: &mut Vec<bool>, v: &mut Values) -> bool
        requires rig { IsRig self.now }
        requires once { AreOnce self.now cone.now }
        requires marks { AreMarkable self.now v.old }
        requires at { AreAt cone.now bits.old.items v.old }
        ensures opens { (f : FaultOf) → AreOpen self.now f cone.now.needed.items v.old → AreOpen self.now f cone.now.needed.items v.new }
        ensures at { AreAt cone.now bits.new.items v.new }
        ensures room { vec_capacity bits.new ≡ vec_capacity bits.old }
        ensures few { length bits.new.items ≤ length bits.old.items }
        ensures turned { result ≡ true → spec.pending bits.old.items ≡ bits.new.items ∷ spec.pending bits.new.items }
        ensures ended { result ≡ false → spec.pending bits.old.items ≡ [] }
    {
        while let Some(bit) = bits.pop() {
            self.shorten(cone, bits, v);
            if !bit {
                self.extend(cone, bits, true, v);
                return true;
            }
        }
        false
    }

    // Goes on from a node to its first bits 0 as long as the search goes on there. Whether the last node is found; else it is dead.
    fn descend(&self, fault: Fault, cone: &Cone, bits: &mut Vec<bool>, v: &mut Values) -> bool
        requires rig { IsRig self.now }
        requires fault { IsFault self.now.design.now fault }
        requires takes { AreTaking self.now cone.now.responses.items }
        requires needs { AreNeeded self.now fault cone.now }
        requires once { AreOnce self.now cone.now }
        requires opens { AreOpen self.now fault cone.now.needed.items v.old }
        requires at { AreAt cone.now bits.old.items v.old }
        requires room { length cone.now.cells.items + length cone.now.ports.items ≤ vec_capacity bits.old }
        requires few { length bits.old.items ≤ length cone.now.cells.items + length cone.now.ports.items }
        ensures opens { AreOpen self.now fault cone.now.needed.items v.new }
        ensures at { AreAt cone.now bits.new.items v.new }
        ensures room { vec_capacity bits.new ≡ vec_capacity bits.old }
        ensures few { length bits.new.items ≤ length cone.now.cells.items + length cone.now.ports.items }
        ensures leaf { IsLeaf (search_in self.now fault) (cone_of cone.now) bits.old.items bits.new.items result }
    {
        for _depth in 0..cone.cells.len() + cone.ports.len() + 1 {
            match self.look(fault, cone, bits, v) {
                Verdict::Found => return true,
                Verdict::Dead => return false,
                Verdict::Open => self.extend(cone, bits, false, v),
            }
        }
        false
    }

    // What a search of a fault tells.
    pub(crate) fn seek(
        &self,
        alloc: Global,
        fault: Fault,
        limit: u32,
        name: Name,
    ) -> Result<Found, AllocError>
        requires rig { IsRig self.now }
        requires fault { IsFault self.now.design.now fault }
        ensures { IfOk result (IsSought (search_in self.now fault) limit name) }
    {
        let cone = self.cone(alloc, fault)?;
        let mut values = self.values(alloc, fault, &cone)?;
        let mut bits = Vec::with_capacity(alloc, cone.cells.len() + cone.ports.len())?;
        for _dead in 0..limit {
            if self.descend(fault, &cone, &mut bits, &mut values) {
                return self.cube(alloc, name, &cone, &bits);
            }
            if !self.turn(&cone, &mut bits, &mut values) {
                return Ok(Found::NotTestable);
            }
        }
        if self.descend(fault, &cone, &mut bits, &mut values) {
            return self.cube(alloc, name, &cone, &bits);
        }
        Ok(Found::Aborted)
    }
}
