ghost use Rattle.std.specs.Prelude.{◌≡◌, ◌≤◌, ◌<◌, [], false, is_none, if◌then◌else◌, None, Some, Ok, IfErr, IfOk, OnOk, length};
ghost use Rattle.dft_base.specs.Name.{IsName};
ghost use Rattle.dft_cubes.specs.Cubes as spec;
ghost use Rattle.dft_cells.specs.WellFormed.{has_name};
ghost use Rattle.dft_cubes.specs.Cubes.{Begin, BeginTwo, End, IsFault, IsRefused, SetCell, SetPort, Version, begin_refusal, held, names_of};
ghost use Rattle.dft_cubes.specs.declared.error.CubeError.TheVariants.{Q4};
ghost use Rattle.dft_cubes.specs.Taking.{IsTaken, Passes, bare, pending_of, reading_of, refusal_of};

use crate::cube::{Cube, Domains};
use crate::draft::Draft;
use crate::error::CubeError;
use crate::giving::{give_cell, give_port};
use crate::here::Here;
use crate::limits::MAX_CUBES;
use crate::looking::domain_named;
use crate::name_set::NameSet;
use crate::stamps::Stamps;
use dft_base::{Name, Place};
use dft_netlist::Design;
use std::alloc::{AllocError, Global};

// The version of a text that a word tells, if there is such a version.
fn version_of(number: &[u8]) -> Option<u8>
    ensures { result ≡ spec.version_of number.now }
{
    if number == b"1".as_slice() {
        Some(1)
    } else if number == b"2".as_slice() {
        Some(2)
    } else {
        None
    }
}

// What was taken from the lines so far: the version, once it is known, the cubes that have ended, the names of all, and the cube that has not ended.
#[derive(Debug, Drop)]
pub(crate) struct Taken {
    version: Option<u8>,
    cubes: Vec<Cube>,
    names: NameSet,
    pending: Option<Draft>,
    stamps: Stamps,
}

impl Taken {
    // No cube yet.
    pub(crate) fn new(alloc: Global, design: &Design) -> Result<Taken, AllocError>
        ensures reading { IfOk result (λ taken. reading_of taken ≡ record { version = None; cubes = []; pending = None }) }
        ensures taken { IfOk result (IsTaken design.now) }
    {
        let stamps = Stamps::new(alloc, design.instances().len(), design.net_count() as usize)?;
        Ok(Taken {
            version: None,
            cubes: Vec::new(alloc),
            names: NameSet::new(alloc),
            pending: None,
            stamps,
        })
    }

    // The version of the text, where it tells one or none.
    fn or_first(&self) -> u8
        ensures { result ≡ spec.or_first self.now.version }
    {
        match self.version {
            Some(version) => version,
            None => 1,
        }
    }

    // The text is of this version.
    pub(crate) fn version(&mut self, here: &Here<'_>, number: &[u8]) -> Result<(), CubeError>
        requires taken { IsTaken here.now.design.now self.old }
        ensures ok { OnOk result (Passes here.now self.old (Version number.now) self.new) }
        ensures refused { IfErr result (IsFault (refusal_of here.now self.old (Version number.now))) }
    {
        if self.pending.is_some() || self.version.is_some() {
            return Err(CubeError::Q1 { place: here.place });
        }
        self.version = version_of(number);
        if self.version.is_none() {
            return Err(CubeError::Q1 { place: here.place });
        }
        Ok(())
    }

    // The place of a clock among the domains.
    fn domain_of(&self, here: &Here<'_>, clock: &[u8]) -> Result<u8, CubeError>
        requires clock { IsName clock.now }
        requires domains { length here.now.config.now.domains ≤ 16 }
        ensures domain { IfOk result (λ domain. spec.domain_named here.now.config.now clock.now ≡ Some domain) }
        ensures refused { IfErr result (IsFault (if is_none (spec.domain_named here.now.config.now clock.now) then Some (Q4 here.now.place clock.now) else None)) }
    {
        match domain_named(here.config, clock) {
            Some(domain) => Ok(domain as u8),
            None => Err(CubeError::Q4 {
                place: here.place,
                name: Name::from_slice(here.alloc, clock)?,
            }),
        }
    }

    // The domain of the last clock of a cube that may begin.
    fn last_domain(&self, here: &Here<'_>, name: &[u8], clock: &[u8]) -> Result<u8, CubeError>
        requires name { IsName name.now }
        requires clock { IsName clock.now }
        requires domains { length here.now.config.now.domains ≤ 16 }
        requires names { self.now.names ≡ names_of self.now.cubes.items }
        ensures passed { OnOk result (begin_refusal here.now.config.now self.now.cubes.items here.now.place name.now clock.now ≡ None) }
        ensures domain { IfOk result (λ domain. spec.domain_named here.now.config.now clock.now ≡ Some domain) }
        ensures refused { IfErr result (IsFault (begin_refusal here.now.config.now self.now.cubes.items here.now.place name.now clock.now)) }
    {
        let domain = self.domain_of(here, clock)?;
        if self.names.has(name) {
            return Err(CubeError::Q5 {
                place: here.place,
                name: Name::from_slice(here.alloc, name)?,
            });
        }
        if MAX_CUBES <= self.cubes.len() {
            return Err(CubeError::Q9 { place: here.place });
        }
        Ok(domain)
    }

    // A cube with these domains is pending.
    fn open(&mut self, here: &Here<'_>, name: &[u8], domains: Domains) -> Result<(), AllocError>
        requires name { IsName name.now }
        requires taken { IsTaken here.now.design.now self.old }
        requires none { pending_of self.old ≡ None }
        requires few { length self.old.cubes.items < MAX_CUBES }
        requires new { has_name (names_of self.old.cubes.items) name.now ≡ false }
        ensures reading { OnOk result (reading_of self.new ≡ record { version = held self.old.version; cubes = self.old.cubes.items; pending = Some (bare name.now domains) }) }
        ensures taken { OnOk result (IsTaken here.now.design.now self.new) }
    {
        let draft = Draft::new(here.alloc, name, domains)?;
        self.names.add(Vec::from_slice(here.alloc, name)?)?;
        self.pending = Some(draft);
        self.version = Some(self.or_first());
        Ok(())
    }

    // A cube with one clock begins.
    pub(crate) fn begin(
        &mut self,
        here: &Here<'_>,
        name: &[u8],
        clock: &[u8],
    ) -> Result<(), CubeError>
        requires name { IsName name.now }
        requires clock { IsName clock.now }
        requires domains { length here.now.config.now.domains ≤ 16 }
        requires taken { IsTaken here.now.design.now self.old }
        ensures ok { OnOk result (Passes here.now self.old (Begin name.now clock.now) self.new) }
        ensures refused { IfErr result (IsFault (refusal_of here.now self.old (Begin name.now clock.now))) }
    {
        if self.pending.is_some() {
            return Err(CubeError::Q1 { place: here.place });
        }
        let first = self.last_domain(here, name, clock)?;
        let domains = Domains {
            first,
            second: None,
        };
        self.open(here, name, domains)?;
        Ok(())
    }

    // A cube with two clocks begins, where the text is of version 2.
    pub(crate) fn begin_two(
        &mut self,
        here: &Here<'_>,
        name: &[u8],
        clock: &[u8],
        second: &[u8],
    ) -> Result<(), CubeError>
        requires name { IsName name.now }
        requires clock { IsName clock.now }
        requires second { IsName second.now }
        requires domains { length here.now.config.now.domains ≤ 16 }
        requires taken { IsTaken here.now.design.now self.old }
        ensures ok { OnOk result (Passes here.now self.old (BeginTwo name.now clock.now second.now) self.new) }
        ensures refused { IfErr result (IsFault (refusal_of here.now self.old (BeginTwo name.now clock.now second.now))) }
    {
        if self.pending.is_some() || self.or_first() != 2 {
            return Err(CubeError::Q1 { place: here.place });
        }
        let first = self.domain_of(here, clock)?;
        let second = self.last_domain(here, name, second)?;
        let domains = Domains {
            first,
            second: Some(second),
        };
        self.open(here, name, domains)?;
        Ok(())
    }

    // The pending cube gives a cell its bit.
    pub(crate) fn cell(&mut self, here: &Here<'_>, name: &[u8], bit: bool) -> Result<(), CubeError>
        requires name { IsName name.now }
        requires taken { IsTaken here.now.design.now self.old }
        ensures ok { OnOk result (Passes here.now self.old (SetCell name.now bit) self.new) }
        ensures refused { IfErr result (IsFault (refusal_of here.now self.old (SetCell name.now bit))) }
    {
        match &mut self.pending {
            Some(draft) => give_cell(draft, &mut self.stamps, here, name, bit),
            None => Err(CubeError::Q1 { place: here.place }),
        }
    }

    // The pending cube gives a port its bit.
    pub(crate) fn port(&mut self, here: &Here<'_>, name: &[u8], bit: bool) -> Result<(), CubeError>
        requires name { IsName name.now }
        requires taken { IsTaken here.now.design.now self.old }
        ensures ok { OnOk result (Passes here.now self.old (SetPort name.now bit) self.new) }
        ensures refused { IfErr result (IsFault (refusal_of here.now self.old (SetPort name.now bit))) }
    {
        match &mut self.pending {
            Some(draft) => give_port(draft, &mut self.stamps, here, name, bit),
            None => Err(CubeError::Q1 { place: here.place }),
        }
    }

    // The pending cube ends.
    pub(crate) fn end(&mut self, here: &Here<'_>) -> Result<(), CubeError>
        requires { IsTaken here.now.design.now self.old }
        ensures ok { OnOk result (Passes here.now self.old End self.new) }
        ensures refused { IfErr result (IsFault (refusal_of here.now self.old End)) }
    {
        let Some(draft) = self.pending.take() else {
            return Err(CubeError::Q1 { place: here.place });
        };
        self.cubes.push(draft.into_cube())?;
        self.stamps.number += 1;
        Ok(())
    }

    // The cubes, where the text ends behind this line.
    pub(crate) fn finish(self, number: u32) -> Result<Vec<Cube>, CubeError>
        ensures cubes { IfOk result (λ cubes. spec.ended number self.cubes.items (pending_of self) ≡ Ok cubes.items) }
        ensures refused { IfErr result (IsRefused (spec.ended number self.cubes.items (pending_of self))) }
    {
        match self.pending {
            Some(_) => Err(CubeError::Q7 {
                place: Place {
                    line: number,
                    column: 1,
                },
            }),
            None => Ok(self.cubes),
        }
    }
}
