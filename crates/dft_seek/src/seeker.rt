//! The search of cubes, for one fault after another.

ghost use Rattle.std.specs.Prelude.{◌≡◌, ◌<◌, length, IfOk};
ghost use Rattle.dft_faults.specs.Faulty.{IsFault};
ghost use Rattle.dft_seek.specs.Seeking.{sought_by};
ghost use Rattle.dft_seek.specs.Sought.{IsSought};

use crate::found::Found;
use crate::rig::{Rig, prepared};
use dft_base::Name;
use dft_faults::Fault;
use dft_stitch::Planned;
use std::alloc::{AllocError, Global};
use std::marker::Model;

/// What seeks test cubes for the stuck nets of a planned design, which capture once in one domain. A clause sees the design, the
/// configuration and the domain.
#[derive(Drop)]
pub struct Seeker<'a> {
    rig: Rig<'a>,
}

impl<'a> Model for Seeker<'a> {
    ghost use Rattle.dft_seek.specs.Seeking.{Seeking};

    ghost Value = { Seeking };

    ghost use Rattle.dft_seek.specs.SeekerShown.{seeking_of, IsSeeker};

    ghost view = { seeking_of };

    ghost invariant = { IsSeeker };
}

impl<'a> Seeker<'a> {
    /// What seeks cubes of a planned design that capture once in this domain, by its place in the configuration. What is the
    /// same for all faults is found here.
    pub fn prepare(
        alloc: Global,
        planned: &Planned<'a>,
        domain: u8,
    ) -> Result<Seeker<'a>, AllocError>
        ensures { IfOk result (λ s. s ≡ record { design = planned.entry.now.design; config = planned.entry.now.config; domain = domain }) }
    {
        let rig = prepared(alloc, planned, domain)?;
        Ok(Seeker { rig })
    }

    /// What a search of a fault tells, with so many dead nodes at most: a cube of this name, that no assignment detects the fault, or
    /// that there are more dead nodes.
    pub fn seek(
        &self,
        alloc: Global,
        fault: Fault,
        limit: u32,
        name: Name,
    ) -> Result<Found, AllocError>
        requires { IsFault self.now.design fault }
        ensures { IfOk result (IsSought (sought_by self.now fault) limit name) }
    {
        self.rig.seek(alloc, fault, limit, name)
    }
}
