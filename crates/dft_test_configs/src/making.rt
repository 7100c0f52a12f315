//! The configuration of a shape.

ghost use Rattle.std.specs.Prelude.{◌≡◌, IfOk, IsTrue};
ghost use Rattle.dft_config.specs.Shown.{drafted};
ghost use Rattle.dft_test_configs.specs.Shapes as spec;
ghost use Rattle.dft_test_configs.specs.Tests.{is_in_range};

use crate::lists::{listed, lists, names};
use crate::shape::Shape;
use dft_base::{Listed, Name};
use dft_config::{Clocking, CompactorConfig, Config, Draft, Loading, PortNames, RingConfig};
use std::alloc::{AllocError, Global};

/// The configuration of a shape, which is in range.
pub fn config_of(alloc: Global, shape: &Shape) -> Result<Config, AllocError>
    requires named { IsTrue (spec.is_named shape.now) }
    requires range { IsTrue (is_in_range (spec.config_of shape.now)) }
    ensures { IfOk result (λ config. config ≡ spec.config_of shape.now) }
{
    let draft = draft_of(alloc, shape)?;
    Ok(Config::of_draft(draft))
}

fn draft_of(alloc: Global, shape: &Shape) -> Result<Draft, AllocError>
    requires { IsTrue (spec.is_named shape.now) }
    ensures { IfOk result (λ draft. drafted draft ≡ spec.config_of shape.now) }
{
    Ok(Draft {
        clocking: clocking_of(alloc, shape)?,
        loading: loading_of(alloc, shape),
        ring: ring_of(alloc, shape)?,
        compactor: compactor_of(alloc, shape)?,
        names: port_names(alloc)?,
    })
}

fn clocking_of(alloc: Global, shape: &Shape) -> Result<Clocking, AllocError>
    requires { IsTrue (spec.is_named shape.now) }
    ensures { IfOk result (λ clocking. clocking ≡ spec.clocking_of shape.now) }
{
    Ok(Clocking {
        domains: names(alloc, shape.domains)?,
        resets: names(alloc, shape.resets)?,
        keep: names(alloc, &[])?,
    })
}

fn loading_of(alloc: Global, shape: &Shape) -> Loading
    ensures { result ≡ spec.loading_of shape.now }
{
    Loading {
        chains: shape.chains,
        warm: shape.warm,
        window: shape.window,
        fill: shape.fill,
        always_masked: Listed::from_vec(Vec::new(alloc)),
    }
}

fn ring_of(alloc: Global, shape: &Shape) -> Result<RingConfig, AllocError>
    ensures { IfOk result (λ ring. ring ≡ spec.ring_of shape.now) }
{
    Ok(RingConfig {
        stages: shape.stages,
        channels: shape.channels,
        taps: listed(alloc, shape.taps)?,
        injectors: listed(alloc, shape.injectors)?,
        phase: lists(alloc, shape.phase)?,
    })
}

fn compactor_of(alloc: Global, shape: &Shape) -> Result<CompactorConfig, AllocError>
    ensures { IfOk result (λ compactor. compactor ≡ spec.compactor_of shape.now) }
{
    Ok(CompactorConfig {
        groups: lists(alloc, shape.groups)?,
        mask_inputs: shape.mask_inputs,
    })
}

fn port_names(alloc: Global) -> Result<PortNames, AllocError>
    ensures { IfOk result (λ names. names ≡ spec.port_names) }
{
    Ok(PortNames {
        scan_enable: Name::from_slice(alloc, b"scan_enable")?,
        edt_clock: Name::from_slice(alloc, b"edt_clock")?,
        edt_update: Name::from_slice(alloc, b"edt_update")?,
        channel: Name::from_slice(alloc, b"edt_in")?,
        mask: Name::from_slice(alloc, b"edt_mask")?,
        output: Name::from_slice(alloc, b"edt_out")?,
        scan_in: Name::from_slice(alloc, b"scan_in")?,
        scan_out: Name::from_slice(alloc, b"scan_out")?,
    })
}
