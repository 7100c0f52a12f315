//! Texts of made configurations, which are read as what was written.

use dft_base::{Listed, Name};
use dft_config::{CompactorConfig, Config, PortNames, RingConfig};
use dft_config_out::{Made, made_text};
use dft_decompressor::{fit, injectors, taps};
use std::alloc::{AllocError, Global};
use std::test::Fail;

// A name of a text; `x` where it is none.
fn name(alloc: Global, text: &str) -> Result<Name, AllocError> {
    match dft_base::name_of(alloc, text.as_bytes())? {
        Some(name) => Ok(name),
        None => name_x(alloc),
    }
}

fn name_x(alloc: Global) -> Result<Name, AllocError> {
    Name::from_slice(alloc, b"x")
}

// The names of ports where none is given.
fn port_names(alloc: Global) -> Result<PortNames, AllocError> {
    Ok(PortNames {
        scan_enable: name(alloc, "scan_enable")?,
        edt_clock: name(alloc, "edt_clock")?,
        edt_update: name(alloc, "edt_update")?,
        channel: name(alloc, "edt_in")?,
        mask: name(alloc, "edt_mask")?,
        output: name(alloc, "edt_out")?,
        scan_in: name(alloc, "scan_in")?,
        scan_out: name(alloc, "scan_out")?,
    })
}

// The ring of two chains on one channel.
fn ring(alloc: Global) -> Result<RingConfig, AllocError> {
    let phase = match fit(alloc, 2, 1)? {
        Some(fitting) => fitting.phase,
        None => Listed::from_vec(Vec::new(alloc)),
    };
    Ok(RingConfig {
        stages: 8,
        channels: 1,
        taps: Listed::from_vec(taps(alloc, 8)?),
        injectors: Listed::from_vec(injectors(alloc, 8, 1)?),
        phase,
    })
}

// One output, which sums both chains.
fn compactor(alloc: Global) -> Result<CompactorConfig, AllocError> {
    let mut group = Vec::new(alloc);
    group.push(0)?;
    group.push(1)?;
    let mut groups = Vec::new(alloc);
    groups.push(Listed::from_vec(group))?;
    Ok(CompactorConfig {
        groups: Listed::from_vec(groups),
        mask_inputs: 1,
    })
}

// The made configuration with these clocks.
fn made(alloc: Global, clock: &str) -> Result<Made, AllocError> {
    let mut domains = Vec::new(alloc);
    domains.push(name(alloc, clock)?)?;
    Ok(Made {
        domains: Listed::from_vec(domains),
        resets: Listed::from_vec(Vec::new(alloc)),
        chains: 2,
        warm: 8,
        ring: ring(alloc)?,
        compactor: compactor(alloc)?,
        names: port_names(alloc)?,
    })
}

// Its text.
fn text_of(alloc: Global, clock: &str) -> Result<Vec<u8>, AllocError> {
    let made = made(alloc, clock)?;
    made_text(alloc, 5, &made)
}

// Clocks whose names need an escape, or none.
static CLOCKS: [&str; 4] = ["clk", "a\"b", "c\\d", "'\"\\\\e\\[3]"];

// Whether the configuration that a text stands for has this clock.
fn has_clock(config: &Config, clock: &str) -> bool {
    match config.domains().first() {
        Some(name) => name.as_slice() == clock.as_bytes(),
        None => false,
    }
}

// Whether the text of the configuration with this clock is read, with the clock.
fn is_read(alloc: Global, clock: &str) -> Result<bool, AllocError> {
    let text = text_of(alloc, clock)?;
    if text.len() > 4096 {
        return Ok(false);
    }
    match dft_config_text::read(alloc, &text).ok() {
        Some(config) => Ok(has_clock(&config, clock)),
        None => Ok(false),
    }
}

#[test]
fn texts_are_read_with_the_names_that_were_written(rt: HostRuntime) -> Result<(), Fail> {
    for clock in &CLOCKS {
        let read = is_read(rt.alloc(), *clock)?;
        assert!(rt; read, "{clock}");
    }
    Ok(())
}
