//! Times the load equations of 16 chains behind a ring of 16 stages and 4 channels, for loads of 4,096 cycles.

ghost use Rattle.std.specs.Prelude.{◌≡◌, ◌≤◌};

use dft_config::{Config, FillRule, Injector, Tap};
use dft_equations::equations;
use dft_test_configs::{Shape, config_of};
use std::alloc::Global;
use std::io;
use std::rt::Clock;
use std::time::Instant;

// Sixteen chains of three stages each.
static CONFIGURATION: Shape = Shape {
    domains: &["clk"],
    resets: &[],
    chains: 16,
    warm: 0,
    window: 1,
    fill: FillRule::Zeros,
    stages: 16,
    channels: 4,
    taps: &[
        Tap { from: 2, to: 10 },
        Tap { from: 13, to: 4 },
        Tap { from: 6, to: 1 },
    ],
    injectors: &[
        Injector {
            channel: 0,
            stage: 0,
        },
        Injector {
            channel: 1,
            stage: 4,
        },
        Injector {
            channel: 2,
            stage: 8,
        },
        Injector {
            channel: 3,
            stage: 12,
        },
    ],
    phase: &[
        &[0, 5, 11],
        &[1, 6, 12],
        &[2, 7, 13],
        &[3, 8, 14],
        &[4, 9, 15],
        &[5, 10, 0],
        &[6, 11, 1],
        &[7, 12, 2],
        &[8, 13, 3],
        &[9, 14, 4],
        &[10, 15, 5],
        &[11, 0, 6],
        &[12, 1, 7],
        &[13, 2, 8],
        &[14, 3, 9],
        &[15, 4, 10],
    ],
    groups: &[&[0, 1, 2, 3, 4, 5, 6, 7, 8, 9, 10, 11, 12, 13, 14, 15]],
    mask_inputs: 1,
};

/// Times the equations of chains of so many cells, at most 4,096.
pub fn time_equations(rt: &(impl Clock + Eprint), alloc: Global, cells: u32) -> io::Result<()> {
    let cells = cells.min(4096) as u16;
    let config = config_of(alloc, &CONFIGURATION)?;
    time_chains(rt, alloc, &config, cells)
}

// Times the equations of chains of so many cells.
fn time_chains(
    rt: &(impl Clock + Eprint),
    alloc: Global,
    config: &Config,
    cells: u16,
) -> io::Result<()>
    requires chains { config.now.chains ≡ 16 }
    requires channels { config.now.ring.channels ≡ 4 }
    requires cells { cells ≤ 4096 }
{
    let lengths = [cells; 16];
    let start = Instant::now(rt)?;
    let columns = equations(alloc, config, &lengths, &[false; 16], 4096)?.columns();
    let took = start.elapsed(rt)?.as_micros();
    eprintln!(rt; "16 chains of {cells} cells, {columns} columns: {took} us")
}
