use dft_config::Config;
use std::alloc::{AllocError, Global};
use std::test::Fail;

// A text, and the configuration that it is, worked by hand.
struct Read {
    what: &'static str,
    text: &'static str,
    config: &'static str,
}

static READ: [Read; 5] = [
    Read {
        what: "two domains in one chain",
        text: "version = 1\ndomains = ['ca', 'cb']\nkeep = ['f3']\nchains = 1\nwarm = 0\nwindow = 1\nfill = 'ones'\nalways_masked = [0]\n[ring]\nstages = 2\nchannels = 1\ntaps = []\ninjectors = [[0, 1]]\nphase = [[0]]\n[compactor]\ngroups = [[0]]\nmask_inputs = 1\n",
        config: "Config { domains: Names { names: [Name { bytes: [99, 97] }, Name { bytes: [99, 98] }] }, resets: Names { names: [] }, keep: Names { names: [Name { bytes: [102, 51] }] }, chains: 1, warm: 0, window: 1, fill: Ones, always_masked: Listed { entries: [0] }, ring: RingConfig { stages: 2, channels: 1, taps: Listed { entries: [] }, injectors: Listed { entries: [Injector { channel: 0, stage: 1 }] }, phase: Listed { entries: [Listed { entries: [0] }] } }, compactor: CompactorConfig { groups: Listed { entries: [Listed { entries: [0] }] }, mask_inputs: 1 }, names: PortNames { scan_enable: Name { bytes: [115, 99, 97, 110, 95, 101, 110, 97, 98, 108, 101] }, edt_clock: Name { bytes: [101, 100, 116, 95, 99, 108, 111, 99, 107] }, edt_update: Name { bytes: [101, 100, 116, 95, 117, 112, 100, 97, 116, 101] }, channel: Name { bytes: [101, 100, 116, 95, 105, 110] }, mask: Name { bytes: [101, 100, 116, 95, 109, 97, 115, 107] }, output: Name { bytes: [101, 100, 116, 95, 111, 117, 116] }, scan_in: Name { bytes: [115, 99, 97, 110, 95, 105, 110] }, scan_out: Name { bytes: [115, 99, 97, 110, 95, 111, 117, 116] } } }",
    },
    Read {
        what: "the small whole case",
        text: "version = 1\ndomains = ['clk']\nchains = 2\nwarm = 2\nwindow = 4\n[ring]\nstages = 4\nchannels = 1\ntaps = [[2, 0]]\ninjectors = [[0, 3]]\nphase = [[0, 3], [1, 2]]\n[compactor]\ngroups = [[0, 1], [1]]\nmask_inputs = 1\n",
        config: "Config { domains: Names { names: [Name { bytes: [99, 108, 107] }] }, resets: Names { names: [] }, keep: Names { names: [] }, chains: 2, warm: 2, window: 4, fill: Zeros, always_masked: Listed { entries: [] }, ring: RingConfig { stages: 4, channels: 1, taps: Listed { entries: [Tap { from: 2, to: 0 }] }, injectors: Listed { entries: [Injector { channel: 0, stage: 3 }] }, phase: Listed { entries: [Listed { entries: [0, 3] }, Listed { entries: [1, 2] }] } }, compactor: CompactorConfig { groups: Listed { entries: [Listed { entries: [0, 1] }, Listed { entries: [1] }] }, mask_inputs: 1 }, names: PortNames { scan_enable: Name { bytes: [115, 99, 97, 110, 95, 101, 110, 97, 98, 108, 101] }, edt_clock: Name { bytes: [101, 100, 116, 95, 99, 108, 111, 99, 107] }, edt_update: Name { bytes: [101, 100, 116, 95, 117, 112, 100, 97, 116, 101] }, channel: Name { bytes: [101, 100, 116, 95, 105, 110] }, mask: Name { bytes: [101, 100, 116, 95, 109, 97, 115, 107] }, output: Name { bytes: [101, 100, 116, 95, 111, 117, 116] }, scan_in: Name { bytes: [115, 99, 97, 110, 95, 105, 110] }, scan_out: Name { bytes: [115, 99, 97, 110, 95, 111, 117, 116] } } }",
    },
    Read {
        what: "without warm cycles",
        text: "version = 1\ndomains = ['clk']\nchains = 2\nwarm = 0\nwindow = 4\nfill = 'seed'\nseed = 9223372036854775807\n[ring]\nstages = 4\nchannels = 1\ntaps = [[2, 0]]\ninjectors = [[0, 3]]\nphase = [[0, 3], [1, 2]]\n[compactor]\ngroups = [[0, 1], [1]]\nmask_inputs = 1\n",
        config: "Config { domains: Names { names: [Name { bytes: [99, 108, 107] }] }, resets: Names { names: [] }, keep: Names { names: [] }, chains: 2, warm: 0, window: 4, fill: Seed(9223372036854775807), always_masked: Listed { entries: [] }, ring: RingConfig { stages: 4, channels: 1, taps: Listed { entries: [Tap { from: 2, to: 0 }] }, injectors: Listed { entries: [Injector { channel: 0, stage: 3 }] }, phase: Listed { entries: [Listed { entries: [0, 3] }, Listed { entries: [1, 2] }] } }, compactor: CompactorConfig { groups: Listed { entries: [Listed { entries: [0, 1] }, Listed { entries: [1] }] }, mask_inputs: 1 }, names: PortNames { scan_enable: Name { bytes: [115, 99, 97, 110, 95, 101, 110, 97, 98, 108, 101] }, edt_clock: Name { bytes: [101, 100, 116, 95, 99, 108, 111, 99, 107] }, edt_update: Name { bytes: [101, 100, 116, 95, 117, 112, 100, 97, 116, 101] }, channel: Name { bytes: [101, 100, 116, 95, 105, 110] }, mask: Name { bytes: [101, 100, 116, 95, 109, 97, 115, 107] }, output: Name { bytes: [101, 100, 116, 95, 111, 117, 116] }, scan_in: Name { bytes: [115, 99, 97, 110, 95, 105, 110] }, scan_out: Name { bytes: [115, 99, 97, 110, 95, 111, 117, 116] } } }",
    },
    Read {
        what: "the realistic case",
        text: "version = 1\ndomains = ['clk']\nresets = ['rst_n']\nchains = 8\nwarm = 8\nwindow = 16\n[ring]\nstages = 8\nchannels = 2\ntaps = [[2, 5]]\ninjectors = [[0, 7], [1, 3]]\nphase = [[7], [3], [1, 7], [3, 6], [0, 7], [2, 3], [0, 5, 7], [1, 3]]\n[compactor]\ngroups = [[0, 2, 4, 6], [1, 3, 5, 7]]\nmask_inputs = 1\n",
        config: "Config { domains: Names { names: [Name { bytes: [99, 108, 107] }] }, resets: Names { names: [Name { bytes: [114, 115, 116, 95, 110] }] }, keep: Names { names: [] }, chains: 8, warm: 8, window: 16, fill: Zeros, always_masked: Listed { entries: [] }, ring: RingConfig { stages: 8, channels: 2, taps: Listed { entries: [Tap { from: 2, to: 5 }] }, injectors: Listed { entries: [Injector { channel: 0, stage: 7 }, Injector { channel: 1, stage: 3 }] }, phase: Listed { entries: [Listed { entries: [7] }, Listed { entries: [3] }, Listed { entries: [1, 7] }, Listed { entries: [3, 6] }, Listed { entries: [0, 7] }, Listed { entries: [2, 3] }, Listed { entries: [0, 5, 7] }, Listed { entries: [1, 3] }] } }, compactor: CompactorConfig { groups: Listed { entries: [Listed { entries: [0, 2, 4, 6] }, Listed { entries: [1, 3, 5, 7] }] }, mask_inputs: 1 }, names: PortNames { scan_enable: Name { bytes: [115, 99, 97, 110, 95, 101, 110, 97, 98, 108, 101] }, edt_clock: Name { bytes: [101, 100, 116, 95, 99, 108, 111, 99, 107] }, edt_update: Name { bytes: [101, 100, 116, 95, 117, 112, 100, 97, 116, 101] }, channel: Name { bytes: [101, 100, 116, 95, 105, 110] }, mask: Name { bytes: [101, 100, 116, 95, 109, 97, 115, 107] }, output: Name { bytes: [101, 100, 116, 95, 111, 117, 116] }, scan_in: Name { bytes: [115, 99, 97, 110, 95, 105, 110] }, scan_out: Name { bytes: [115, 99, 97, 110, 95, 111, 117, 116] } } }",
    },
    Read {
        what: "the generated job",
        text: "version = 1\ndomains = ['clk0', 'clk1']\nchains = 16\nwarm = 16\nwindow = 8\n[ring]\nstages = 16\nchannels = 2\ntaps = [[3, 12], [6, 9]]\ninjectors = [[0, 0], [1, 8]]\nphase = [[0, 5, 11], [1, 6, 12], [2, 7, 13], [3, 8, 14], [4, 9, 15], [5, 10, 0], [6, 11, 1], [7, 12, 2], [8, 13, 3], [9, 14, 4], [10, 15, 5], [11, 0, 6], [12, 1, 7], [13, 2, 8], [14, 3, 9], [15, 4, 10]]\n[compactor]\ngroups = [[0, 2, 4, 6, 8, 10, 12, 14], [1, 3, 5, 7, 9, 11, 13, 15]]\nmask_inputs = 2\n",
        config: "Config { domains: Names { names: [Name { bytes: [99, 108, 107, 48] }, Name { bytes: [99, 108, 107, 49] }] }, resets: Names { names: [] }, keep: Names { names: [] }, chains: 16, warm: 16, window: 8, fill: Zeros, always_masked: Listed { entries: [] }, ring: RingConfig { stages: 16, channels: 2, taps: Listed { entries: [Tap { from: 3, to: 12 }, Tap { from: 6, to: 9 }] }, injectors: Listed { entries: [Injector { channel: 0, stage: 0 }, Injector { channel: 1, stage: 8 }] }, phase: Listed { entries: [Listed { entries: [0, 5, 11] }, Listed { entries: [1, 6, 12] }, Listed { entries: [2, 7, 13] }, Listed { entries: [3, 8, 14] }, Listed { entries: [4, 9, 15] }, Listed { entries: [5, 10, 0] }, Listed { entries: [6, 11, 1] }, Listed { entries: [7, 12, 2] }, Listed { entries: [8, 13, 3] }, Listed { entries: [9, 14, 4] }, Listed { entries: [10, 15, 5] }, Listed { entries: [11, 0, 6] }, Listed { entries: [12, 1, 7] }, Listed { entries: [13, 2, 8] }, Listed { entries: [14, 3, 9] }, Listed { entries: [15, 4, 10] }] } }, compactor: CompactorConfig { groups: Listed { entries: [Listed { entries: [0, 2, 4, 6, 8, 10, 12, 14] }, Listed { entries: [1, 3, 5, 7, 9, 11, 13, 15] }] }, mask_inputs: 2 }, names: PortNames { scan_enable: Name { bytes: [115, 99, 97, 110, 95, 101, 110, 97, 98, 108, 101] }, edt_clock: Name { bytes: [101, 100, 116, 95, 99, 108, 111, 99, 107] }, edt_update: Name { bytes: [101, 100, 116, 95, 117, 112, 100, 97, 116, 101] }, channel: Name { bytes: [101, 100, 116, 95, 105, 110] }, mask: Name { bytes: [101, 100, 116, 95, 109, 97, 115, 107] }, output: Name { bytes: [101, 100, 116, 95, 111, 117, 116] }, scan_in: Name { bytes: [115, 99, 97, 110, 95, 105, 110] }, scan_out: Name { bytes: [115, 99, 97, 110, 95, 111, 117, 116] } } }",
    },
];

// The configuration of a text, as Rust shows it.
fn shown(alloc: Global, text: &str) -> Result<String, AllocError> {
    if text.len() > 4096 {
        return String::from_str(alloc, "long");
    }
    match dft_config_text::read(alloc, text.as_bytes()) {
        Ok(config) => format!(in alloc; "{config:?}"),
        Err(_) => String::from_str(alloc, "refused"),
    }
}

#[test]
fn configurations_are_read_whole(rt: HostRuntime) -> Result<(), Fail> {
    for read in &READ {
        let shown = shown(rt.alloc(), read.text)?;
        assert_eq!(rt; shown.as_str(), read.config, "{}", read.what);
    }
    Ok(())
}

// The text of a configuration of so many chains: stage 0 drives each, and they are one group.
fn of_chains(alloc: Global, chains: u16) -> Result<String, AllocError> {
    let mut text = format!(in alloc;
        "version = 1\ndomains = ['clk']\nchains = {chains}\nwarm = 0\nwindow = 1\n"
    )?;
    text.push_str("[ring]\nstages = 2\nchannels = 1\ntaps = []\ninjectors = [[0, 1]]\nphase = [")?;
    for _chain in 0..chains {
        text.push_str("[0], ")?;
    }
    text.push_str("]\n[compactor]\ngroups = [[")?;
    for chain in 0..chains {
        let number = format!(in alloc; "{chain}, ")?;
        text.push_str(number.as_str())?;
    }
    text.push_str("]]\nmask_inputs = 1\n")?;
    Ok(text)
}

// The chains and the window of a text's configuration.
fn chains_of(alloc: Global, text: &str) -> Option<(u16, u8)> {
    if text.len() > 65_536 {
        return None;
    }
    let config = dft_config_text::read(alloc, text.as_bytes()).ok()?;
    Some((config.chains(), config.window()))
}

#[test]
fn as_many_chains_as_may_be_are_read(rt: HostRuntime) -> Result<(), Fail> {
    for (chains, wanted) in [
        (1023u16, Some((1023u16, 1u8))),
        (1024, Some((1024, 1))),
        (1025, None),
    ] {
        let text = of_chains(rt.alloc(), chains)?;
        assert_eq!(rt; chains_of(rt.alloc(), text.as_str()), wanted, "{chains}");
    }
    Ok(())
}
