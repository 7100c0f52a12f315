use dft_config::{FillRule, Injector, Tap};

/// What a configuration has, as a table. No flip-flop is kept and no chain is always masked; ports have the names that they have where
/// a text names none.
pub struct Shape {
    pub domains: &'static [&'static str],
    pub resets: &'static [&'static str],
    pub chains: u16,
    pub warm: u16,
    pub window: u8,
    pub fill: FillRule,
    pub stages: u8,
    pub channels: u8,
    pub taps: &'static [Tap],
    pub injectors: &'static [Injector],
    pub phase: &'static [&'static [u8]],
    pub groups: &'static [&'static [u16]],
    pub mask_inputs: u8,
}
