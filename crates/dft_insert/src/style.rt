/// Which hardware stands between the ports and the scan chains.
#[derive(Clone, Copy, Debug, PartialEq, Eq)]
pub enum Style {
    /// Each chain has a scan input and a scan output of its own.
    Plain,
    /// Channels feed the chains through a ring generator and a phase shifter, and a compactor with masks shows their ends (Rajski
    /// and others, 2004).
    Edt,
}
