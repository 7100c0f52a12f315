/// Why a flip-flop is not scanned: the first of the scan rules that fails.
#[derive(Clone, Copy, Debug, PartialEq, Eq)]
pub enum Rule {
    /// Its clock pin shows no configured domain's port and no inverse of one.
    S1,
    /// Its set or reset does not trace to a configured reset or to constant 1.
    S2,
    /// Its cell names no scan cell.
    S3,
    /// The configuration keeps it.
    S4,
}
