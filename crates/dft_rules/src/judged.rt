use dft_base::Rule;

/// How a flip-flop is judged.
#[derive(Clone, Copy, Debug, PartialEq, Eq)]
pub enum Judged {
    /// It is scanned in the domain at this place of the configuration, at the falls of that clock or at its rises.
    Scanned { domain: u8, falling: bool },
    /// It stays as it is.
    Unscanned { rule: Rule },
}
