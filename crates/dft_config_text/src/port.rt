ghost use Rattle.std.specs.Prelude.{◌≡◌};
ghost use Rattle.dft_base.specs.Name.{IsName};
ghost use Rattle.dft_config_text.specs.Ports as spec;

use crate::fault::Key;

/// A name of ports that a configuration may give.
#[derive(Clone, Copy, Debug, PartialEq, Eq)]
pub enum Port {
    ScanEnable,
    EdtClock,
    EdtUpdate,
    Channel,
    Mask,
    Output,
    ScanIn,
    ScanOut,
}

impl Port {
    /// Its key.
    pub fn key(self) -> Key
        ensures { result ≡ spec.key_of self }
    {
        match self {
            Port::ScanEnable => Key::ScanEnable,
            Port::EdtClock => Key::EdtClock,
            Port::EdtUpdate => Key::EdtUpdate,
            Port::Channel => Key::Channel,
            Port::Mask => Key::Mask,
            Port::Output => Key::Output,
            Port::ScanIn => Key::ScanIn,
            Port::ScanOut => Key::ScanOut,
        }
    }

    /// Its key in the table `names`.
    pub fn word(self) -> &'static str
        ensures { result.now ≡ spec.word_of self }
    {
        match self {
            Port::ScanEnable => "scan_enable",
            Port::EdtClock => "edt_clock",
            Port::EdtUpdate => "edt_update",
            Port::Channel => "channel",
            Port::Mask => "mask",
            Port::Output => "output",
            Port::ScanIn => "scan_in",
            Port::ScanOut => "scan_out",
        }
    }

    /// The name where the key is left out.
    pub fn default_name(self) -> &'static str
        ensures value { result.now ≡ spec.default_of self }
        ensures name { IsName result.now }
    {
        match self {
            Port::ScanEnable => "scan_enable",
            Port::EdtClock => "edt_clock",
            Port::EdtUpdate => "edt_update",
            Port::Channel => "edt_in",
            Port::Mask => "edt_mask",
            Port::Output => "edt_out",
            Port::ScanIn => "scan_in",
            Port::ScanOut => "scan_out",
        }
    }
}
