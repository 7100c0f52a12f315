ghost use Rattle.std.specs.Prelude.{◌≡◌, IfOk, alloc_error};
ghost use Rattle.dft_base.specs.Name.{IsName};
ghost use Rattle.dft_config_text.specs.Keys as spec;
ghost use Rattle.dft_config_text.specs.declared.fault.Fault.TheVariants.{Memory};

use dft_base::Name;
use std::alloc::{AllocError, AllocFailed, Global};

/// A key of a configuration.
#[derive(Clone, Copy, Debug, PartialEq, Eq)]
pub enum Key {
    Version,
    Domains,
    Resets,
    Keep,
    Chains,
    Warm,
    Window,
    Fill,
    Seed,
    AlwaysMasked,
    Stages,
    Channels,
    Taps,
    Injectors,
    Phase,
    Groups,
    MaskInputs,
    ScanEnable,
    EdtClock,
    EdtUpdate,
    Channel,
    Mask,
    Output,
    ScanIn,
    ScanOut,
    /// All names of ports together.
    Names,
}

/// Why a table is no configuration.
#[derive(Debug, Drop)]
pub enum Fault {
    /// The key is missing, or holds another kind of value.
    Missing(Key),
    /// A number, or the count of a list, is outside its range.
    Outside(Key, i64),
    /// A list in the list is empty.
    Empty(Key),
    /// Something stands twice in one list.
    Repeated(Key),
    /// A chain stands in no group.
    Unreached(i64),
    /// No such key is known; it is told as it is shown.
    Unknown(Name),
    Memory(AllocError),
}

impl From<AllocError> for Fault {
    ghost from_gives = { λ a e. e ≡ Memory a };

    fn from(e: AllocError) -> Fault {
        Fault::Memory(e)
    }
}

impl<T: Drop> From<AllocFailed<T>> for Fault {
    ghost from_gives = { λ _ e. e ≡ Memory alloc_error };

    fn from(_e: AllocFailed<T>) -> Fault {
        Fault::Memory(AllocError)
    }
}

impl Key {
    /// The key as it is written, with points.
    pub fn dotted(self) -> &'static str
        ensures value { result.now ≡ spec.dotted self }
        ensures name { IsName result.now }
    {
        match self {
            Key::Version => "version",
            Key::Domains => "domains",
            Key::Resets => "resets",
            Key::Keep => "keep",
            Key::Chains => "chains",
            Key::Warm => "warm",
            Key::Window => "window",
            Key::Fill => "fill",
            Key::Seed => "seed",
            Key::AlwaysMasked => "always_masked",
            Key::Stages => "ring.stages",
            Key::Channels => "ring.channels",
            Key::Taps => "ring.taps",
            Key::Injectors => "ring.injectors",
            Key::Phase => "ring.phase",
            Key::Groups => "compactor.groups",
            Key::MaskInputs => "compactor.mask_inputs",
            Key::ScanEnable => "names.scan_enable",
            Key::EdtClock => "names.edt_clock",
            Key::EdtUpdate => "names.edt_update",
            Key::Channel => "names.channel",
            Key::Mask => "names.mask",
            Key::Output => "names.output",
            Key::ScanIn => "names.scan_in",
            Key::ScanOut => "names.scan_out",
            Key::Names => "names",
        }
    }

    /// The key as a name.
    pub fn name(self, alloc: Global) -> Result<Name, AllocError>
        ensures { IfOk result (λ name. name ≡ spec.dotted self) }
    {
        Name::from_slice(alloc, self.dotted().as_bytes())
    }
}
