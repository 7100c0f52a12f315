ghost use Rattle.std.specs.Prelude.{◌≡◌};
ghost use Rattle.dft_config_text.specs.Sections as spec;

use dft_toml::has_word;

/// A table of a configuration.
#[derive(Clone, Copy, Debug, PartialEq, Eq)]
pub enum Section {
    Ring,
    Compactor,
    Names,
}

// The keys of each table, and those outside of the tables but for the seed and the names.
static RING_KEYS: [&str; 5] = ["stages", "channels", "taps", "injectors", "phase"];

static COMPACTOR_KEYS: [&str; 2] = ["groups", "mask_inputs"];

static NAMES_KEYS: [&str; 8] = [
    "scan_enable",
    "edt_clock",
    "edt_update",
    "channel",
    "mask",
    "output",
    "scan_in",
    "scan_out",
];

static TOP_KEYS: [&str; 11] = [
    "version",
    "domains",
    "resets",
    "keep",
    "chains",
    "warm",
    "window",
    "fill",
    "always_masked",
    "ring",
    "compactor",
];

impl Section {
    /// Its key.
    pub fn key(self) -> &'static str
        ensures { result.now ≡ spec.key_of self }
    {
        match self {
            Section::Ring => "ring",
            Section::Compactor => "compactor",
            Section::Names => "names",
        }
    }

    /// What stands before its keys in a dotted name.
    pub fn prefix(self) -> &'static str
        ensures { result.now ≡ spec.prefix_of self }
    {
        match self {
            Section::Ring => "ring.",
            Section::Compactor => "compactor.",
            Section::Names => "names.",
        }
    }

    /// Whether a word is one of its keys.
    #[tactic(auto, unfolding(crate::specs::Sections::has_key))]
    pub fn has_key(self, word: &str) -> bool
        ensures { result ≡ spec.has_key self word.now }
    {
        match self {
            Section::Ring => has_word(&RING_KEYS, word),
            Section::Compactor => has_word(&COMPACTOR_KEYS, word),
            Section::Names => has_word(&NAMES_KEYS, word),
        }
    }
}

/// Whether a word is always a key outside of the tables.
#[tactic(auto, unfolding(crate::specs::Sections::is_always_key))]
pub fn is_always_key(word: &str) -> bool
    ensures { result ≡ spec.is_always_key word.now }
{
    has_word(&TOP_KEYS, word)
}
