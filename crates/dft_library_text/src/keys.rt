//! The words for kinds, and the keys that the table of each kind has.

ghost use Rattle.std.specs.Prelude.{◌≡◌, IfOk, map, option_map};
ghost use Rattle.dft_library_text.specs.Keys as spec;

use dft_cells::{Flop, Forcing, Gate, Kind, Role};
use std::alloc::{AllocError, Global};

/// A key whose value names pins.
#[derive(Clone, Copy, Debug, PartialEq, Eq)]
pub enum PinKey {
    /// The inputs of a gate, a table or an opaque cell, as a list.
    Inputs,
    /// The outputs of an opaque cell, as a list.
    Outputs,
    Output,
    Clock,
    Din,
    Reset,
    Set,
    ScanIn,
    ScanEnable,
    /// The inverted output, which may be left out.
    Inverted,
}

impl PinKey {
    /// The key as it is written.
    pub fn text(self) -> &'static str
        ensures { result.now ≡ spec.text_of self }
    {
        match self {
            PinKey::Inputs => "inputs",
            PinKey::Outputs => "outputs",
            PinKey::Output => "output",
            PinKey::Clock => "clock",
            PinKey::Din => "din",
            PinKey::Reset => "reset",
            PinKey::Set => "set",
            PinKey::ScanIn => "scan_in",
            PinKey::ScanEnable => "scan_enable",
            PinKey::Inverted => "inverted",
        }
    }

    /// What the pins of the key are for.
    pub fn role(self) -> Role
        ensures { result ≡ spec.role_of_key self }
    {
        match self {
            PinKey::Inputs => Role::Input,
            PinKey::Outputs | PinKey::Output => Role::Output,
            PinKey::Clock => Role::Clock,
            PinKey::Din => Role::Din,
            PinKey::Reset => Role::Reset,
            PinKey::Set => Role::Preset,
            PinKey::ScanIn => Role::ScanIn,
            PinKey::ScanEnable => Role::ScanEnable,
            PinKey::Inverted => Role::Inverted,
        }
    }
}

// Each kind once; a table stands with the number 0.
static KINDS: [Kind; 20] = [
    Kind::Gate(Gate::Buf),
    Kind::Gate(Gate::Inv),
    Kind::Gate(Gate::And),
    Kind::Gate(Gate::Nand),
    Kind::Gate(Gate::Or),
    Kind::Gate(Gate::Nor),
    Kind::Gate(Gate::Xor),
    Kind::Gate(Gate::Xnor),
    Kind::Gate(Gate::Mux2),
    Kind::Gate(Gate::Table(0)),
    Kind::Gate(Gate::Tie0),
    Kind::Gate(Gate::Tie1),
    Kind::Flop(Flop {
        force: Forcing::Nothing,
        scan: false,
    }),
    Kind::Flop(Flop {
        force: Forcing::Reset,
        scan: false,
    }),
    Kind::Flop(Flop {
        force: Forcing::Set,
        scan: false,
    }),
    Kind::Flop(Flop {
        force: Forcing::Nothing,
        scan: true,
    }),
    Kind::Flop(Flop {
        force: Forcing::Reset,
        scan: true,
    }),
    Kind::Flop(Flop {
        force: Forcing::Set,
        scan: true,
    }),
    Kind::Lockup,
    Kind::Opaque,
];

/// The word for a kind.
pub fn word_of(kind: Kind) -> &'static str
    ensures { result.now ≡ spec.word_of kind }
{
    match kind {
        Kind::Gate(gate) => word_of_gate(gate),
        Kind::Flop(flop) => word_of_flop(flop),
        Kind::Lockup => "lockup",
        Kind::Opaque => "opaque",
    }
}

fn word_of_gate(gate: Gate) -> &'static str
    ensures { result.now ≡ spec.word_of_gate gate }
{
    match gate {
        Gate::Buf => "buf",
        Gate::Inv => "inv",
        Gate::And => "and",
        Gate::Nand => "nand",
        Gate::Or => "or",
        Gate::Nor => "nor",
        Gate::Xor => "xor",
        Gate::Xnor => "xnor",
        Gate::Mux2 => "mux2",
        Gate::Table(_) => "table",
        Gate::Tie0 => "tie0",
        Gate::Tie1 => "tie1",
    }
}

fn word_of_flop(flop: Flop) -> &'static str
    ensures { result.now ≡ spec.word_of_flop flop }
{
    match (flop.force, flop.scan) {
        (Forcing::Nothing, false) => "dff",
        (Forcing::Reset, false) => "dffr",
        (Forcing::Set, false) => "dffs",
        (Forcing::Nothing, true) => "sdff",
        (Forcing::Reset, true) => "sdffr",
        (Forcing::Set, true) => "sdffs",
    }
}

/// The kind that a word names; the number of a table stands at another key, and is 0 here.
pub fn kind_named(word: &str) -> Option<Kind>
    ensures { result ≡ spec.kind_named word.now }
{
    kind_among(&KINDS, word)
}

fn kind_among(kinds: &[Kind], word: &str) -> Option<Kind>
    ensures { result ≡ spec.kind_among kinds.now word.now }
{
    for kind in kinds {
        if word_of(*kind) == word {
            return Some(*kind);
        }
    }
    None
}

static GATE_KEYS: [PinKey; 2] = [PinKey::Inputs, PinKey::Output];

static TIE_KEYS: [PinKey; 1] = [PinKey::Output];

static DFF_KEYS: [PinKey; 4] = [PinKey::Clock, PinKey::Din, PinKey::Output, PinKey::Inverted];

static DFFR_KEYS: [PinKey; 5] = [
    PinKey::Clock,
    PinKey::Din,
    PinKey::Reset,
    PinKey::Output,
    PinKey::Inverted,
];

static DFFS_KEYS: [PinKey; 5] = [
    PinKey::Clock,
    PinKey::Din,
    PinKey::Set,
    PinKey::Output,
    PinKey::Inverted,
];

static SDFF_KEYS: [PinKey; 6] = [
    PinKey::Clock,
    PinKey::Din,
    PinKey::ScanIn,
    PinKey::ScanEnable,
    PinKey::Output,
    PinKey::Inverted,
];

static SDFFR_KEYS: [PinKey; 7] = [
    PinKey::Clock,
    PinKey::Din,
    PinKey::Reset,
    PinKey::ScanIn,
    PinKey::ScanEnable,
    PinKey::Output,
    PinKey::Inverted,
];

static SDFFS_KEYS: [PinKey; 7] = [
    PinKey::Clock,
    PinKey::Din,
    PinKey::Set,
    PinKey::ScanIn,
    PinKey::ScanEnable,
    PinKey::Output,
    PinKey::Inverted,
];

static LOCKUP_KEYS: [PinKey; 3] = [PinKey::Clock, PinKey::Din, PinKey::Output];

static OPAQUE_KEYS: [PinKey; 2] = [PinKey::Inputs, PinKey::Outputs];

/// The keys of a kind whose values name its pins, in the order of the pins.
pub fn pin_keys(kind: Kind) -> &'static [PinKey]
    ensures { result.now ≡ spec.pin_keys kind }
{
    match kind {
        Kind::Gate(gate) => if gate.is_tie() { &TIE_KEYS } else { &GATE_KEYS },
        Kind::Flop(flop) => flop_keys(flop),
        Kind::Lockup => &LOCKUP_KEYS,
        Kind::Opaque => &OPAQUE_KEYS,
    }
}

fn flop_keys(flop: Flop) -> &'static [PinKey]
    ensures { result.now ≡ spec.flop_keys flop }
{
    match (flop.force, flop.scan) {
        (Forcing::Nothing, false) => &DFF_KEYS,
        (Forcing::Reset, false) => &DFFR_KEYS,
        (Forcing::Set, false) => &DFFS_KEYS,
        (Forcing::Nothing, true) => &SDFF_KEYS,
        (Forcing::Reset, true) => &SDFFR_KEYS,
        (Forcing::Set, true) => &SDFFS_KEYS,
    }
}

/// The key of a kind that names no pin, beside `kind`.
pub fn other_key(kind: Kind) -> Option<&'static str>
    ensures { option_map (λ key. key.now) result ≡ spec.other_key kind }
{
    match kind {
        Kind::Gate(Gate::Table(_)) => Some("table"),
        Kind::Flop(flop) => if flop.scan { None } else { Some("scan") },
        _ => None,
    }
}

/// All keys that the table of a kind may have.
pub fn keys_of(alloc: Global, kind: Kind) -> Result<Vec<&'static str>, AllocError>
    ensures { IfOk result (λ keys. map (λ key. key.now) keys.items ≡ spec.keys_of kind) }
{
    let mut keys = Vec::new(alloc);
    for key in pin_keys(kind) {
        keys.push(key.text())?;
    }
    keys.push("kind")?;
    if let Some(key) = other_key(kind) {
        keys.push(key)?;
    }
    Ok(keys)
}
