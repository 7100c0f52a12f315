//! The commands and their options.

ghost use Rattle.std.specs.Prelude.{◌≡◌, [], None, map, option_map};
ghost use Rattle.dft_explain.specs.Faults as spec;
ghost use Rattle.dft_explain.specs.CodeFaults.{form_seen};

use crate::fault::{Pair, Range};
use crate::options::{
    COMPILE_SAVES, CONFIGURE_SAVES, GRADE_SAVES, NOTHING, SCAN_SAVES, SEEK_SAVES,
};

// A command: the options that it needs, those that may be left out, the pair of which it needs just one, those whose values are
// numbers, and those whose files it saves.
#[derive(Clone, Copy)]
pub(crate) struct Form {
    pub(crate) name: &'static str,
    pub(crate) needed: &'static [&'static str],
    pub(crate) optional: &'static [&'static str],
    pub(crate) pair: Option<Pair>,
    pub(crate) numbers: &'static [Range],
    pub(crate) saved: &'static [&'static str],
}

static REPLAY: [&str; 2] = ["netlist", "patterns"];

static SCAN: [&str; 4] = ["netlist", "config", "out", "report"];

static COMPILE: [&str; 6] = [
    "netlist",
    "config",
    "cubes",
    "out-netlist",
    "out-patterns",
    "out-report",
];

static CERTIFY: [&str; 4] = ["netlist", "config", "cubes", "report"];

static GENERATE: [&str; 2] = ["seed", "size"];

static GRADE: [&str; 3] = ["netlist", "patterns", "out"];

static CONFIGURE: [&str; 3] = ["netlist", "channels", "out"];

static SIZES: [&str; 5] = ["chains", "length", "outputs", "masks", "library"];

static SEEK: [&str; 6] = [
    "netlist",
    "config",
    "clock",
    "limit",
    "out-cubes",
    "out-report",
];

static LIBRARY: [&str; 1] = ["library"];

static NO_NUMBERS: [Range; 0] = [];

static JOB_NUMBERS: [Range; 2] = [
    Range {
        option: "seed",
        digits: 20,
        least: 0,
        most: 18_446_744_073_709_551_615,
        text: "0 to 18446744073709551615",
    },
    Range {
        option: "size",
        digits: 5,
        least: 16,
        most: 20_000,
        text: "16 to 20000",
    },
];

static HARDWARE_NUMBERS: [Range; 5] = [
    Range {
        option: "channels",
        digits: 2,
        least: 1,
        most: 32,
        text: "1 to 32",
    },
    Range {
        option: "chains",
        digits: 4,
        least: 1,
        most: 1_024,
        text: "1 to 1024",
    },
    Range {
        option: "length",
        digits: 5,
        least: 1,
        most: 65_536,
        text: "1 to 65536",
    },
    Range {
        option: "outputs",
        digits: 2,
        least: 1,
        most: 32,
        text: "1 to 32",
    },
    Range {
        option: "masks",
        digits: 2,
        least: 1,
        most: 32,
        text: "1 to 32",
    },
];

static SEARCH_NUMBERS: [Range; 1] = [Range {
    option: "limit",
    digits: 7,
    least: 0,
    most: 1_000_000,
    text: "0 to 1000000",
}];

impl Form {
    // The command of this name.
    pub(crate) fn named(name: &str) -> Option<Form>
        ensures { option_map form_seen result ≡ spec.form_of name.now }
    {
        if name == "replay" {
            Some(Form::new("replay", &REPLAY, &LIBRARY, &NOTHING))
        } else if name == "scan" {
            Some(Form::new("scan", &SCAN, &LIBRARY, &SCAN_SAVES))
        } else if name == "compile" {
            Some(Form::new("compile", &COMPILE, &LIBRARY, &COMPILE_SAVES))
        } else if name == "certify" {
            Some(Form::new("certify", &CERTIFY, &LIBRARY, &NOTHING))
        } else {
            Form::further(name)
        }
    }

    // The commands that are told by none of the names before.
    fn further(name: &str) -> Option<Form>
        ensures { option_map form_seen result ≡ spec.further_form name.now }
    {
        if name == "generate" {
            Some(Form::generate())
        } else if name == "grade" {
            Some(Form::new("grade", &GRADE, &LIBRARY, &GRADE_SAVES))
        } else if name == "configure" {
            Some(Form::configure())
        } else if name == "seek" {
            Some(Form::seek())
        } else {
            None
        }
    }

    #[tactic(auto, unfolding(crate::specs::Faults::seed, crate::specs::Faults::size))]
    fn generate() -> Form
        ensures { form_seen result ≡ spec.generate_form }
    {
        Form {
            name: "generate",
            needed: &GENERATE,
            optional: &NOTHING,
            pair: None,
            numbers: &JOB_NUMBERS,
            saved: &NOTHING,
        }
    }

    #[tactic(auto, unfolding(crate::specs::Faults::channels, crate::specs::Faults::chains, crate::specs::Faults::longest, crate::specs::Faults::outputs, crate::specs::Faults::masks))]
    fn configure() -> Form
        ensures { form_seen result ≡ spec.configure_form }
    {
        Form {
            name: "configure",
            needed: &CONFIGURE,
            optional: &SIZES,
            pair: Some(Pair {
                first: "chains",
                second: "length",
            }),
            numbers: &HARDWARE_NUMBERS,
            saved: &CONFIGURE_SAVES,
        }
    }

    #[tactic(auto, unfolding(crate::specs::Faults::limit))]
    fn seek() -> Form
        ensures { form_seen result ≡ spec.seek_form }
    {
        Form {
            name: "seek",
            needed: &SEEK,
            optional: &LIBRARY,
            pair: None,
            numbers: &SEARCH_NUMBERS,
            saved: &SEEK_SAVES,
        }
    }

    fn new(
        name: &'static str,
        needed: &'static [&'static str],
        optional: &'static [&'static str],
        saved: &'static [&'static str],
    ) -> Form
        ensures { form_seen result ≡ record { name = name.now; needed = map (λ option. option.now) needed.now; optional = map (λ option. option.now) optional.now; pair = None; numbers = []; saved = map (λ option. option.now) saved.now } }
    {
        Form {
            name,
            needed,
            optional,
            pair: None,
            numbers: &NO_NUMBERS,
            saved,
        }
    }

    // Whether it has an option of this name.
    pub(crate) fn has(&self, option: &[u8]) -> bool
        ensures { result ≡ spec.has (form_seen self.now) option.now }
    {
        is_among(option, self.needed) || is_among(option, self.optional)
    }
}

// Whether a text is one of these.
pub(crate) fn is_among(text: &[u8], texts: &[&str]) -> bool
    ensures { result ≡ spec.is_among text.now (map (λ it. it.now) texts.now) }
{
    for it in texts {
        if it.as_bytes() == text {
            return true;
        }
    }
    false
}
