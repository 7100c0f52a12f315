ghost use Rattle.std.specs.Prelude.{◌≡◌};

use dft_base::Name;
use dft_netlist_text::Declared;
use std::marker::Model;

/// A port of a module's header: its name, and how it was declared, once it was.
#[derive(Debug)]
pub struct HeaderPort {
    name: Name,
    declared: Option<Declared>,
}

// One call for all fields, so that the proof of what owns a value stays short.
impl Drop for HeaderPort {
    fn drop(self) {
        let HeaderPort {
            name: _,
            declared: _,
        } = self;
    }
}

impl Model for HeaderPort {
    ghost use Rattle.dft_netlist_text.specs.Modules as spec;

    ghost Value = { spec.HeaderPort };

    ghost use Rattle.dft_verilog_draft.specs.HeaderPortShown.{header_port_of};

    ghost view = { header_port_of };
}

impl HeaderPort {
    /// A port of this name that was declared so, or not yet.
    pub fn new(name: Name, declared: Option<Declared>) -> HeaderPort
        ensures { result ≡ record { name = name; declared = declared } }
    {
        HeaderPort { name, declared }
    }

    /// Its name.
    pub fn name(&self) -> &Name
        ensures { result.now ≡ self.now.name }
    {
        &self.name
    }

    /// How it was declared, if it was.
    pub fn declared(&self) -> Option<Declared>
        ensures { result ≡ self.now.declared }
    {
        self.declared
    }
}
