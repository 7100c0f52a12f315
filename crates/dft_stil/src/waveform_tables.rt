ghost use Rattle.std.specs.Prelude.{◌≡◌, None, option_map, slice_get, OnOk};
ghost use Rattle.dft_stil_text.specs.SignalGroups.{number_of};
ghost use Rattle.dft_stil_text.specs.WaveformTables as spec;

use crate::known_names::KnownNames;
use crate::waveforms::Waveforms;
use std::alloc::{AllocError, Global};
use std::marker::Model;

/// The tables of a pattern text, found by name (IEEE 1450-1999 `WaveformTable`).
#[derive(Debug)]
pub struct WaveformTables {
    names: KnownNames,
    waveforms: Vec<Waveforms>,
}

// One call for all fields, so that the proof of what owns a value stays short.
impl Drop for WaveformTables {
    fn drop(self) {
        let WaveformTables {
            names: _,
            waveforms: _,
        } = self;
    }
}

impl Model for WaveformTables {
    ghost use Rattle.dft_stil_text.specs.WaveformTables as tables;

    ghost Value = { tables.WaveformTables };

    ghost use Rattle.dft_stil.specs.WaveformTablesShown.{tables_of};

    ghost view = { tables_of };
}

impl WaveformTables {
    /// No table.
    pub fn new(alloc: Global) -> WaveformTables
        ensures { result ≡ spec.no_tables }
    {
        WaveformTables {
            names: KnownNames::new(alloc),
            waveforms: Vec::new(alloc),
        }
    }

    /// The number of the table with this name.
    pub fn number(&self, word: &[u8]) -> Option<usize>
        ensures { result ≡ number_of self.now.names word.now }
    {
        self.names.number(word)
    }

    /// The waveforms of a table by number.
    pub fn waveforms(&self, number: usize) -> Option<&Waveforms>
        ensures { option_map (λ s. s.now) result ≡ slice_get self.now.waveforms number }
    {
        self.waveforms.get(number)
    }

    /// Adds a table, whose name no other has.
    pub fn add(
        &mut self,
        alloc: Global,
        word: &[u8],
        waveforms: Waveforms,
    ) -> Result<(), AllocError>
        requires { number_of self.old.names word.now ≡ None }
        ensures { OnOk result (self.new ≡ spec.with_table self.old word.now waveforms) }
    {
        self.waveforms.reserve(1)?;
        self.names.add(Vec::from_slice(alloc, word)?)?;
        self.waveforms.push_reserved(waveforms);
        Ok(())
    }
}
