ghost use Rattle.std.specs.Prelude.{◌≡◌, ◌<◌, None, replicate, IfOk};
ghost use Rattle.dft_stil_text.specs.WaveformTables as spec;
ghost use Rattle.dft_stil.specs.WaveformsShown.{IsWide};
ghost use Rattle.dft_stil.specs.MembersShown.{AreBelow};

use dft_patterns::Act;
use std::alloc::{AllocError, Global};
use std::marker::Model;

// How many characters there are.
const CHARACTERS: usize = 256;

/// What each character means for each signal of a table.
#[derive(Debug)]
pub struct Waveforms {
    acts: Vec<Option<Act>>,
}

// One call for all fields, so that the proof of what owns a value stays short.
impl Drop for Waveforms {
    fn drop(self) {
        let Waveforms { acts: _ } = self;
    }
}

impl Model for Waveforms {
    ghost use Rattle.dft_stil_text.specs.WaveformTables as tables;

    ghost Value = { tables.Waveforms };

    ghost use Rattle.dft_stil.specs.WaveformsShown.{waveforms_of};

    ghost view = { waveforms_of };
}

// So many places for acts, all empty.
fn no_acts(alloc: Global, size: usize) -> Result<Vec<Option<Act>>, AllocError>
    ensures { IfOk result (λ acts. acts.items ≡ replicate size None) }
{
    vec![in alloc; None; size]
}

impl Waveforms {
    /// No waveform of so many signals.
    pub fn new(alloc: Global, count: usize) -> Result<Waveforms, AllocError>
        ensures value { IfOk result (λ waveforms. waveforms ≡ spec.no_waveforms count) }
        ensures wide { IfOk result (λ waveforms. IsWide count waveforms) }
    {
        let Some(size) = count.checked_mul(CHARACTERS) else {
            return Err(AllocError);
        };
        let acts = no_acts(alloc, size)?;
        Ok(Waveforms { acts })
    }

    /// What a character means for a signal.
    pub fn act(&self, count: usize, signal: usize, character: u8) -> Option<Act>
        requires wide { IsWide count self.now }
        requires inside { signal < count }
        ensures { result ≡ spec.act_of self.now signal character }
    {
        self.acts[signal * CHARACTERS + usize::from(character)]
    }

    /// What a character means for these signals of so many from here on.
    pub fn set_all(&mut self, count: usize, signals: &[usize], character: u8, act: Act)
        requires wide { IsWide count self.old }
        requires inside { AreBelow count signals.now }
        ensures value { self.new ≡ spec.with_waveform signals.now character act self.old }
        ensures wide { IsWide count self.new }
    {
        for signal in signals {
            self.acts[*signal * CHARACTERS + usize::from(character)] = Some(act);
        }
    }

    /// Whether a character means something for some of these signals of so many.
    pub fn is_given(&self, count: usize, signals: &[usize], character: u8) -> bool
        requires wide { IsWide count self.now }
        requires inside { AreBelow count signals.now }
        ensures { result ≡ spec.is_given self.now signals.now character }
    {
        for signal in signals {
            if self.act(count, *signal, character).is_some() {
                return true;
            }
        }
        false
    }
}
