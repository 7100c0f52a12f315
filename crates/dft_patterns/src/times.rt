//! The times of a table, and whether they fit its period (IEEE 1450-1999 `Period`).

ghost use Rattle.std.specs.Prelude.{◌≡◌};
ghost use Rattle.dft_patterns.specs.Times as spec;

use crate::shapes::{Drawing, Event};

/// The first and the last times, in picoseconds, at which a table sets inputs, compares outputs, and lets pulses rise and fall; and the
/// last time of all events.
#[derive(Clone, Copy, Debug)]
pub struct Times {
    pub last_setting: Option<u64>,
    pub first_strobe: Option<u64>,
    pub last_strobe: Option<u64>,
    pub first_rise: Option<u64>,
    pub last_rise: Option<u64>,
    pub first_fall: Option<u64>,
    pub last: Option<u64>,
}

fn later(last: Option<u64>, time: u64) -> Option<u64>
    ensures { result ≡ spec.later last time }
{
    match last {
        Some(last) if time <= last => Some(last),
        _ => Some(time),
    }
}

fn earlier(first: Option<u64>, time: u64) -> Option<u64>
    ensures { result ≡ spec.earlier first time }
{
    match first {
        Some(first) if first <= time => Some(first),
        _ => Some(time),
    }
}

fn all_before(last: Option<u64>, first: Option<u64>) -> bool
    ensures { result ≡ spec.all_before last first }
{
    match (last, first) {
        (Some(last), Some(first)) => last < first,
        _ => true,
    }
}

impl Times {
    /// No time.
    pub fn none() -> Times
        ensures { result ≡ spec.no_times }
    {
        Times {
            last_setting: None,
            first_strobe: None,
            last_strobe: None,
            first_rise: None,
            last_rise: None,
            first_fall: None,
            last: None,
        }
    }

    fn with_setting(self, time: u64) -> Times
        ensures { result ≡ spec.with_setting time self }
    {
        Times {
            last_setting: later(self.last_setting, time),
            ..self
        }
    }

    fn with_strobe(self, time: u64) -> Times
        ensures { result ≡ spec.with_strobe time self }
    {
        Times {
            first_strobe: earlier(self.first_strobe, time),
            last_strobe: later(self.last_strobe, time),
            ..self
        }
    }

    fn with_pulse(self, rise: u64, fall: u64) -> Times
        ensures { result ≡ spec.with_pulse rise fall self }
    {
        Times {
            first_rise: earlier(self.first_rise, rise),
            last_rise: later(self.last_rise, rise),
            first_fall: earlier(self.first_fall, fall),
            ..self
        }
    }

    fn with_last(self, time: u64) -> Times
        ensures { result ≡ spec.with_last time self }
    {
        Times {
            last: later(self.last, time),
            ..self
        }
    }

    fn with_event(self, event: Event) -> Times
        ensures { result ≡ spec.with_event event self }
    {
        match event.letter {
            b'D' | b'U' => self.with_setting(event.time),
            b'L' | b'H' => self.with_strobe(event.time),
            _ => self,
        }
    }

    /// The times of a shape more.
    pub fn with_times(self, drawing: Drawing) -> Times
        ensures { result ≡ spec.with_times drawing self }
    {
        match drawing {
            Drawing::One(a) => self.with_event(a).with_last(a.time),
            Drawing::Two(_, b) => self.with_strobe(b.time).with_last(b.time),
            Drawing::Three(a, b, c) => {
                self.with_setting(a.time)
                    .with_pulse(b.time, c.time)
                    .with_last(c.time)
            }
            _ => self,
        }
    }

    /// Whether the times fit this period.
    pub fn fit(self, period: u64) -> bool
        ensures { result ≡ spec.times_fit period self }
    {
        all_before(self.last_setting, self.first_strobe)
            && all_before(self.last_strobe, self.first_rise)
            && all_before(self.last_rise, self.first_fall)
            && all_before(self.last, Some(period))
            && (self.first_strobe.is_some() || all_before(self.last_setting, self.first_rise))
    }
}
