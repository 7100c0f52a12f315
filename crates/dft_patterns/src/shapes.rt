//! Shapes of waveforms as they are drawn, event by event (IEEE 1450-1999 `Waveforms`).

ghost use Rattle.std.specs.Prelude.{◌≡◌};
ghost use Rattle.dft_patterns.specs.Drawings as spec;

use crate::act::Act;
use dft_base::Dir;

/// A letter at a time, in picoseconds.
#[derive(Clone, Copy, Debug, PartialEq, Eq)]
pub struct Event {
    pub letter: u8,
    pub time: u64,
}

/// The events of a shape so far.
#[derive(Clone, Copy, Debug)]
pub enum Drawing {
    Begun,
    One(Event),
    Two(Event, Event),
    Three(Event, Event, Event),
    /// More than any shape has.
    Many,
}

fn is(letter: u8, event: Event) -> bool
    ensures { result ≡ spec.is letter event }
{
    event.letter == letter
}

fn before(first: Event, second: Event) -> bool
    ensures { result ≡ spec.before first second }
{
    first.time < second.time
}

/// Whether a shape of a signal can begin with these events.
pub fn begins_shape(dir: Dir, drawing: Drawing) -> bool
    ensures { result ≡ spec.begins_shape dir drawing }
{
    match (dir, drawing) {
        (Dir::Input, Drawing::One(a)) => is(b'D', a) || is(b'U', a),
        (Dir::Input, Drawing::Two(a, b)) => is(b'D', a) && is(b'U', b) && before(a, b),
        (Dir::Input, Drawing::Three(a, b, c)) => {
            is(b'D', a) && is(b'U', b) && is(b'D', c) && before(a, b) && before(b, c)
        }
        (Dir::Output, Drawing::One(a)) => is(b'X', a) || is(b'L', a) || is(b'H', a),
        (Dir::Output, Drawing::Two(a, b)) => {
            is(b'X', a) && (is(b'L', b) || is(b'H', b)) && before(a, b)
        }
        _ => false,
    }
}

/// One event more.
pub fn extended(drawing: Drawing, event: Event) -> Drawing
    ensures { result ≡ spec.extended drawing event }
{
    match drawing {
        Drawing::Begun => Drawing::One(event),
        Drawing::One(a) => Drawing::Two(a, event),
        Drawing::Two(a, b) => Drawing::Three(a, b, event),
        _ => Drawing::Many,
    }
}

fn act_of_event(event: Event) -> Option<Act>
    ensures { result ≡ spec.act_of_event event }
{
    match event.letter {
        b'D' => Some(Act::Low),
        b'U' => Some(Act::High),
        b'X' => Some(Act::Ignore),
        b'L' => Some(Act::ExpectLow),
        b'H' => Some(Act::ExpectHigh),
        _ => None,
    }
}

/// What a shape does that is these events; none where it would have to go on.
pub fn act_of_events(drawing: Drawing) -> Option<Act>
    ensures { result ≡ spec.act_of_events drawing }
{
    match drawing {
        Drawing::One(a) => act_of_event(a),
        Drawing::Two(_, b) if is(b'L', b) => Some(Act::ExpectLow),
        Drawing::Two(_, b) if is(b'H', b) => Some(Act::ExpectHigh),
        Drawing::Three(_, _, _) => Some(Act::Pulse),
        _ => None,
    }
}

/// What a whole shape does.
pub fn act_drawn(drawing: Drawing) -> Act
    ensures { result ≡ spec.act_drawn drawing }
{
    act_of_events(drawing).unwrap_or(Act::Ignore)
}
