ghost use Rattle.std.specs.Prelude.{◌≡◌, ◌≤◌, length};
ghost use Rattle.dft_patterns.specs.Patterns as spec;

use dft_base::{Dir, Name};

/// A signal of a pattern text (IEEE 1450-1999 `Signals`): a port that vectors set or compare.
#[derive(Debug, Drop)]
pub struct StilSignal {
    pub name: Name,
    pub dir: Dir,
}

/// The inputs before the first output, and the signals from there on.
pub fn groups(signals: &[StilSignal]) -> (&[StilSignal], &[StilSignal])
    ensures ins { result.0.now ≡ spec.inputs signals.now }
    ensures outs { result.1.now ≡ spec.outputs signals.now }
{
    signals.split_at(input_count(signals))
}

/// How many inputs stand before the first output.
pub fn input_count(signals: &[StilSignal]) -> usize
    ensures value { result ≡ spec.input_count signals.now }
    ensures within { result ≤ length signals.now }
{
    signals
        .iter()
        .take_while(|signal| is_input(signal.dir))
        .count()
}

fn is_input(dir: Dir) -> bool
    ensures { result ≡ spec.is_input dir }
{
    matches!(dir, Dir::Input)
}
