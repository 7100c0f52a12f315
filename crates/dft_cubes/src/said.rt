ghost use Rattle.std.specs.Prelude.{◌≡◌, ◌∷◌, [], IfSome, map, option_map};
ghost use Rattle.std.specs.List.{All};
ghost use Rattle.dft_base.specs.Name.{IsName};
ghost use Rattle.dft_word_lines.specs.Lines.{AreWithin, cut};
ghost use Rattle.dft_cubes.specs.Cubes as spec;
ghost use Rattle.dft_cubes.specs.Taking.{SaysNames, line_said};

use dft_word_lines::Span;

// What a line says.
#[derive(Clone, Copy, Debug)]
pub(crate) enum Said<'a> {
    Version {
        number: &'a [u8],
    },
    Begin {
        name: &'a [u8],
        clock: &'a [u8],
    },
    BeginTwo {
        name: &'a [u8],
        clock: &'a [u8],
        second: &'a [u8],
    },
    Cell {
        name: &'a [u8],
        bit: bool,
    },
    Port {
        name: &'a [u8],
        bit: bool,
    },
    End,
}

// The bit of a word.
fn bit_of(word: &[u8]) -> Option<bool>
    ensures { result ≡ spec.bit_of word.now }
{
    if word == b"0".as_slice() {
        Some(false)
    } else if word == b"1".as_slice() {
        Some(true)
    } else {
        None
    }
}

// What three words say.
fn said_by_three<'a>(word: &[u8], name: &'a [u8], last: &'a [u8]) -> Option<Said<'a>>
    requires name { IsName name.now }
    requires last { IsName last.now }
    ensures said { option_map line_said result ≡ spec.line_of (word.now ∷ name.now ∷ last.now ∷ []) }
    ensures names { IfSome result (λ said. SaysNames (line_said said)) }
{
    if word == b"cube".as_slice() {
        Some(Said::Begin { name, clock: last })
    } else if word == b"cell".as_slice() {
        bit_of(last).map(|bit| Said::Cell { name, bit })
    } else if word == b"port".as_slice() {
        bit_of(last).map(|bit| Said::Port { name, bit })
    } else {
        None
    }
}

// What four words say.
fn said_by_four<'a>(
    word: &[u8],
    name: &'a [u8],
    clock: &'a [u8],
    second: &'a [u8],
) -> Option<Said<'a>>
    requires name { IsName name.now }
    requires clock { IsName clock.now }
    requires second { IsName second.now }
    ensures said { option_map line_said result ≡ spec.line_of (word.now ∷ name.now ∷ clock.now ∷ second.now ∷ []) }
    ensures names { IfSome result (λ said. SaysNames (line_said said)) }
{
    if word == b"cube".as_slice() {
        Some(Said::BeginTwo {
            name,
            clock,
            second,
        })
    } else {
        None
    }
}

// What two words say.
fn said_by_two<'a>(word: &[u8], number: &'a [u8]) -> Option<Said<'a>>
    requires { IsName number.now }
    ensures said { option_map line_said result ≡ spec.line_of (word.now ∷ number.now ∷ []) }
    ensures names { IfSome result (λ said. SaysNames (line_said said)) }
{
    if word == b"version".as_slice() {
        Some(Said::Version { number })
    } else {
        None
    }
}

// What one word says.
fn said_by_one<'a>(word: &[u8]) -> Option<Said<'a>>
    ensures said { option_map line_said result ≡ spec.line_of (word.now ∷ []) }
    ensures names { IfSome result (λ said. SaysNames (line_said said)) }
{
    if word == b"end".as_slice() {
        Some(Said::End)
    } else {
        None
    }
}

// What the words of a line say, if that is something.
pub(crate) fn said_by<'a>(line: &'a [u8], words: &[Span]) -> Option<Said<'a>>
    requires within { AreWithin line.now words.now }
    requires names { All (λ span. IsName (cut line.now span)) words.now }
    ensures said { option_map line_said result ≡ spec.line_of (map (cut line.now) words.now) }
    ensures names { IfSome result (λ said. SaysNames (line_said said)) }
{
    match words {
        [word] => said_by_one(word.of(line)),
        [word, number] => said_by_two(word.of(line), number.of(line)),
        [word, name, last] => said_by_three(word.of(line), name.of(line), last.of(line)),
        [word, name, clock, second] => {
            said_by_four(
                word.of(line),
                name.of(line),
                clock.of(line),
                second.of(line),
            )
        }
        _ => None,
    }
}
