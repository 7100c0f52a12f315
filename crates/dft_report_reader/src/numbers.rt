//! Decimal numbers.

ghost use Rattle.std.specs.Prelude.{◌≡◌};
ghost use Rattle.dft_report_reader.specs.Words as spec;

fn has_leading_zero(word: &[u8]) -> bool
    ensures { result ≡ spec.has_leading_zero word.now }
{
    match word {
        [first, _, ..] => *first == b'0',
        _ => false,
    }
}

// The number that a word writes in decimal, without leading zeros and below 2^32.
pub(crate) fn number_of(word: &[u8]) -> Option<u32>
    ensures { result ≡ spec.number_of word.now }
{
    if word.is_empty() || has_leading_zero(word) {
        return None;
    }
    value_of(word)
}

fn value_of(word: &[u8]) -> Option<u32>
    ensures { result ≡ spec.value_from 0 word.now }
{
    let mut value = 0;
    for byte in word {
        value = with_digit(value, *byte)?;
    }
    Some(value)
}

// The number with one digit more, where it is one and the number is below 2^32.
fn with_digit(value: u32, byte: u8) -> Option<u32>
    ensures { result ≡ spec.next_value value byte }
{
    if !matches!(byte, b'0'..=b'9') {
        return None;
    }
    let next = 10 * u64::from(value) + u64::from(byte - b'0');
    if next < 4_294_967_296 {
        Some(next as u32)
    } else {
        None
    }
}
