//! Numbers in decimal.

ghost use Rattle.std.specs.Prelude.{◌≡◌};
ghost use Rattle.std.specs.Char.{is_ascii_digit};
ghost use Rattle.std.specs.List.{list_all};
ghost use Rattle.dft_command_line.specs.CommandLine as spec;
ghost use Rattle.dft_command_line.specs.CommandLine.{decimal_of};

// The number that a text writes in decimal digits, at most so many, where it is below 2^64. Zeros may lead.
pub(crate) fn decimal(text: &str, most: usize) -> Option<u64>
    ensures { result ≡ decimal_of most text.now }
{
    if text.len() > most || !are_digits(text) {
        return None;
    }
    text.parse().ok()
}

// A number from 1 to so many.
pub(crate) fn ranged(number: u64, most: u32) -> Option<u32>
    ensures { result ≡ spec.ranged most number }
{
    if 1 <= number && number <= u64::from(most) {
        Some(number as u32)
    } else {
        None
    }
}

fn are_digits(text: &str) -> bool
    ensures { result ≡ list_all is_ascii_digit text.now }
{
    text.as_bytes().iter().all(|byte| byte.is_ascii_digit())
}
