//! Lines of texts.

ghost use Rattle.std.specs.Prelude.{◌≡◌, ◌≤◌, ◌-◌, length, option_map};
ghost use Rattle.std.specs.List.{prefix_len};
ghost use Rattle.dft_explain.specs.Texts as spec;

/// The line of this number, from 1, without its end, where the text has so many.
pub fn line_at(text: &[u8], number: u32) -> Option<&[u8]>
    ensures { option_map (λ line. line.now) result ≡ option_map spec.first_line (spec.behind_lines (number - 1) text.entry.now) }
{
    behind_lines(text, number.saturating_sub(1)).map(first_line)
}

// The bytes before the first end of a line.
fn first_line(text: &[u8]) -> &[u8]
    ensures { result.now ≡ spec.first_line text.entry.now }
{
    &text[..line_len(text)]
}

fn line_len(text: &[u8]) -> usize
    ensures value { result ≡ prefix_len spec.is_inside text.now }
    ensures within { result ≤ length text.now }
{
    text.iter().take_while(|byte| **byte != b'\n').count()
}

// What stands behind the first end of a line.
fn behind_line(text: &[u8]) -> Option<&[u8]>
    ensures { option_map (λ rest. rest.now) result ≡ spec.behind_line text.entry.now }
{
    let mut rest = text;
    while let [byte, behind @ ..] = rest {
        if *byte == b'\n' {
            return Some(behind);
        }
        rest = behind;
    }
    None
}

#[tactic(auto, using(crate::proofs::TextLemmas::one_less))]
// What stands behind so many lines.
fn behind_lines(text: &[u8], count: u32) -> Option<&[u8]>
    ensures { option_map (λ rest. rest.now) result ≡ spec.behind_lines count text.entry.now }
{
    let mut rest = text;
    let mut left = count;
    while 0 < left {
        rest = behind_line(rest)?;
        left -= 1;
    }
    Some(rest)
}
