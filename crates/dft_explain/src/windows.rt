//! The shown part of a line, and lines of texts.

ghost use Rattle.std.specs.Prelude.{◌≡◌, option_map};
ghost use Rattle.dft_explain.specs.Explained as spec;

use crate::pieces::front;

// Where the shown part of a line begins.
fn begins_at(column: usize, line: &[u8]) -> usize
    ensures { result ≡ spec.begins_at column line.now }
{
    if 100 < line.len() {
        column.saturating_sub(61)
    } else {
        0
    }
}

// The shown part of a line.
pub(crate) fn window(column: usize, line: &[u8]) -> &[u8]
    ensures { result.now ≡ spec.window column line.entry.now }
{
    let begins = begins_at(column, line).min(line.len());
    front(100, &line[begins..])
}

// What is shown before the column.
pub(crate) fn before_column(column: usize, line: &[u8]) -> &[u8]
    ensures { result.now ≡ spec.before_column column line.entry.now }
{
    let count = column
        .saturating_sub(1)
        .saturating_sub(begins_at(column, line));
    front(count, window(column, line))
}
