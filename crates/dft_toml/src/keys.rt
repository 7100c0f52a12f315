ghost use Rattle.std.specs.Prelude.{◌≡◌, map};
ghost use Rattle.toml.specs.View.{table_view};
ghost use Rattle.dft_toml.specs.Values as spec;

use toml::Table;

/// Whether each key of the table is one of these words.
pub fn has_only(table: &Table, words: &[&'static str]) -> bool
    ensures { result ≡ spec.has_only (map (λ w. w.now) words.now) (table_view table.now) }
{
    for (key, _) in table.iter() {
        if !has_word(words, key.as_str()) {
            return false;
        }
    }
    true
}

/// Whether a word is one of these.
pub fn has_word(words: &[&'static str], word: &str) -> bool
    ensures { result ≡ spec.has_word (map (λ w. w.now) words.now) word.now }
{
    for other in words {
        if *other == word {
            return true;
        }
    }
    false
}
