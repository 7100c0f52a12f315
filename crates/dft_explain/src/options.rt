//! Which file an option names, in words that are a command.

ghost use Rattle.std.specs.Prelude.{◌≡◌, ◌++◌, OnOk, codes, map, option_map, string_bytes};
ghost use Rattle.dft_explain.specs.Options as spec;

use std::alloc::AllocError;

// The options whose files are loaded, in the order of loads.
pub(crate) static LOADED: [&str; 6] = [
    "library", "config", "netlist", "patterns", "cubes", "report",
];

// The options whose files a scan, a compilation, a grading, a made configuration and a search save, in the order of saves.
pub(crate) static SCAN_SAVES: [&str; 2] = ["out", "report"];

pub(crate) static COMPILE_SAVES: [&str; 3] = ["out-netlist", "out-patterns", "out-report"];

pub(crate) static GRADE_SAVES: [&str; 1] = ["out"];

pub(crate) static CONFIGURE_SAVES: [&str; 1] = ["out"];

pub(crate) static SEEK_SAVES: [&str; 2] = ["out-cubes", "out-report"];

pub(crate) static NOTHING: [&str; 0] = [];

// What stands behind these first bytes, where a text begins with them.
pub(crate) fn behind<'a>(front: &[u8], text: &'a [u8]) -> Option<&'a [u8]>
    ensures { option_map (λ rest. rest.now) result ≡ spec.behind front.entry.now text.entry.now }
{
    let mut front = front;
    let mut rest = text;
    while let [wanted, fronts @ ..] = front {
        match rest {
            [byte, bytes @ ..] if *wanted == *byte => {
                front = fronts;
                rest = bytes;
            }
            _ => return None,
        }
    }
    Some(rest)
}

// What a word has behind `--OPTION`.
fn behind_option<'a>(option: &[u8], word: &'a [u8]) -> Option<&'a [u8]>
    ensures { option_map (λ rest. rest.now) result ≡ spec.behind_option option.now word.entry.now }
{
    match behind(b"--".as_slice(), word) {
        Some(rest) => behind(option, rest),
        None => None,
    }
}

// The value that follows: it is joined behind `=`, or it is the next word.
fn value_behind<'a>(rest: Option<&'a [u8]>, next: &'a [String]) -> Option<&'a [u8]>
    ensures { option_map (λ value. value.now) result ≡ spec.value_behind (option_map (λ rest. rest.now) rest.entry) (map string_bytes next.entry.now) }
{
    match (rest, next) {
        (Some([]), [word, ..]) => Some(word.as_bytes()),
        (Some([b'=', value @ ..]), _) => Some(value),
        _ => None,
    }
}

/// The value of an option, in words that are a command.
pub fn value_of<'a>(option: &[u8], words: &'a [String]) -> Option<&'a [u8]>
    ensures { option_map (λ value. value.now) result ≡ spec.value_of option.now (map string_bytes words.entry.now) }
{
    let mut rest = words;
    while let [word, next @ ..] = rest {
        if let Some(value) = value_behind(behind_option(option, word.as_bytes()), next) {
            return Some(value);
        }
        rest = next;
    }
    None
}

// A text, or an empty one.
pub(crate) fn or_empty(text: Option<&[u8]>) -> &[u8]
    ensures { result.now ≡ spec.or_empty (option_map (λ text. text.now) text.entry) }
{
    match text {
        Some(text) => text,
        None => b"".as_slice(),
    }
}

// The option whose file codes with this letter speak of.
fn option_of_letter(code: &[u8]) -> &'static str
    ensures { result.now ≡ spec.option_of_letter code.now }
{
    match code {
        [b'L', ..] => "library",
        [b'C', ..] => "config",
        [b'Q', ..] => "cubes",
        [b'P', ..] => "patterns",
        [b'K', ..] => "report",
        _ => "netlist",
    }
}

#[tactic(auto, unfolding(crate::specs::Options::patterns_saved))]
// The patterns that are saved.
fn patterns_saved<'a>(words: &'a [String]) -> Option<&'a [u8]>
    ensures { option_map (λ file. file.now) result ≡ spec.patterns_saved (map string_bytes words.entry.now) }
{
    value_of(b"out-patterns".as_slice(), words)
}

// Whether the words are those of a search.
fn is_search(words: &[String]) -> bool
    ensures { result ≡ spec.is_search (map string_bytes words.now) }
{
    match words {
        [command, ..] => command.as_str() == "seek",
        [] => false,
    }
}

#[tactic(auto, unfolding(crate::specs::Options::report_saved))]
// The report that is saved: of a compilation, of a scan, or of a grading. Of a search it is not known whether it is meant.
fn report_saved<'a>(words: &'a [String]) -> Option<&'a [u8]>
    ensures { option_map (λ file. file.now) result ≡ spec.report_saved (map string_bytes words.entry.now) }
{
    if is_search(words) {
        return None;
    }
    if let Some(file) = value_of(b"out-report".as_slice(), words) {
        return Some(file);
    }
    match value_of(b"report".as_slice(), words) {
        Some(file) => Some(file),
        None => value_of(b"out".as_slice(), words),
    }
}

/// The file that a refusal speaks of, by its code and its name: that of the option which F1 names, the file to be saved at P6
/// and K6 (none at K6 of a search, which saves two), and else that of the option which the code's letter says.
pub fn file_of<'a>(code: &[u8], name: Option<&[u8]>, words: &'a [String]) -> Option<&'a [u8]>
    ensures { option_map (λ file. file.now) result ≡ spec.file_of code.now (option_map (λ name. name.now) name.entry) (map string_bytes words.entry.now) }
{
    if code == b"F1".as_slice() {
        value_of(or_empty(name), words)
    } else if code == b"P6".as_slice() {
        patterns_saved(words)
    } else if code == b"K6".as_slice() {
        report_saved(words)
    } else {
        value_of(option_of_letter(code).as_bytes(), words)
    }
}

#[tactic(auto, unfolding(crate::specs::Options::saved_by))]
// The options whose files the command of these words saves, in the order of saves.
pub(crate) fn saved(words: &[String]) -> &'static [&'static str]
    ensures { map (λ option. option.now) result.now ≡ spec.saved (map string_bytes words.now) }
{
    match words {
        [command, ..] if command.as_str() == "scan" => &SCAN_SAVES,
        [command, ..] if command.as_str() == "compile" => &COMPILE_SAVES,
        [command, ..] if command.as_str() == "grade" => &GRADE_SAVES,
        [command, ..] if command.as_str() == "configure" => &CONFIGURE_SAVES,
        [command, ..] if command.as_str() == "seek" => &SEEK_SAVES,
        _ => &NOTHING,
    }
}

// Whether the option names the file.
fn names_file(option: &str, file: &[u8], words: &[String]) -> bool
    ensures { result ≡ spec.is_text file.now (spec.value_of option.now (map string_bytes words.now)) }
{
    match value_of(option.as_bytes(), words) {
        Some(value) => value == file,
        None => false,
    }
}

// The first of these options that names the file.
pub(crate) fn option_of(
    file: &[u8],
    words: &[String],
    options: &'static [&'static str],
) -> Option<&'static [u8]>
    ensures { option_map (λ option. option.now) result ≡ spec.option_of file.now (map string_bytes words.now) (map (λ option. option.now) options.entry.now) }
{
    for option in options {
        if names_file(option, file, words) {
            return Some(option.as_bytes());
        }
    }
    None
}

// Adds the files of the options before the first that names the file, each behind a blank.
pub(crate) fn push_files_before<'a>(
    pieces: &mut Vec<&'a [u8]>,
    file: &[u8],
    words: &'a [String],
    options: &[&str],
) -> Result<(), AllocError>
    ensures { OnOk result (map (λ piece. piece.now) pieces.new.items ≡ map (λ piece. piece.now) pieces.old.items
        ++ spec.files_before file.now (map string_bytes words.entry.now) (map (λ option. option.now) options.now)) }
{
    for option in options {
        if names_file(option, file, words) {
            return Ok(());
        }
        pieces.push(b" ".as_slice())?;
        pieces.push(or_empty(value_of(option.as_bytes(), words)))?;
    }
    Ok(())
}
