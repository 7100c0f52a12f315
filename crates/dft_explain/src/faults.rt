//! What is wrong with words that are no command.

ghost use Rattle.std.specs.Prelude.{◌≡◌, ◌≤◌, [], Some, IfOk, OnOk, length, map, option_map, string_bytes};
ghost use Rattle.std.specs.Char.{is_ascii_digit};
ghost use Rattle.std.specs.List.{list_all, prefix_len};
ghost use Rattle.dft_explain.specs.Faults as spec;
ghost use Rattle.dft_explain.specs.Options.{value_of};
ghost use Rattle.dft_explain.specs.CodeFaults.{fault_seen, form_seen, pair_seen, range_seen};

use crate::fault::{Fault, Pair, Range};
use crate::forms::Form;
use crate::options::{behind, option_of, value_of};
use std::alloc::{AllocError, Global};

// The first thing that is wrong with the options of a command.
pub(crate) fn fault_of_options<'a>(
    alloc: Global,
    form: &Form,
    words: &'a [String],
) -> Result<Option<Fault<'a>>, AllocError>
    ensures { IfOk result (λ fault. option_map fault_seen fault ≡ spec.fault_of_options (form_seen form.now) (map string_bytes words.entry.now)) }
{
    match wrong_option(alloc, form, words)? {
        Some(fault) => Ok(Some(fault)),
        None => Ok(fault_of_right_options(form, words)),
    }
}

// What is wrong with options that are right each.
fn fault_of_right_options<'a>(form: &Form, words: &'a [String]) -> Option<Fault<'a>>
    ensures { option_map fault_seen result ≡ spec.fault_of_right_options (form_seen form.now) (map string_bytes words.entry.now) }
{
    if let Some(fault) = missing(form.needed, words) {
        return Some(fault);
    }
    if let Some(fault) = not_one(form.pair, words) {
        return Some(fault);
    }
    if let Some(fault) = no_number(form.numbers, words) {
        return Some(fault);
    }
    one_file(form.saved, words)
}

// ---- options, one by one

// The first option that is wrong.
fn wrong_option<'a>(
    alloc: Global,
    form: &Form,
    words: &'a [String],
) -> Result<Option<Fault<'a>>, AllocError>
    ensures { IfOk result (λ fault. option_map fault_seen fault ≡ spec.wrong_option (form_seen form.now) [] (map string_bytes words.entry.now)) }
{
    let mut before = Vec::new(alloc);
    let mut rest = words;
    while let [word, next @ ..] = rest {
        let word = word.as_bytes();
        if let Some(fault) = fault_of_option(form, &before, word, next) {
            return Ok(Some(fault));
        }
        push_name(&mut before, word)?;
        rest = words_after(joined_in(word), next);
    }
    Ok(None)
}

fn push_name<'a>(before: &mut Vec<&'a [u8]>, word: &'a [u8]) -> Result<(), AllocError>
    ensures { OnOk result (map (λ name. name.now) before.new.items ≡ spec.names_with (map (λ name. name.now) before.old.items) (spec.name_in word.entry.now)) }
{
    if let Some(name) = name_in(word) {
        before.push(name)?;
    }
    Ok(())
}

// What is wrong with the option that a word gives, behind options of these names.
fn fault_of_option<'a>(
    form: &Form,
    before: &[&[u8]],
    word: &'a [u8],
    next: &'a [String],
) -> Option<Fault<'a>>
    ensures { option_map fault_seen result ≡ spec.fault_of_option (form_seen form.now) (map (λ name. name.now) before.now) word.entry.now (map string_bytes next.entry.now) }
{
    let name = name_in(word);
    let value = value_from(joined_in(word), next);
    fault_of_named(form, before, word, name, value)
}

// The command has the option, it was not given before, and its value is there and not empty.
fn fault_of_named<'a>(
    form: &Form,
    before: &[&[u8]],
    word: &'a [u8],
    name: Option<&'a [u8]>,
    value: Option<&[u8]>,
) -> Option<Fault<'a>>
    ensures { option_map fault_seen result ≡ spec.fault_of_named (form_seen form.now) (map (λ name. name.now) before.now) word.entry.now (option_map (λ name. name.now) name.entry) (option_map (λ value. value.now) value.entry) }
{
    let Some(name) = name else {
        return Some(Fault::Unexpected(word));
    };
    if !form.has(name) {
        Some(Fault::NoOption(name))
    } else if is_before(name, before) {
        Some(Fault::Twice(name))
    } else {
        fault_of_value(name, value)
    }
}

fn is_before(name: &[u8], before: &[&[u8]]) -> bool
    ensures { result ≡ spec.is_among name.now (map (λ name. name.now) before.now) }
{
    for it in before {
        if *it == name {
            return true;
        }
    }
    false
}

fn fault_of_value<'a>(name: &'a [u8], value: Option<&[u8]>) -> Option<Fault<'a>>
    ensures { option_map fault_seen result ≡ spec.fault_of_value name.entry.now (option_map (λ value. value.now) value.entry) }
{
    match value {
        None => Some(Fault::NoValue(name)),
        Some([]) => Some(Fault::EmptyValue(name)),
        Some(_) => None,
    }
}

// The name of the option that a word gives, `--NAME` or `--NAME=VALUE`.
fn name_in(word: &[u8]) -> Option<&[u8]>
    ensures { option_map (λ name. name.now) result ≡ spec.name_in word.entry.now }
{
    match behind(b"--".as_slice(), word) {
        Some(text) => named(text),
        None => None,
    }
}

// A name is not empty, and ends before the first `=`.
fn named(text: &[u8]) -> Option<&[u8]>
    ensures { option_map (λ name. name.now) result ≡ spec.named text.entry.now }
{
    let len = name_len(text);
    if len == 0 { None } else { Some(&text[..len]) }
}

fn name_len(text: &[u8]) -> usize
    ensures value { result ≡ prefix_len spec.is_of_name text.now }
    ensures within { result ≤ length text.now }
{
    text.iter().take_while(|byte| **byte != b'=').count()
}

// The value that is joined to the option that a word gives.
fn joined_in(word: &[u8]) -> Option<&[u8]>
    ensures { option_map (λ value. value.now) result ≡ spec.joined_in word.entry.now }
{
    match behind(b"--".as_slice(), word) {
        Some(text) => joined(text),
        None => None,
    }
}

// What stands behind the first `=`.
fn joined(text: &[u8]) -> Option<&[u8]>
    ensures { option_map (λ value. value.now) result ≡ spec.joined text.entry.now }
{
    match &text[name_len(text)..] {
        [_, value @ ..] => Some(value),
        [] => None,
    }
}

// The value of an option: it is joined, or it is the next word.
fn value_from<'a>(joined: Option<&'a [u8]>, next: &'a [String]) -> Option<&'a [u8]>
    ensures { option_map (λ value. value.now) result ≡ spec.value_from (option_map (λ value. value.now) joined.entry) (map string_bytes next.entry.now) }
{
    match joined {
        Some(value) => Some(value),
        None => next_value(next),
    }
}

fn next_value(next: &[String]) -> Option<&[u8]>
    ensures { option_map (λ value. value.now) result ≡ spec.next_value (map string_bytes next.entry.now) }
{
    match next {
        [word, ..] if may_be_value(word.as_bytes()) => Some(word.as_bytes()),
        _ => None,
    }
}

// Whether a word behind an option may be its value.
fn may_be_value(word: &[u8]) -> bool
    ensures { result ≡ spec.may_be_value word.now }
{
    match word {
        [b'-', _, ..] => false,
        _ => true,
    }
}

// The words behind an option and its value.
fn words_after<'a>(joined: Option<&[u8]>, next: &'a [String]) -> &'a [String]
    ensures { map string_bytes result.now ≡ spec.words_after (option_map (λ value. value.now) joined.entry) (map string_bytes next.entry.now) }
{
    match (joined, next) {
        (None, [_, rest @ ..]) => rest,
        _ => next,
    }
}

// ---- all options of a command

// The first option that a command needs and that has no value.
fn missing<'a>(needed: &'static [&'static str], words: &[String]) -> Option<Fault<'a>>
    ensures { option_map fault_seen result ≡ spec.missing (map (λ option. option.now) needed.entry.now) (map string_bytes words.now) }
{
    for option in needed {
        if value_of(option.as_bytes(), words).is_none() {
            return Some(Fault::Missing(option));
        }
    }
    None
}

// The pair of which not just one is given.
fn not_one<'a>(pair: Option<Pair>, words: &[String]) -> Option<Fault<'a>>
    ensures { option_map fault_seen result ≡ spec.not_one (option_map pair_seen pair) (map string_bytes words.now) }
{
    let Some(pair) = pair else {
        return None;
    };
    let one = value_of(pair.first.as_bytes(), words);
    let other = value_of(pair.second.as_bytes(), words);
    match (one, other) {
        (Some(_), None) | (None, Some(_)) => None,
        _ => Some(Fault::NotOne(pair)),
    }
}

// The first value that is no number of its range.
fn no_number<'a>(ranges: &'static [Range], words: &'a [String]) -> Option<Fault<'a>>
    ensures { option_map fault_seen result ≡ spec.no_number (map range_seen ranges.entry.now) (map string_bytes words.entry.now) }
{
    for range in ranges {
        if let Some(fault) = fault_of_number(range, value_of(range.option.as_bytes(), words)) {
            return Some(fault);
        }
    }
    None
}

fn fault_of_number<'a>(range: &Range, value: Option<&'a [u8]>) -> Option<Fault<'a>>
    ensures { option_map fault_seen result ≡ spec.fault_of_number (range_seen range.now) (option_map (λ value. value.now) value.entry) }
{
    match value {
        Some(value) if !range.has(value) => {
            Some(Fault::NoNumber(range.option, range.text, value))
        }
        _ => None,
    }
}

impl Range {
    // Whether a text is some digits of one of its numbers.
    fn has(&self, text: &[u8]) -> bool
        ensures { result ≡ spec.is_in (range_seen self.now) text.now }
    {
        if self.digits < text.len() {
            return false;
        }
        match decimal(text) {
            Some(number) => self.least <= number && number <= self.most,
            None => false,
        }
    }
}

// The number below 2^64 that decimal digits write.
fn decimal(text: &[u8]) -> Option<u64>
    ensures { result ≡ spec.decimal_of text.now }
{
    if !are_digits(text) {
        return None;
    }
    match str::from_utf8(text) {
        Ok(text) => text.parse().ok(),
        Err(_) => None,
    }
}

fn are_digits(text: &[u8]) -> bool
    ensures { result ≡ list_all is_ascii_digit text.now }
{
    text.iter().all(|byte| byte.is_ascii_digit())
}

// The first of a command's outputs whose file an output before it names.
fn one_file<'a>(saved: &'static [&'static str], words: &'a [String]) -> Option<Fault<'a>>
    ensures { option_map fault_seen result ≡ spec.one_file (map (λ option. option.now) saved.entry.now) (map string_bytes words.entry.now) (map (λ option. option.now) saved.entry.now) }
{
    for second in saved {
        if let Some(fault) = fault_of_output(saved, words, second) {
            return Some(fault);
        }
    }
    None
}

// Whether another output is the first that names the file of this one.
fn fault_of_output<'a>(
    saved: &'static [&'static str],
    words: &'a [String],
    second: &'static str,
) -> Option<Fault<'a>>
    ensures { option_map fault_seen result ≡ spec.fault_of_output (map (λ option. option.now) saved.entry.now) (map string_bytes words.entry.now) second.now (value_of second.now (map string_bytes words.entry.now)) }
{
    match value_of(second.as_bytes(), words) {
        Some(file) => match option_of(file, words, saved) {
            Some(first) if first != second.as_bytes() => {
                Some(Fault::OneFile(first, second, file))
            }
            _ => None,
        },
        None => None,
    }
}
