//! The variables of sums.

ghost use Rattle.std.specs.Prelude.{◌≡◌, ◌==◌, IfOk, map, option_map};
ghost use Rattle.std.specs.List.{slice_split};
ghost use Rattle.dft_report_reader.specs.Saying as spec;
ghost use Rattle.dft_report_reader.specs.Words as texts;

use crate::numbers::number_of;
use dft_report::Variable;
use std::alloc::{AllocError, Global};

fn variable_with(channel: &[u8], cycle: &[u8]) -> Option<Variable>
    ensures { result ≡ spec.variable_with (texts.number_of channel.now) (texts.number_of cycle.now) }
{
    let channel = number_of(channel)?;
    let cycle = number_of(cycle)?;
    Some(Variable { channel, cycle })
}

fn variable_by(parts: &[&[u8]]) -> Option<Variable>
    ensures { result ≡ spec.variable_by (map (λ part. part.now) parts.now) }
{
    match parts {
        [channel, cycle] => variable_with(channel, cycle),
        _ => None,
    }
}

// The parts of a word, between points.
fn parts_of(alloc: Global, word: &[u8]) -> Result<Vec<&[u8]>, AllocError>
    ensures { IfOk result (λ parts. map (λ part. part.now) parts.items ≡ slice_split (λ b. b == 46) word.now) }
{
    word.split(|byte| *byte == b'.').collect(alloc)
}

// A channel and a cycle with a point between them.
fn variable_of(alloc: Global, word: &[u8]) -> Result<Option<Variable>, AllocError>
    ensures { IfOk result (λ variable. variable ≡ spec.variable_of word.now) }
{
    let parts = parts_of(alloc, word)?;
    Ok(variable_by(&parts))
}

// All of these, if each is a variable.
fn all_variables(alloc: Global, words: &[&[u8]]) -> Result<Option<Vec<Variable>>, AllocError>
    ensures { IfOk result (λ variables. option_map (λ vs. vs.items) variables ≡ spec.all_variables (map (λ word. word.now) words.now)) }
{
    let mut variables = Vec::new(alloc);
    for word in words {
        let Some(variable) = variable_of(alloc, word)? else {
            return Ok(None);
        };
        variables.push(variable)?;
    }
    Ok(Some(variables))
}

// The variables that words write: a stroke for none, or one at least.
pub(crate) fn variables_of(
    alloc: Global,
    words: &[&[u8]],
) -> Result<Option<Vec<Variable>>, AllocError>
    ensures { IfOk result (λ variables. option_map (λ vs. vs.items) variables ≡ spec.variables_of (map (λ word. word.now) words.now)) }
{
    match words {
        [] => Ok(None),
        [word] => {
            if *word == b"-".as_slice() {
                return Ok(Some(Vec::new(alloc)));
            }
            all_variables(alloc, words)
        }
        _ => all_variables(alloc, words),
    }
}
