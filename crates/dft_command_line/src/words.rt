//! The words of a command line.

ghost use Rattle.std.specs.Prelude.{◌≡◌, IfOk, map, option_map, string_bytes};
ghost use Rattle.std.specs.List.{list_all};
ghost use Rattle.dft_command_line.specs.Words.{AreFor};
ghost use Rattle.dft_command_line.specs.Named.{command_of};
ghost use Rattle.dft_command_line.specs.CommandLine.{may_stand};

use crate::commands::Command;
use crate::found::command_found;
use crate::syntax::matches;
use clap::error::ErrorKind;
use std::alloc::{AllocError, Global};

/// The command that the words are, or None where they are no command. A command has its options each once, in any order,
/// as `--name value` or `--name=value`: `replay` has `netlist` and `patterns`; `scan` has `netlist`, `config`, `out` and
/// `report`, of which the last two differ; `compile` has `netlist`, `config`, `cubes`, `out-netlist`, `out-patterns` and
/// `out-report`, of which the last three differ; `certify` has `netlist`, `config`, `cubes` and `report`; all these have
/// `library` where it is given, and so does `grade`, which has `netlist`, `patterns` and `out`, and so does `configure`, which has
/// `netlist`, `out`, `channels` and just one of `chains` and `length`, and may have `outputs` and `masks`: `channels`, `outputs` and
/// `masks` are 1 or 2 decimal digits of a number from 1 to 32, `chains` 1 to 4 of one from 1 to 1,024, `length` 1 to 5 of one from 1
/// to 65,536; and so does `seek`, which has `netlist`, `config`, `clock`, `limit`, 1 to 7 decimal digits of a number up to 1,000,000,
/// `out-cubes` and `out-report`, of which the last two differ. `generate` has `seed`, 1 to 20
/// decimal digits of a number below 2^64, and `size`, 1 to 5 digits of a number from 16 to 20,000. A value that is a word of its
/// own is `-` or does not begin with `-`, and no value is empty. No other words are understood.
pub fn command<'a>(alloc: Global, words: &'a [String]) -> Result<Option<Command<'a>>, AllocError>
    ensures { IfOk result (λ found. AreFor (map string_bytes words.entry.now) (option_map command_of found)) }
{
    if !may_stand(words) {
        return Ok(None);
    }
    match matches(alloc, words) {
        Ok(found) => Ok(command_found(&found)),
        Err(error) => match error.kind() {
            ErrorKind::OutOfMemory => Err(AllocError),
            _ => Ok(None),
        },
    }
}

// Whether no word is `--` or begins with one `-` before other bytes. `clap` would take `--` before or behind the
// options.
fn may_stand(words: &[String]) -> bool
    ensures { result ≡ list_all (λ word. may_stand (string_bytes word)) words.now }
{
    words.iter().all(|word| word_may_stand(word.as_str()))
}

fn word_may_stand(word: &str) -> bool
    ensures { result ≡ may_stand word.now }
{
    match word.as_bytes() {
        [b'-', b'-'] => false,
        [b'-', second, ..] => *second == b'-',
        _ => true,
    }
}
