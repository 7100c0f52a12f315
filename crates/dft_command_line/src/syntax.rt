//! The words as `clap` reads them.

ghost use Rattle.std.specs.Prelude.{◌≡◌, IfOk, false, true, map, string_bytes};
ghost use Rattle.clap.specs.Words.{FailsBy, app_of, fault_of, new_app, rule_of, subcommand_of, subcommand_rows_of, with_subcommand};
ghost use Rattle.clap.specs.declared.builder.command.Command.TheViews.{out-Command as fields_of};
ghost use Rattle.dft_command_line.specs.CommandLine.{dft_app, first_forms, option_rule, plain_app, with_forms, with_options};

use clap::{Arg, ArgMatches, Command, Error};
use std::alloc::{AllocError, Global};

// The words as `clap` reads them.
pub(crate) fn matches<'a>(alloc: Global, words: &'a [String]) -> Result<ArgMatches<'a>, Error>
    ensures kinds { FailsBy (fault_of dft_app (map string_bytes words.entry.now)) result }
    ensures found { IfOk result (λ m. subcommand_rows_of m ≡ subcommand_of dft_app (map string_bytes words.entry.now)) }
{
    let dft = commands(alloc)?;
    dft.try_get_matches_from(words)
}

// All commands.
fn commands<'a>(alloc: Global) -> Result<Command<'a>, AllocError>
    ensures { IfOk result (λ c. app_of c ≡ dft_app) }
{
    let dft = first_commands(alloc)?;
    let dft = with_form(alloc, dft, "generate", &["seed", "size"], &[])?;
    let dft = with_form(
        alloc,
        dft,
        "grade",
        &["netlist", "patterns", "out"],
        &["library"],
    )?;
    let dft = with_form(
        alloc,
        dft,
        "configure",
        &["netlist", "channels", "out"],
        &["chains", "length", "outputs", "masks", "library"],
    )?;
    let dft = with_form(
        alloc,
        dft,
        "seek",
        &[
            "netlist",
            "config",
            "clock",
            "limit",
            "out-cubes",
            "out-report",
        ],
        &["library"],
    )?;
    Ok(dft)
}

// The commands `replay`, `scan`, `compile` and `certify`: few in a function, since an owned value that is alive over many ways out is
// dear to prove.
fn first_commands<'a>(alloc: Global) -> Result<Command<'a>, AllocError>
    ensures { IfOk result (λ c. app_of c ≡ with_forms plain_app first_forms) }
{
    let dft = with_form(
        alloc,
        plain(alloc),
        "replay",
        &["netlist", "patterns"],
        &["library"],
    )?;
    let dft = with_form(
        alloc,
        dft,
        "scan",
        &["netlist", "config", "out", "report"],
        &["library"],
    )?;
    let dft = with_form(
        alloc,
        dft,
        "compile",
        &[
            "netlist",
            "config",
            "cubes",
            "out-netlist",
            "out-patterns",
            "out-report",
        ],
        &["library"],
    )?;
    let dft = with_form(
        alloc,
        dft,
        "certify",
        &["netlist", "config", "cubes", "report"],
        &["library"],
    )?;
    Ok(dft)
}

// The commands with one more, of this name, with options that are needed, and others that may be left out.
fn with_form<'a>(
    alloc: Global,
    dft: Command<'a>,
    name: &'a str,
    needed: &[&'a str],
    optional: &[&'a str],
) -> Result<Command<'a>, AllocError>
    ensures { IfOk result (λ c. app_of c ≡ with_subcommand (app_of dft.entry) (with_options false (with_options true (new_app name.entry.now) (map (λ n. n.now) needed.now)) (map (λ n. n.now) optional.now)).top) }
{
    let form = form(alloc, name, needed, optional)?;
    let dft = dft.subcommand(form)?;
    Ok(dft)
}

// The words are those behind the program's name, the first is a command, and there is no help.
fn plain<'a>(alloc: Global) -> Command<'a>
    ensures { app_of result ≡ plain_app }
{
    Command::new(alloc, "dft")
        .no_binary_name(true)
        .disable_help_flag(true)
        .disable_help_subcommand(true)
        .subcommand_required(true)
}

// A command with options that are needed, and others that may be left out.
fn form<'a>(
    alloc: Global,
    name: &'a str,
    needed: &[&'a str],
    optional: &[&'a str],
) -> Result<Command<'a>, AllocError>
    ensures app { IfOk result (λ c. app_of c ≡ with_options false (with_options true (new_app name.entry.now) (map (λ n. n.now) needed.now)) (map (λ n. n.now) optional.now)) }
    ensures local { IfOk result (λ c. (fields_of c).has_globals ≡ false) }
{
    let command = with_options(alloc, Command::new(alloc, name), needed, true)?;
    with_options(alloc, command, optional, false)
}

// The command with options of these names, each of one value.
fn with_options<'a>(
    alloc: Global,
    mut command: Command<'a>,
    names: &[&'a str],
    required: bool,
) -> Result<Command<'a>, AllocError>
    requires { (fields_of command).has_globals ≡ false }
    ensures app { IfOk result (λ c. app_of c ≡ with_options required (app_of command.entry) (map (λ name. name.now) names.now)) }
    ensures local { IfOk result (λ c. (fields_of c).has_globals ≡ false) }
{
    for name in names {
        command = command.arg(option_named(alloc, *name, required))?;
    }
    Ok(command)
}

// An option that has one value.
fn option_named<'a>(alloc: Global, name: &'a str, required: bool) -> Arg<'a>
    ensures rule { rule_of result ≡ option_rule (record { name = name.entry.now; required = required }) }
    ensures local { result.global ≡ false }
{
    Arg::new(alloc, name).long(name).required(required)
}
