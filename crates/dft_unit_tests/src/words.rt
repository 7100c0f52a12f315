//! What is wrong with words that are no command, and words that ask for help.

use crate::endings::lines_of;
use dft_command_line::command;
use dft_explain::{Request, Topic, asked, fault_of_words, help};
use std::alloc::{AllocError, Global};
use std::test::Fail;

// Words, and what is said of them with the form that follows: a byte that is not printed, and words that are a command.
static FAULTS: [(&str, &str); 2] = [
    (
        "a\u{1b}b",
        "dft: no such command: a?b\ndft: usage: dft COMMAND ..; dft --help says more\n",
    ),
    (
        "generate --seed=1 --size=00016",
        "dft: usage: dft generate --seed NUMBER --size NUMBER\n",
    ),
];

// The words between the blanks of a line.
pub(crate) fn words_of(alloc: Global, line: &str) -> Result<Vec<String>, AllocError> {
    let mut words = Vec::new(alloc);
    for word in line.split_whitespace() {
        words.push(String::from_str(alloc, word)?)?;
    }
    Ok(words)
}

#[test]
fn the_first_fault_of_words_is_told(rt: HostRuntime) -> Result<(), Fail> {
    for (line, wanted) in &FAULTS {
        let words = words_of(rt.alloc(), *line)?;
        let page = fault_of_words(rt.alloc(), &words)?;
        assert_eq!(rt; page.as_slice(), wanted.as_bytes(), "{line}");
    }
    Ok(())
}

// Lines of words that are commands.
static COMMANDS: [&str; 8] = [
    "replay --netlist a --patterns=b --library c",
    "scan --netlist a --config b --out c --report=d --library e",
    "compile --netlist a --config=b --cubes c --out-netlist d --out-patterns e --out-report f --library=g",
    "certify --netlist a --config b --cubes c --report d --library e",
    "generate --seed 1 --size 16",
    "grade --netlist a --patterns=b --out c --library d",
    "seek --netlist a --config=b --clock c --limit 7 --out-cubes d --out-report=e --library f",
    "configure --netlist a --channels=2 --chains 4 --out b --outputs=1 --masks 3 --library c",
];

// What stands in place of a word that is bent.
static BENT: [&str; 12] = [
    "",
    "-",
    "--",
    "-x",
    "--no",
    "a",
    "e",
    "--netlist",
    "--library=l",
    "7",
    "--help",
    "--size",
];

// A line's words with the word at this place dropped (0), doubled (1), with `=` behind it (2), with a value joined to it (3), or another in its
// place.
fn bent(alloc: Global, words: &[String], at: usize, how: usize) -> Result<Vec<String>, AllocError> {
    let mut made = Vec::new(alloc);
    for (place, word) in words.iter().enumerate() {
        if place != at {
            made.push(String::from_str(alloc, word.as_str())?)?;
        } else {
            push_bent(alloc, &mut made, word.as_str(), how)?;
        }
    }
    Ok(made)
}

fn push_bent(
    alloc: Global,
    made: &mut Vec<String>,
    word: &str,
    how: usize,
) -> Result<(), AllocError> {
    match how {
        0 => {}
        1 => {
            made.push(String::from_str(alloc, word)?)?;
            made.push(String::from_str(alloc, word)?)?;
        }
        2 => made.push(format!(in alloc; "{word}=")?)?,
        3 => made.push(format!(in alloc; "{word}=v")?)?,
        _ => made.push(String::from_str(alloc, BENT[(how - 4) % BENT.len()])?)?,
    }
    Ok(())
}

// Whether a fault is told exactly where the words are no command.
fn is_told_rightly(alloc: Global, words: &[String]) -> Result<bool, AllocError> {
    let page = fault_of_words(alloc, words)?;
    let lines = lines_of(page.as_slice());
    let is_command = command(alloc, words)?.is_some();
    Ok(lines == if is_command { 1 } else { 2 })
}

// The place of the second word that is bent.
fn other_place(at: usize, how: usize, second: usize, len: usize) -> usize {
    let place = at.wrapping_mul(7).wrapping_add(how).wrapping_add(second);
    if len == 0 { 0 } else { place % len }
}

// Whether of words bent so at a place, and then at another in three ways, a fault is told rightly.
fn are_told_rightly(
    alloc: Global,
    words: &[String],
    at: usize,
    how: usize,
) -> Result<bool, AllocError> {
    let once = bent(alloc, words, at, how)?;
    for second in 0..3usize {
        let place = other_place(at, how, second, once.len());
        let twice = bent(alloc, &once, place, how.wrapping_add(second))?;
        if !is_told_rightly(alloc, &twice)? {
            return Ok(false);
        }
    }
    is_told_rightly(alloc, &once)
}

#[test]
fn a_fault_is_told_where_words_are_no_command(rt: HostRuntime) -> Result<(), Fail> {
    let mut count = 0usize;
    for line in &COMMANDS {
        let words = words_of(rt.alloc(), *line)?;
        assert!(rt; is_told_rightly(rt.alloc(), &words)?, "{line}");
        for at in 0..words.len() {
            for how in 0..16usize {
                assert!(rt;
                    are_told_rightly(rt.alloc(), &words, at, how)?,
                    "{line}: {at} {how}"
                );
                count = count.wrapping_add(4);
            }
        }
    }
    assert!(rt; count > 2000, "{count}");
    Ok(())
}

// Lines of words that are commands with the options that they need, and no others.
static NEEDED: [&str; 8] = [
    "replay --netlist=a --patterns=b",
    "scan --netlist=a --config=b --out=c --report=d",
    "compile --netlist=a --config=b --cubes=c --out-netlist=d --out-patterns=e --out-report=f",
    "certify --netlist=a --config=b --cubes=c --report=d",
    "generate --seed=1 --size=16",
    "grade --netlist=a --patterns=b --out=c",
    "seek --netlist=a --config=b --clock=c --limit=7 --out-cubes=d --out-report=e",
    "configure --netlist=a --channels=2 --length=4 --out=b",
];

// The options of all commands, and one that none has.
static OPTIONS: [&str; 21] = [
    "library",
    "config",
    "netlist",
    "patterns",
    "cubes",
    "report",
    "out",
    "out-netlist",
    "out-patterns",
    "out-report",
    "seed",
    "size",
    "clock",
    "limit",
    "out-cubes",
    "channels",
    "chains",
    "length",
    "outputs",
    "masks",
    "no",
];

// The words with one option more.
fn with_option(alloc: Global, words: &[String], option: &str) -> Result<Vec<String>, AllocError> {
    let mut made = Vec::new(alloc);
    for word in words {
        made.push(String::from_str(alloc, word.as_str())?)?;
    }
    made.push(format!(in alloc; "--{option}=17")?)?;
    Ok(made)
}

#[test]
fn commands_have_the_options_that_are_told(rt: HostRuntime) -> Result<(), Fail> {
    for line in &NEEDED {
        let words = words_of(rt.alloc(), *line)?;
        assert!(rt; command(rt.alloc(), &words)?.is_some(), "{line}");
        for option in &OPTIONS {
            let more = with_option(rt.alloc(), &words, *option)?;
            assert!(rt; is_told_rightly(rt.alloc(), &more)?, "{line}: {option}");
        }
        for at in 0..words.len() {
            let less = bent(rt.alloc(), &words, at, 0)?;
            assert!(rt; is_told_rightly(rt.alloc(), &less)?, "{line}: {at}");
        }
    }
    Ok(())
}

// The words with one value for the options at two places.
fn with_one_value(
    alloc: Global,
    words: &[String],
    first: usize,
    second: usize,
) -> Result<Vec<String>, AllocError> {
    let mut made = Vec::new(alloc);
    for (place, word) in words.iter().enumerate() {
        let option = word.as_str().split_once('=');
        match option {
            Some((option, _)) if place == first || place == second => {
                made.push(format!(in alloc; "{option}=x")?)?;
            }
            _ => made.push(String::from_str(alloc, word.as_str())?)?,
        }
    }
    Ok(made)
}

#[test]
fn outputs_of_one_name_are_told(rt: HostRuntime) -> Result<(), Fail> {
    for line in &NEEDED {
        let words = words_of(rt.alloc(), *line)?;
        for first in 0..words.len() {
            for second in 0..first {
                let made = with_one_value(rt.alloc(), &words, first, second)?;
                assert!(rt;
                    is_told_rightly(rt.alloc(), &made)?,
                    "{line}: {second} {first}"
                );
            }
        }
    }
    Ok(())
}

// Words that ask, and for what.
static ASKED: [(&str, Option<Request>); 10] = [
    ("--help", Some(Request::Help)),
    ("--version", Some(Request::Version)),
    ("scan --help", Some(Request::HelpOf(Topic::Scan))),
    ("grade --help", Some(Request::HelpOf(Topic::Grade))),
    ("seek --help", Some(Request::HelpOf(Topic::Seek))),
    ("configure --help", Some(Request::HelpOf(Topic::Configure))),
    ("scan --help x", None),
    ("help", None),
    ("-h", None),
    ("--help --version", None),
];

#[test]
fn three_lists_of_words_ask(rt: HostRuntime) -> Result<(), Fail> {
    for (line, wanted) in &ASKED {
        let words = words_of(rt.alloc(), *line)?;
        assert_eq!(rt; asked(&words), *wanted, "{line}");
    }
    assert_eq!(rt; help(Request::Version), "dft 0.1\n");
    assert!(rt;
        help(Request::HelpOf(Topic::Replay)).starts_with("usage: dft replay --netlist FILE"),
        "replay"
    );
    Ok(())
}
