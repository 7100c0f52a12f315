//! What a person is told of how a run ended.

use crate::words::words_of;
use dft_base::Place;
use dft_explain::{Ending, Page, Refusal, explanation, line_at, said_of};
use std::alloc::{AllocError, Global};
use std::test::Fail;

// Words, how their run ended, the text that it ended with, and what is told.
static TOLD: [(&str, u8, &str, &str); 10] = [
    ("replay --netlist a --patterns b", 0, "", ""),
    (
        "replay --netlist a --patterns=b",
        1,
        "q",
        "dft: b: vector 1, signal q: in every run the opposite of what is printed\n",
    ),
    (
        "generate --seed 1 --size 64",
        2,
        "q",
        "dft: vector 1, signal q: not determined; the start, the order of the clocks or an unknown value may decide\n",
    ),
    (
        "replay --patterns b --netlist a",
        3,
        "a",
        "dft: cannot load a (--netlist): no\n",
    ),
    (
        "replay --patterns b --netlist a\u{1b}",
        3,
        "a\u{1b}",
        "dft: cannot load a? (--netlist): no\n",
    ),
    (
        "scan --netlist a --config b --out c --report d",
        4,
        "c",
        "dft: cannot save c (--out): no\n",
    ),
    (
        "compile --netlist a --config b --cubes c --out-report=f --out-netlist d --out-patterns e",
        4,
        "f",
        "dft: cannot save f (--out-report): no\ndft: saved before it: d e\n",
    ),
    (
        "scan --netlist a --config b --out c --report d",
        5,
        "full",
        "dft: cannot write standard output: full\n",
    ),
    ("", 6, "", "dft: memory ran out\n"),
    (
        "",
        7,
        "no text",
        "dft: the words of the command line cannot be had: no text\n",
    ),
];

fn ending_of(kind: u8, text: &[u8]) -> Ending<'_> {
    match kind {
        0 => Ending::Done,
        1 => Ending::Mismatch {
            vector: 1,
            signal: text,
        },
        2 => Ending::Undetermined {
            vector: 1,
            signal: text,
        },
        3 => Ending::NotLoaded {
            file: text,
            reason: b"no".as_slice(),
        },
        4 => Ending::NotSaved {
            file: text,
            reason: b"no".as_slice(),
        },
        5 => Ending::NotPrinted { reason: text },
        6 => Ending::OutOfMemory,
        _ => Ending::NoWords { reason: text },
    }
}

// What is told of the run of a line's words.
fn told(alloc: Global, line: &str, ending: Ending<'_>) -> Result<Page, AllocError> {
    let words = words_of(alloc, line)?;
    explanation(alloc, &words, ending)
}

#[test]
fn a_person_is_told_how_a_run_ended(rt: HostRuntime) -> Result<(), Fail> {
    for (line, kind, text, wanted) in &TOLD {
        let page = told(rt.alloc(), *line, ending_of(*kind, text.as_bytes()))?;
        assert_eq!(rt; page.as_slice(), wanted.as_bytes(), "{line}");
    }
    Ok(())
}

static NETLIST: &str = "module m (c, d, q);\ninput c, d; output q;\nINV u (.A(d), .Z(p), .Y(q));\n";

static PIN: &str = "Z";

static REFUSED: &str = "\
dft: w.v:3:16: V5: a pin that the cell has not: Z
  INV u (.A(d), .Z(p), .Y(q));
                 ^
dft: try: name the pins as the library does
";

// What a code says, and what is to be done.
fn texts_of(code: &str) -> (&'static str, &'static str) {
    match said_of(code, None) {
        Some(said) => (said.sentence, said.advice),
        None => ("", ""),
    }
}

// A refusal of a pin of this name that the cell has not, at a column of a line.
fn missing_pin<'a>(name: &'a [u8], column: u32, line: Option<&'a [u8]>) -> Ending<'a> {
    let (sentence, advice) = texts_of("V5");
    Ending::Refused(Refusal {
        code: b"V5".as_slice(),
        sentence: sentence.as_bytes(),
        advice: advice.as_bytes(),
        place: Some(Place { line: 3, column }),
        name: Some(name),
        first: None,
        second: None,
        line,
    })
}

static SCAN_OF_W: &str = "scan --netlist w.v --config b --out c --report d";

#[test]
fn a_refusal_shows_its_line(rt: HostRuntime) -> Result<(), Fail> {
    let line = line_at(NETLIST.as_bytes(), 3);
    let page = told(rt.alloc(), SCAN_OF_W, missing_pin(PIN.as_bytes(), 16, line))?;
    assert_eq!(rt; page.as_slice(), REFUSED.as_bytes());
    Ok(())
}

static UNKNOWN: &str = "\
dft: w.v: H2: an instance of what is no cell of the library and no module of the text: MAJ3
dft: try: add the cell to the library, map to its cells, or add the module to the text
";

// A refusal of an instance of a module of this name that is not there.
fn missing_module(name: &[u8]) -> Ending<'_> {
    let (sentence, advice) = texts_of("H2");
    Ending::Refused(Refusal {
        code: b"H2".as_slice(),
        sentence: sentence.as_bytes(),
        advice: advice.as_bytes(),
        place: None,
        name: Some(name),
        first: None,
        second: None,
        line: None,
    })
}

#[test]
fn a_refusal_without_a_place_shows_no_line(rt: HostRuntime) -> Result<(), Fail> {
    let page = told(rt.alloc(), SCAN_OF_W, missing_module(b"MAJ3"))?;
    assert_eq!(rt; page.as_slice(), UNKNOWN.as_bytes());
    Ok(())
}

// How long a line of a text is.
fn length_of(text: &[u8], line: u32) -> usize {
    match line_at(text, line) {
        Some(line) => line.len(),
        None => 0,
    }
}

#[test]
fn a_long_line_is_shown_around_its_column(rt: HostRuntime) -> Result<(), Fail> {
    let mut line = Vec::new(rt.alloc());
    line.resize(1_000_000, b'\t')?;
    let page = told(
        rt.alloc(),
        SCAN_OF_W,
        missing_pin(PIN.as_bytes(), 500_000, Some(&line)),
    )?;
    assert_eq!(rt; length_of(page.as_slice(), 2), 102);
    assert_eq!(rt; length_of(page.as_slice(), 3), 63);
    Ok(())
}

// Whether nothing but printed bytes, blanks and ends of lines is told.
fn is_clear(page: &Page) -> bool {
    page.as_slice()
        .iter()
        .all(|byte| *byte == b'\n' || (b' '..=b'~').contains(byte))
}

// Every byte, in turn.
fn every_byte(alloc: Global) -> Result<Vec<u8>, AllocError> {
    let mut bytes = Vec::new(alloc);
    for byte in 0..=255u8 {
        bytes.push(byte)?;
    }
    Ok(bytes)
}

#[test]
fn no_byte_of_a_name_or_a_line_is_told_as_it_is(rt: HostRuntime) -> Result<(), Fail> {
    let bytes = every_byte(rt.alloc())?;
    for column in [1u32, 100, 257] {
        let refused = missing_pin(&bytes, column, Some(&bytes));
        assert!(rt;
            is_clear(&told(rt.alloc(), SCAN_OF_W, refused)?),
            "{column}"
        );
    }
    for kind in 0..8u8 {
        let page = told(rt.alloc(), SCAN_OF_W, ending_of(kind, &bytes))?;
        assert!(rt; is_clear(&page), "{kind}");
    }
    Ok(())
}

// How many lines a text has.
pub(crate) fn lines_of(text: &[u8]) -> usize {
    let mut lines = 0usize;
    for byte in text {
        if *byte == b'\n' {
            lines = lines.wrapping_add(1);
        }
    }
    lines
}

// How many lines are told of the pin at a column of the third line, which has 28 bytes: a column one past the end is the end's; behind
// that the line is another than the one that was read.
fn lines_told(alloc: Global, column: u32) -> Result<usize, AllocError> {
    let line = line_at(NETLIST.as_bytes(), 3);
    let page = told(alloc, SCAN_OF_W, missing_pin(PIN.as_bytes(), column, line))?;
    Ok(lines_of(page.as_slice()))
}

#[test]
fn a_line_is_shown_where_it_has_the_column(rt: HostRuntime) -> Result<(), Fail> {
    assert_eq!(rt; length_of(NETLIST.as_bytes(), 3), 28);
    for (column, lines) in [(1u32, 4usize), (29, 4), (30, 2)] {
        assert_eq!(rt; lines_told(rt.alloc(), column)?, lines, "{column}");
    }
    Ok(())
}
