//! Pattern texts that were worked by hand, and the written form read back.

use crate::pattern_lines::{letters, line_of};
use dft_base::name_of;
use dft_netlist::Dir;
use dft_patterns::{Act, Acts, Note, NoteKind, PatternSet, StilSignal};
use dft_stil_out::write;
use std::alloc::{AllocError, Global};
use std::test::Fail;

// What stands before vectors.
static VECTORS: &str =
    "STIL 1.0;Signals{c In;d In;q Out;}Timing{WaveformTable w{Period'100ns';Waveforms{c{0{'0ns'D;}P{'0ns'D;'50ns'U;'80ns'D;}}d{0{'0ns'D;}1{'0ns'U;}}q{H{'40ns'H;}X{'0ns'X;}}}}}PatternBurst b{PatList{p;}}PatternExec{PatternBurst b;}Pattern p{W w;\n";

// The same with groups, one of which has a signal's name and one a signal twice.
static GROUPS: &str =
    "STIL 1.0;Signals{c In;d In;q Out;}SignalGroups{c='d+c';k='c';h='c+d';r='d+c+d';}Timing{WaveformTable w{Period'9ns';Waveforms{c{0{'0ns'D;}1{'0ns'U;}}}}}PatternBurst b{PatList{p;}}PatternExec{PatternBurst b;}Pattern p{W w;\n";

// How a text begins.
#[derive(Clone, Copy)]
enum Begun {
    Nothing,
    Vectors,
    Groups,
}

fn beginning(begun: Begun) -> &'static str {
    match begun {
        Begun::Nothing => "",
        Begun::Vectors => VECTORS,
        Begun::Groups => GROUPS,
    }
}

// How a text begins, how it goes on, and what it reads as.
static LINES: [(Begun, &str, &str); 9] = [
    (Begun::Vectors, "}", "ok"),
    (Begun::Vectors, "V{c=P;d=1;}V{c=0;q=H;}}", "ok P1- 01H"),
    (Begun::Vectors, "V{q=X;}V{d=1;}V{}}", "ok --X -1X -1X"),
    (Begun::Vectors, "lv:V{c=0;}W w;\"V\":V{c=P;}}", "ok 0-- P--"),
    (Begun::Vectors, "V{c=0;}V{c=P;}}", "ok 0-- P--"),
    (
        Begun::Nothing,
        "STIL 1.0; Signals { c In; d In; q Out; } Timing { WaveformTable t { Period '20ns'; Waveforms { c { 0 { '0ns' D; } P { '0ns' D; '10ns' U; '15ns' D; } } d { 1 { '0ns' U; } } q { H { '5ns' H; } } } } } PatternBurst b { PatList { p; } } PatternExec { PatternBurst b; } Pattern p { W t; V { c = P; d = 1; } V { c = 0; q = H; } }",
        "ok P1- 01H",
    ),
    (Begun::Vectors, "\"Loop\":V{}}", "ok ---"),
    (Begun::Vectors, "V{c=P;}V{}V{d=1;}}", "ok P-- P-- P1-"),
    (Begun::Groups, "V{c=01;}}", "ok 10-"),
];

// What a text of two parts reads as.
fn line_of_both(alloc: Global, begun: &str, rest: &str) -> Result<String, AllocError> {
    let mut text = String::from_str(alloc, begun)?;
    text.push_str(rest)?;
    line_of(alloc, text.as_bytes())
}

#[test]
fn pattern_texts_read_as_by_hand(rt: HostRuntime) -> Result<(), Fail> {
    for (begun, rest, wanted) in &LINES {
        let line = line_of_both(rt.alloc(), beginning(*begun), *rest)?;
        assert_eq!(rt; line.as_str(), *wanted, "at {rest}");
    }
    Ok(())
}

// The written form for a clock, an input and an output.
static WRITTEN: &str =
    "STIL 1.0;\nSignals {\n\"c\" In;\n\"d\" In;\n\"q\" Out;\n}\nSignalGroups {\nins = '\"c\"+\"d\"';\nouts = '\"q\"';\n}\nTiming {\nWaveformTable w {\nPeriod '100ns';\nWaveforms {\nins { 0 { '0ns' D; } 1 { '0ns' U; } P { '0ns' D; '50ns' U; '80ns' D; } }\nouts { L { '0ns' X; '40ns' L; } H { '0ns' X; '40ns' H; } X { '0ns' X; } }\n}\n}\n}\nPatternBurst b { PatList { p; } }\nPatternExec { PatternBurst b; }\nPattern p {\nW w;\nAnn {* set-up *}\nV { ins = P1; outs = X; }\nAnn {* pattern 7 *}\nAnn {* unload *}\nV { ins = 00; outs = H; }\n}\n";

// A text by hand, of a flip-flop that takes a 1.
static BY_HAND: &str =
    "STIL 1.0;\nSignals { \"c\" In; \"d\" In; \"q\" Out; }\nSignalGroups { all = '\"c\" + \"d\" + \"q\"'; }\nTiming { WaveformTable w { Period '100ns'; Waveforms {\n\"c\" { 0 { '0ns' D; } P { '0ns' D; '50ns' U; '80ns' D; } }\n\"d\" { 01 { '0ns' D/U; } }\n\"q\" { HX { '0ns' X; '40ns' H/X; } }\n} } }\nPatternBurst b { PatList { p; } }\nPatternExec { PatternBurst b; }\nPattern p { W w; V { all = P1X; } V { all = 00H; } }\n";

// Each text that is cut before its last brace is refused.
#[test]
fn cut_pattern_texts_are_refused(rt: HostRuntime) -> Result<(), Fail> {
    for text in [WRITTEN, BY_HAND] {
        let text = text.as_bytes();
        for length in 0..text.len() - 2 {
            let line = line_of(rt.alloc(), &text[..length])?;
            assert_eq!(rt; line.as_str(), "refused", "cut at {length}");
        }
    }
    Ok(())
}

fn add_signals(
    signals: &mut Vec<StilSignal>,
    alloc: Global,
    names: &str,
    dir: Dir,
) -> Result<(), AllocError> {
    for name in names.split_whitespace() {
        if let Some(name) = name_of(alloc, name.as_bytes())? {
            signals.push(StilSignal { name, dir })?;
        }
    }
    Ok(())
}

// A set with these inputs and outputs, and these vectors of letters.
fn set_of(
    alloc: Global,
    inputs: &str,
    outputs: &str,
    vectors: &str,
    notes: Vec<Note>,
) -> Result<PatternSet, AllocError> {
    let mut signals = Vec::new(alloc);
    add_signals(&mut signals, alloc, inputs, Dir::Input)?;
    add_signals(&mut signals, alloc, outputs, Dir::Output)?;
    let mut rows = Vec::new(alloc);
    for letters in vectors.split_whitespace() {
        rows.push(acts_of(alloc, letters)?)?;
    }
    Ok(PatternSet::noted(signals, rows, notes))
}

fn acts_of(alloc: Global, letters: &str) -> Result<Acts, AllocError> {
    let mut acts = Acts::new(alloc);
    for letter in letters.chars() {
        acts.push(match letter {
            '0' => Act::Low,
            '1' => Act::High,
            'P' => Act::Pulse,
            'L' => Act::ExpectLow,
            'H' => Act::ExpectHigh,
            _ => Act::Ignore,
        })?;
    }
    Ok(acts)
}

// What is written of a set; nothing where it is not written.
fn written(alloc: Global, set: &PatternSet) -> Vec<u8> {
    match write(alloc, set).ok() {
        Some(text) => text,
        None => Vec::new(alloc),
    }
}

fn notes(alloc: Global) -> Result<Vec<Note>, AllocError> {
    let mut notes = Vec::new(alloc);
    push_note(&mut notes, 0, NoteKind::SetUp)?;
    push_note(&mut notes, 1, NoteKind::Pattern(7))?;
    push_note(&mut notes, 1, NoteKind::Unload)?;
    Ok(notes)
}

fn push_note(notes: &mut Vec<Note>, before: u32, what: NoteKind) -> Result<(), AllocError> {
    notes.push(Note { before, what })?;
    Ok(())
}

// What is written of a set with notes.
fn written_with_notes(alloc: Global) -> Result<Vec<u8>, AllocError> {
    let set = set_of(alloc, "c d", "q", "P1X 00H", notes(alloc)?)?;
    Ok(written(alloc, &set))
}

#[test]
fn notes_are_written(rt: HostRuntime) -> Result<(), Fail> {
    let text = written_with_notes(rt.alloc())?;
    assert_eq!(rt; text.as_slice(), WRITTEN.as_bytes());
    Ok(())
}

#[test]
fn notes_are_read_over(rt: HostRuntime) -> Result<(), Fail> {
    let text = written_with_notes(rt.alloc())?;
    let line = line_of(rt.alloc(), &text)?;
    assert_eq!(rt; line.as_str(), "ok P1X 00H");
    Ok(())
}

// Inputs, outputs and vectors that are read as they were written.
static SETS: [(&str, &str, &str); 4] = [
    ("c", "q", "PX 0L 0H"),
    ("clk d[1] d[0]", "", "P10 001"),
    ("a", "x y", "1XX 0HL"),
    ("a b", "x", ""),
];

// Whether what is written of a set reads as its vectors.
fn is_read_as_written(
    alloc: Global,
    inputs: &str,
    outputs: &str,
    vectors: &str,
) -> Result<bool, AllocError> {
    let set = set_of(alloc, inputs, outputs, vectors, Vec::new(alloc))?;
    let text = written(alloc, &set);
    reads_as(alloc, &text, &set)
}

fn reads_as(alloc: Global, text: &[u8], set: &PatternSet) -> Result<bool, AllocError> {
    let line = line_of(alloc, text)?;
    Ok(letters(alloc, set)?.as_str() == line.as_str())
}

#[test]
fn sets_are_read_as_they_were_written(rt: HostRuntime) -> Result<(), Fail> {
    for (inputs, outputs, vectors) in &SETS {
        let holds = is_read_as_written(rt.alloc(), *inputs, *outputs, *vectors)?;
        assert!(rt; holds, "{vectors}");
    }
    Ok(())
}
