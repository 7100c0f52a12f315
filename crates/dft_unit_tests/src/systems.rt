ghost use Rattle.std.specs.Prelude.{◌≡◌, ◌<◌, length};

use dft_gf2::{Fill, Mark, Outcome, System};
use dft_lanes::{has_bit, is_packed, put};
use std::alloc::{AllocError, Global};
use std::test::Fail;

// The bits that a text writes.
fn bits(alloc: Global, text: &str) -> Result<Vec<bool>, AllocError> {
    let mut bits = Vec::new(alloc);
    for byte in text.as_bytes() {
        if *byte != b'=' {
            bits.push(*byte == b'1')?;
        }
    }
    Ok(bits)
}

// The words that hold these bits.
fn packed(alloc: Global, bits: &[bool]) -> Result<Vec<u64>, AllocError> {
    let mut words = vec![in alloc; 0u64; bits.len().div_ceil(64)]?;
    for place in 0..bits.len() {
        if place / 64 < words.len() {
            put(&mut words, place, bits[place]);
        }
    }
    Ok(words)
}

// Adds an equation, as `101=0`, and says its outcome by a letter.
fn added(alloc: Global, system: &mut System, equation: &str, id: u32) -> Result<char, AllocError> {
    let bits = bits(alloc, equation)?;
    let columns = system.columns() as usize;
    if bits.len() != columns + 1 {
        return Ok('?');
    }
    let row = packed(alloc, &bits[..columns])?;
    if !is_packed(&row, system.columns()) {
        return Ok('!');
    }
    Ok(match system.try_add(&row, bits[columns], id) {
        Outcome::Kept => 'K',
        Outcome::Implied => 'I',
        Outcome::Conflict => 'C',
    })
}

// Writes the solution nearest to the fill that a text writes, where it has a bit for each column.
fn solved(alloc: Global, system: &System, fill: &str, text: &mut String) -> Result<(), AllocError> {
    let like = bits(alloc, fill)?;
    if like.len() == system.columns() as usize {
        solved_like(alloc, system, &like, text)?;
    }
    Ok(())
}

fn solved_like(
    alloc: Global,
    system: &System,
    like: &[bool],
    text: &mut String,
) -> Result<(), AllocError>
    requires { length like.now ≡ system.now.columns }
{
    let fill = Fill::new(
        |column: u32| -> bool
            requires { column < length like.now }
        { like[column as usize] },
        like,
    );
    let words = system.solve(alloc, &fill)?;
    push_bits(text, &words, like.len())
}

// Writes so many bits of a row.
fn push_bits(text: &mut String, words: &[u64], count: usize) -> Result<(), AllocError> {
    for column in 0..count {
        let one = column / 64 < words.len() && has_bit(words, column);
        text.push(if one { '1' } else { '0' })?;
    }
    Ok(())
}

// Adds an equation, takes a mark at `(`, or goes back to it at `)`, and says what came of it by a letter.
fn stepped(
    alloc: Global,
    system: &mut System,
    mark: &mut Option<Mark>,
    word: &str,
    id: u32,
) -> Result<char, AllocError> {
    if word == "(" {
        *mark = Some(system.mark());
        return Ok('(');
    }
    if word != ")" {
        return added(alloc, system, word, id);
    }
    if let Some(mark) = *mark {
        if mark.number() <= system.mark().number() {
            system.back_to(mark);
        }
    }
    Ok(')')
}

// Writes the outcomes of these equations, whose ids begin with this one.
fn push_outcomes(
    alloc: Global,
    system: &mut System,
    equations: &str,
    first: u32,
    text: &mut String,
) -> Result<(), AllocError> {
    let mut mark = None;
    let mut id = first;
    for equation in equations.split_whitespace() {
        text.push(stepped(alloc, system, &mut mark, equation, id)?)?;
        id = id.wrapping_add(1);
    }
    Ok(())
}

// Writes the certificate, where the last equation is a conflict.
fn push_certificate(alloc: Global, system: &System, text: &mut String) -> Result<(), AllocError> {
    if system.has_conflict() {
        for id in system.certificate(alloc)? {
            push_number(alloc, text, id)?;
        }
    }
    Ok(())
}

fn push_number(alloc: Global, text: &mut String, number: u32) -> Result<(), AllocError> {
    let shown = format!(in alloc; " {number}")?;
    text.push_str(&shown)
}

// What a system tells: the outcomes, the certificate where the last equation is a conflict, and the solution.
fn told(
    alloc: Global,
    columns: u32,
    equations: &str,
    first: u32,
    fill: &str,
) -> Result<String, AllocError> {
    let mut text = String::new(alloc);
    push_told(alloc, columns, equations, first, fill, &mut text)?;
    Ok(text)
}

fn push_told(
    alloc: Global,
    columns: u32,
    equations: &str,
    first: u32,
    fill: &str,
    text: &mut String,
) -> Result<(), AllocError> {
    let mut system = System::new(alloc, columns)?;
    push_outcomes(alloc, &mut system, equations, first, text)?;
    push_solved(alloc, &system, fill, text)
}

fn push_solved(
    alloc: Global,
    system: &System,
    fill: &str,
    text: &mut String,
) -> Result<(), AllocError> {
    push_certificate(alloc, system, text)?;
    text.push(' ')?;
    solved(alloc, system, fill, text)
}

// Columns, equations and marks, a fill, and what all solutions tell, worked out by hand.
static CASES: [(u32, &str, &str, &str); 13] = [
    (0, "=0 =1", "", "IC 1 "),
    (1, "0=0 0=1", "1", "IC 1 1"),
    (2, "11=1 11=1 11=0", "00", "KIC 0 2 01"),
    (2, "01=1 10=0 11=0", "11", "KKC 0 1 2 01"),
    (3, "111=1", "000", "K 001"),
    (3, "111=1", "110", "K 111"),
    (3, "110=0 110=1 011=1 101=1", "010", "KCKI 001"),
    (
        3,
        "101=0 011=0 ( 100=1 110=1 ) 110=1",
        "010",
        "KK(KC)C 0 1 6 000",
    ),
    (
        4,
        "1100=1 0110=1 0011=1 1001=1 1001=0",
        "1111",
        "KKKIC 0 1 2 4 1010",
    ),
    (4, "1010=1 1000=1 0010=0 0010=1", "0101", "KKIC 0 1 3 1101"),
    (
        5,
        "10000=1 01000=0 00100=1 11000=0",
        "00000",
        "KKKC 0 1 3 10100",
    ),
    (
        5,
        "11111=0 11100=1 00011=1 00011=0 00010=1 00001=0",
        "10101",
        "KKICKI 10010",
    ),
    (
        5,
        "00001=1 00011=0 00111=1 01111=0 00010=0 01001=1",
        "00000",
        "KKKKCC 0 2 3 5 01111",
    ),
];

#[test]
fn a_conflict_names_the_rows_that_sum_to_it(rt: HostRuntime) -> Result<(), Fail> {
    let told = told(rt.alloc(), 3, "101=0 011=0 110=0 110=1", 7, "111")?;
    assert_eq!(rt; told.as_str(), "KKIC 7 8 10 111");
    Ok(())
}

#[test]
fn small_systems_tell_what_their_solutions_tell(rt: HostRuntime) -> Result<(), Fail> {
    for (columns, equations, fill, expected) in &CASES {
        let told = told(rt.alloc(), *columns, equations, 0, fill)?;
        assert_eq!(rt; told.as_str(), *expected);
    }
    Ok(())
}
