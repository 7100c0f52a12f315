use dft_lanes::{
    Wide, has_bit, highest, is_packed, parity_and, wide_and, wide_mux, wide_not, wide_or, wide_xor,
    xor_into,
};
use std::alloc::{AllocError, Global};
use std::test::Fail;

// Words that differ from place to place.
fn row(alloc: Global, words: usize, start: u64) -> Result<Vec<u64>, AllocError> {
    let mut row = Vec::new(alloc);
    let mut word = start;
    for _ in 0..words {
        word = word
            .wrapping_mul(6364136223846793005)
            .wrapping_add(1442695040888963407);
        row.push(word ^ (word >> 29))?;
    }
    Ok(row)
}

// The sum of two rows, word by word.
fn plain_sum(alloc: Global, a: &[u64], b: &[u64]) -> Result<Vec<u64>, AllocError> {
    let mut sum = Vec::new(alloc);
    for (a, b) in a.iter().zip(b.iter()) {
        sum.push(*a ^ *b)?;
    }
    Ok(sum)
}

// Whether two rows have an odd number of bits in common, bit by bit.
fn plain_parity(a: &[u64], b: &[u64]) -> bool {
    let mut odd = false;
    for (a, b) in a.iter().zip(b.iter()) {
        for place in 0..64u32 {
            odd ^= ((*a & *b) >> place) & 1 == 1;
        }
    }
    odd
}

// Whether the kernels give for rows of so many words what plain sums give.
fn agree(alloc: Global, words: usize) -> Result<bool, AllocError> {
    let source = row(alloc, words, 7)?;
    agree_on(alloc, words, &source)
}

fn agree_on(alloc: Global, words: usize, source: &[u64]) -> Result<bool, AllocError> {
    let mut target = row(alloc, words, 42)?;
    let sum = plain_sum(alloc, &target, source)?;
    Ok(is_summed(&mut target, source, &sum))
}

// Whether the kernels give this sum and the plain parity. The target is the sum afterwards.
fn is_summed(target: &mut [u64], source: &[u64], sum: &[u64]) -> bool {
    if source.len() != target.len() {
        return false;
    }
    let is_odd = parity_and(target, source) == plain_parity(target, source);
    xor_into(target, source);
    is_odd && *target == *sum
}

static LENGTHS: [usize; 6] = [0, 1, 7, 8, 9, 256];

#[test]
fn kernels_give_what_plain_sums_give(rt: HostRuntime) -> Result<(), Fail> {
    for words in &LENGTHS {
        assert!(rt; agree(rt.alloc(), *words)?);
    }
    Ok(())
}

// A row, and its greatest bit.
static GREATEST: [(&[u64], Option<u32>); 5] = [
    (&[], None),
    (&[0, 1], Some(64)),
    (&[1, 2, 0, 0, 0, 0, 0, 0, 0, 0, 0], Some(65)),
    (&[0, 0, 0, 0, 0, 0, 0, 0, 0, 0, u64::MAX], Some(703)),
    (&[0; 24], None),
];

// The greatest bit of a short row.
fn greatest(row: &[u64]) -> Option<u32> {
    if row.len() > 24 {
        return Some(u32::MAX);
    }
    highest(row)
}

#[test]
fn the_greatest_bit_is_found(rt: HostRuntime) {
    for (row, bit) in &GREATEST {
        assert_eq!(rt; greatest(*row), *bit);
    }
}

#[test]
fn common_bits_are_counted(rt: HostRuntime) {
    assert!(rt; parity_and(&[3], &[1]));
    assert!(rt; !parity_and(&[3], &[3]));
    assert!(rt; has_bit(&[0, 4], 66));
}

// A row, a number of columns, and whether the row is one of so many.
static PACKED: [(&[u64], u32, bool); 4] = [
    (&[1, 7], 67, true),
    (&[1, 8], 67, false),
    (&[1], 65, false),
    (&[], 0, true),
];

#[test]
fn rows_have_no_bits_past_their_columns(rt: HostRuntime) {
    for (row, columns, packed) in &PACKED {
        assert_eq!(rt; is_packed(*row, *columns), *packed, "{columns} columns");
    }
}

// Whether a net can be 0, and whether it can be 1, the same in each of 512 patterns.
#[derive(Clone, Copy)]
struct Can(bool, bool);

const ZERO: Can = Can(true, false);

const ONE: Can = Can(false, true);

const BOTH: Can = Can(true, true);

fn all(can: Can) -> Wide {
    Wide {
        can_zero: [if can.0 { u64::MAX } else { 0 }; 8],
        can_one: [if can.1 { u64::MAX } else { 0 }; 8],
    }
}

// Gates of two inputs.
#[derive(Clone, Copy, Debug)]
enum Gate {
    And,
    Or,
    Xor,
}

fn gate_of(gate: Gate, a: &Wide, b: &Wide) -> Wide {
    match gate {
        Gate::And => wide_and(a, b),
        Gate::Or => wide_or(a, b),
        Gate::Xor => wide_xor(a, b),
    }
}

// A gate, its inputs, and what some choice gives.
static GATES: [(Gate, Can, Can, Can); 7] = [
    (Gate::And, BOTH, ZERO, ZERO),
    (Gate::And, BOTH, ONE, BOTH),
    (Gate::Or, BOTH, ONE, ONE),
    (Gate::Or, BOTH, ZERO, BOTH),
    (Gate::Xor, BOTH, ONE, BOTH),
    (Gate::Xor, BOTH, BOTH, BOTH),
    (Gate::Xor, ONE, ONE, ZERO),
];

#[test]
fn gates_give_what_some_choice_gives(rt: HostRuntime) {
    for (gate, a, b, wanted) in &GATES {
        assert!(rt;
            gate_of(*gate, &all(*a), &all(*b)) == all(*wanted),
            "{gate:?}"
        );
    }
    assert!(rt; wide_not(&all(ONE)) == all(ZERO), "Not");
}

// The inputs of a multiplexer and its select, and what some choice gives.
static CHOICES: [(Can, Can, Can, Can); 3] = [
    (ZERO, ONE, ONE, ONE),
    (ONE, ONE, BOTH, ONE),
    (ZERO, ONE, BOTH, BOTH),
];

#[test]
fn multiplexers_give_what_some_choice_gives(rt: HostRuntime) {
    for (first, second, select, wanted) in &CHOICES {
        let found = wide_mux(&all(*first), &all(*second), &all(*select));
        assert!(rt; found == all(*wanted));
    }
}
