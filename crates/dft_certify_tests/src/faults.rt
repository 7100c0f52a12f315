//! Tests of certificates and generated jobs where a call of the outside fails.

use dft_files::Failing;
use dft_test_support::{COLD, COLD_HEAD, FIVE, PAIR, PARTED, PARTED_TOLD, Unlike, ran, shelf};
use dft_top::Status;
use std::alloc::Global;
use std::test::Fail;

static CERTIFY: &str = "certify --report r --cubes p --library l --netlist n --config c";

// What is printed of two unsolvable cubes.
const TWO: &str = "certified 2 cubes\n";

// The cells of the small case.
static CELLS: &str =
    "[cells]\nDFF = { kind = 'dff', clock = 'CK', din = 'D', output = 'Q', scan = 'SDFF' }\nINV = { kind = 'inv', inputs = ['A'], output = 'Y' }\nLOCKUP = { kind = 'lockup', clock = 'CK', din = 'D', output = 'Q' }\nNAND2 = { kind = 'nand', inputs = ['A', 'B'], output = 'Y' }\nSDFF = { kind = 'sdff', clock = 'CK', din = 'D', scan_in = 'SI', scan_enable = 'SE', output = 'Q' }\n";

// The load and the put that fail, the status, and what is printed. The library, the configuration, the netlist, the cubes and
// the report are loaded in this order.
static FAULTS: [(Option<Failing>, Option<Failing>, Status, &str); 9] = [
    (None, None, Status::Done, TWO),
    (
        Some(Failing { call: 0, kept: 0 }),
        None,
        Status::ReadFault,
        "",
    ),
    (
        Some(Failing { call: 1, kept: 0 }),
        None,
        Status::ReadFault,
        "",
    ),
    (
        Some(Failing { call: 2, kept: 0 }),
        None,
        Status::ReadFault,
        "",
    ),
    (
        Some(Failing { call: 3, kept: 0 }),
        None,
        Status::ReadFault,
        "",
    ),
    (
        Some(Failing { call: 4, kept: 0 }),
        None,
        Status::ReadFault,
        "",
    ),
    (Some(Failing { call: 5, kept: 0 }), None, Status::Done, TWO),
    (
        None,
        Some(Failing { call: 0, kept: 0 }),
        Status::WriteFault,
        "",
    ),
    (
        None,
        Some(Failing { call: 0, kept: 10 }),
        Status::WriteFault,
        "certified ",
    ),
];

fn ends(
    alloc: Global,
    failing: (Option<Failing>, Option<Failing>),
    status: Status,
    line: &str,
) -> Result<(), Unlike> {
    let (load, put) = failing;
    let held = [
        ("l", CELLS, ""),
        ("n", FIVE, ""),
        ("c", COLD, PAIR),
        ("p", PARTED, ""),
        ("r", COLD_HEAD, PARTED_TOLD),
    ];
    let mut files = shelf(alloc, &held, load)?;
    ran(alloc, CERTIFY, &mut files, put)?.is(alloc, status, line)
}

#[test]
fn faults_get_their_statuses(rt: HostRuntime) -> Result<(), Fail> {
    for (load, put, status, line) in &FAULTS {
        ends(rt.alloc(), (*load, *put), *status, *line)?;
    }
    Ok(())
}

// A job of 64 flip-flops: 16 cubes of up to four bits each, in loads of 20 cycles.
const SEED_ONE: &str =
    "compiled cells 64 chains 16 cycles 20 patterns 4 encoded 15 unsolvable 1 skipped 0 masked 0 vectors 105\npass 105 vectors 164 compared\n";

// How many bytes the put keeps that fails, and what is printed: both lines of a job are one put.
static KEPT: [(u32, &str); 3] = [(0, ""), (9, "compiled "), (1_000, SEED_ONE)];

fn keeps(alloc: Global, kept: u32, line: &str) -> Result<(), Unlike> {
    let mut files = shelf(alloc, &[], None)?;
    let put = Some(Failing { call: 0, kept });
    let ended = ran(alloc, "generate --seed 1 --size 64", &mut files, put)?;
    ended.is(alloc, Status::WriteFault, line)
}

#[test]
fn a_prefix_of_both_lines_is_put(rt: HostRuntime) -> Result<(), Fail> {
    for (kept, line) in &KEPT {
        keeps(rt.alloc(), *kept, *line)?;
    }
    Ok(())
}
