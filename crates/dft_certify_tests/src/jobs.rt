//! A large generated job.

use dft_test_support::{prints, shelf};
use dft_top::Status;
use std::test::Fail;

// Two thousand flip-flops.
static LARGE: &str =
    "compiled cells 2000 chains 16 cycles 141 patterns 10 encoded 500 unsolvable 0 skipped 0 masked 0 vectors 1562\npass 1562 vectors 2830 compared\n";

#[test]
fn a_large_job_passes(rt: HostRuntime) -> Result<(), Fail> {
    let mut files = shelf(rt.alloc(), &[], None)?;
    let words = "generate --seed 7 --size 2000";
    prints(rt.alloc(), words, &mut files, Status::Done, LARGE)?;
    Ok(())
}
