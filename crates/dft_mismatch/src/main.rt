//! The program `dft` once more, so that another end of it is stored: a replay with a mismatch ends with status 1.
#![tactic(auto)]

use dft_top::end;
use std::process::ExitCode;

fn main(rt: HostRuntime) -> ExitCode {
    end(&rt)
}
