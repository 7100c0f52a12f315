//! The program `dft`: hands its words, the real files and the real output to the tool, and ends with its status.
#![tactic(auto)]

use dft_top::end;
use std::process::ExitCode;

fn main(rt: HostRuntime) -> ExitCode {
    end(&rt)
}
