//! Generated jobs.

ghost use Rattle.std.specs.Prelude.{◌≡◌, ◌≤◌, ◌+◌, ◌*◌, ◌/◌, IfOk, length};
ghost use Rattle.dft_generate.specs.Jobs.{IsJob, IsSize};
ghost use Rattle.dft_generate.specs.Jobs as spec;
ghost use Rattle.dft_generate.specs.Words.{words_of};

use crate::configuration::configuration;
use crate::cubes::cubes;
use crate::netlist::netlist;
use dft_random::drawn;
use std::alloc::{AllocError, Global};

/// The texts of a generated job.
#[derive(Debug)]
pub struct Job {
    /// Flip-flops in two domains, each behind a gate of two flip-flops' outputs.
    pub netlist: Vec<u8>,
    /// Sixteen chains behind a ring of sixteen stages on two channels.
    pub configuration: Vec<u8>,
    /// A cube for each four flip-flops, of four care bits at most.
    pub cubes: Vec<u8>,
}

// One call for all fields, so that the proof of what owns a value stays short.
impl Drop for Job {
    fn drop(self) {
        let Job {
            netlist: _,
            configuration: _,
            cubes: _,
        } = self;
    }
}

/// Whether a job may have so many cells: 16 to 20,000.
pub fn is_size(size: usize) -> bool
    ensures { result ≡ spec.is_size size }
{
    16 <= size && size <= 20000
}

// The job of these words.
fn job_of(alloc: Global, size: usize, words: &[u32]) -> Result<Job, AllocError>
    requires size { IsSize size }
    requires words { size * 3 + size / 4 * 4 ≤ length words.now }
    ensures { IfOk result (IsJob size words.now) }
{
    Ok(Job {
        netlist: netlist(alloc, size, words)?,
        configuration: configuration(alloc)?,
        cubes: cubes(alloc, size, words)?,
    })
}

/// The job of a seed and a size: the stated texts, whose words the generator PCG XSH RR 64/32 gives with the seed for its state, on
/// stream 0.
pub fn generate(alloc: Global, seed: u64, size: usize) -> Result<Job, AllocError>
    requires { IsSize size }
    ensures { IfOk result (IsJob size (words_of seed size)) }
{
    let words = drawn(alloc, seed, 0, size * 3 + size / 4 * 4)?;
    job_of(alloc, size, &words)
}
