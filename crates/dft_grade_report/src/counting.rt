//! What is counted of a grading.

ghost use Rattle.std.specs.Prelude.{◌≡◌, ◌<◌, ◌^◌, length};
ghost use Rattle.dft_grade_report.specs.Counted as spec;

use dft_grade::{Grade, Graded};

/// What is counted of a grading.
#[derive(Clone, Copy, Debug, PartialEq, Eq)]
pub struct Counts {
    pub faults: u32,
    /// The faults that fail a compared bit in every run.
    pub detected: u32,
    /// All others.
    pub undetected: u32,
}

fn is_detected(grade: Grade) -> bool
    ensures { result ≡ spec.is_detected grade }
{
    matches!(grade, Grade::Detected { .. })
}

// How many of these faults are detected.
fn detected_count(graded: &[Graded]) -> u32
    requires { length graded.now < 2 ^ 32 }
    ensures { result ≡ spec.detected_count graded.now }
{
    let mut found = 0;
    for one in graded {
        if is_detected(one.grade) {
            found += 1;
        }
    }
    found
}

/// Counts these faults.
pub fn counts_of(graded: &[Graded]) -> Counts
    requires { length graded.now < 2 ^ 32 }
    ensures { result ≡ spec.counts_of graded.now }
{
    let faults = graded.len() as u32;
    let detected = detected_count(graded);
    Counts {
        faults,
        detected,
        undetected: faults - detected,
    }
}
