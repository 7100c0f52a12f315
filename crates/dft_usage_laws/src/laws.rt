//! Words and their first fault.

ghost use Rattle.dft_usage_laws.specs.Usage.{FaultsAreUsage};

/// Words have no fault exactly where they are a command: so a person is told one exactly where a run answers Usage.
pub fn faults_are_usage()
    ensures { FaultsAreUsage }
{}
