/// What is counted of a search.
#[derive(Clone, Copy, Debug, PartialEq, Eq)]
pub struct SeekCounts {
    /// The faults for which cubes were sought.
    pub faults: u32,
    /// Those for which one was found.
    pub cubes: u32,
    /// Those that no bits of the scanned cells and of the ports detect.
    pub not_testable: u32,
    /// Those whose search met more dead nodes than its limit.
    pub aborted: u32,
}
