//! How long files may be.

/// The most bytes of a library file: 64 MiB.
pub const MAX_LIBRARY_BYTES: u32 = 67_108_864;

/// The most bytes of a configuration file: 64 MiB.
pub const MAX_CONFIG_BYTES: u32 = 67_108_864;

/// The most bytes of a netlist file: 64 MiB.
pub const MAX_NETLIST_BYTES: u32 = 67_108_864;

/// The most bytes of a cube file: 64 MiB.
pub const MAX_CUBE_BYTES: u32 = 67_108_864;

/// The most bytes of a report file: 256 MiB.
pub const MAX_REPORT_BYTES: u32 = 268_435_456;

/// The most bytes of a pattern file: 256 MiB.
pub const MAX_PATTERN_BYTES: u32 = 268_435_456;
