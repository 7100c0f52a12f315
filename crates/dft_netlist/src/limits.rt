/// The most ports that a design may have.
pub const MAX_PORTS: usize = 32_768;

/// The most nets that a design may have.
pub const MAX_NETS: usize = 524_288;

/// The most instances that a design may have.
pub const MAX_INSTANCES: usize = 262_144;
