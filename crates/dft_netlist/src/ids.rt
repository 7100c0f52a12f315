/// The number of a net of one design.
#[derive(Clone, Copy, Debug, PartialEq, Eq)]
pub struct NetId(pub u32);

/// The number of an instance of one design.
#[derive(Clone, Copy, Debug, PartialEq, Eq)]
pub struct InstanceId(pub u32);

/// The number of a port of one design.
#[derive(Clone, Copy, Debug, PartialEq, Eq)]
pub struct PortId(pub u16);
