use crate::ids::InstanceId;

/// What drives a net.
#[derive(Clone, Copy, Debug, PartialEq, Eq)]
pub enum NetDriver {
    /// The outside: the net is the bit of an input port.
    Input,
    /// The output pin of this number of an instance.
    Pin { instance: InstanceId, pin: usize },
    /// The join of this number.
    Join(usize),
    /// No input port, pin or join.
    Nothing,
}
