use dft_base::Tri;
use dft_logic::Circuit;
use dft_netlist::NetId;

/// A net that has this bit whatever drives it.
#[derive(Clone, Copy)]
pub struct Stuck {
    pub net: NetId,
    pub value: bool,
}

/// What nets are settled from: the values of ports by net, which are 1 where they are flagged as resets, and those of
/// flip-flops by instance, which are known only where they are flagged to hold one.
#[derive(Clone, Copy)]
pub struct Sources<'a> {
    pub ports: &'a [Tri],
    pub resets: &'a [bool],
    pub cells: &'a [Tri],
    pub holds: &'a [bool],
}

/// A design's circuit, the places of its nets in its order, which nets are needed, by net, the net that is stuck, if one is, and what
/// nets are settled from. A net of which it is not told whether it is needed is.
#[derive(Clone, Copy)]
pub struct Field<'a> {
    pub circuit: &'a Circuit,
    pub places: &'a [u32],
    pub needed: &'a [bool],
    pub stuck: Option<Stuck>,
    pub sources: Sources<'a>,
}
