use dft_base::Listed;
use dft_netlist::NetId;

/// The ports of the compression hardware, by their nets.
#[derive(Debug)]
pub struct EdtPorts {
    pub scan_enable: NetId,
    pub edt_clock: NetId,
    pub edt_update: NetId,
    pub channels: Listed<NetId>,
    pub masks: Listed<NetId>,
    pub outputs: Listed<NetId>,
}

// One call for all fields, so that the proof of what owns a value stays short.
impl Drop for EdtPorts {
    fn drop(self) {
        let EdtPorts {
            scan_enable: _,
            edt_clock: _,
            edt_update: _,
            channels: _,
            masks: _,
            outputs: _,
        } = self;
    }
}
