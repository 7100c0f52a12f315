use dft_base::Name;
use dft_netlist_text::Fault;

/// Why a text of modules is refused.
#[derive(Debug, Drop)]
pub enum ModulesFault {
    /// The first fault in a module.
    Module(Fault),
    /// H1: a module has the name of a module before it or of a cell of the library.
    Repeated(Name),
}
