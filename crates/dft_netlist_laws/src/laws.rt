//! Laws of netlist texts, as contracts of functions that do nothing.

ghost use Rattle.dft_netlist_laws.specs.Concatenations.{ConcatenationsNest};

/// The law that an expression is an operand, or expressions with commas between them in braces (IEEE 1364, concatenations): what is
/// read by counting braces is what this rule, which names itself, says.
pub fn concatenations_nest()
    ensures { ConcatenationsNest }
{}
