ghost use Rattle.std.specs.Prelude.{IsTrue};
ghost use Rattle.dft_cells.specs.Pins.{TakesInputs};

use dft_base::Tri;
use dft_cells::{CellId, DFF, Gate, Kind, Library, bit_of, tri_of};
use std::test::Fail;

// A name, and the standard cell of that name.
static NAMED: [(&str, Option<CellId>); 4] = [
    ("AND2", Some(CellId(0))),
    ("NAND2", Some(CellId(12))),
    ("XOR2", Some(CellId(27))),
    ("nand2", None),
];

// A kind, and the first standard cell of that kind.
static FIRST: [(Kind, Option<CellId>); 3] = [
    (DFF, Some(CellId(5))),
    (Kind::Lockup, Some(CellId(10))),
    (Kind::Gate(Gate::Table(6)), None),
];

// The first name that is not found as it should be.
fn not_found(library: &Library) -> Option<&'static str> {
    for (name, cell) in &NAMED {
        if library.find(name.as_bytes()) != *cell {
            return Some(*name);
        }
    }
    None
}

// The first kind whose first cell is not found as it should be.
fn not_first(library: &Library) -> Option<Kind> {
    for (kind, cell) in &FIRST {
        if library.first_of(*kind) != *cell {
            return Some(*kind);
        }
    }
    None
}

#[test]
fn the_standard_cells_are_found(rt: HostRuntime) -> Result<(), Fail> {
    let library = Library::standard(rt.alloc())?.copy(rt.alloc())?;
    assert_eq!(rt; library.cells().len(), 28);
    assert_eq!(rt; not_found(&library), None);
    assert_eq!(rt; not_first(&library), None);
    Ok(())
}

// A gate, its inputs, and its bit.
static BITS: [(Gate, &[bool], bool); 7] = [
    (Gate::Mux2, &[false, true, true], true),
    (Gate::Mux2, &[false, true, false], false),
    (Gate::Nor, &[false, true, false], false),
    (Gate::Xnor, &[true, true, false, true], false),
    (Gate::Table(0b0010), &[true, false], true),
    (Gate::Table(0b0010), &[false, true], false),
    (Gate::Tie1, &[], true),
];

// Whether a gate is one of those tested here, and takes so many inputs.
fn is_tested(gate: Gate, inputs: usize) -> bool
    ensures { IsTrue result → TakesInputs gate inputs }
{
    match gate {
        Gate::Nand | Gate::Nor | Gate::Xor | Gate::Xnor => 1 <= inputs && inputs <= 8,
        Gate::Table(_) => 1 <= inputs && inputs <= 6,
        Gate::Mux2 => inputs == 3,
        Gate::Tie1 => inputs == 0,
        _ => false,
    }
}

// The bit of a tested gate that takes these inputs.
fn bit(gate: Gate, inputs: &[bool]) -> Option<bool> {
    if !is_tested(gate, inputs.len()) {
        return None;
    }
    Some(bit_of(gate, inputs))
}

#[test]
fn gates_give_their_bits(rt: HostRuntime) {
    for (gate, inputs, wanted) in &BITS {
        assert_eq!(rt; bit(*gate, *inputs), Some(*wanted), "{gate:?}");
    }
}

// A gate, its inputs, and what all their completions give.
static TRIS: [(Gate, &[Tri], Tri); 6] = [
    (Gate::Nand, &[Tri::Unknown, Tri::Zero], Tri::One),
    (Gate::Nand, &[Tri::Unknown, Tri::One], Tri::Unknown),
    (Gate::Xor, &[Tri::Unknown, Tri::Unknown], Tri::Unknown),
    (Gate::Mux2, &[Tri::One, Tri::One, Tri::Unknown], Tri::One),
    (Gate::Table(0b1010), &[Tri::One, Tri::Unknown], Tri::One),
    (Gate::Table(0b0110), &[Tri::One, Tri::Unknown], Tri::Unknown),
];

// What the completions of inputs that a tested gate takes give.
fn tri(gate: Gate, inputs: &[Tri]) -> Option<Tri> {
    if !is_tested(gate, inputs.len()) {
        return None;
    }
    Some(tri_of(gate, inputs))
}

#[test]
fn completions_share_a_value_or_none(rt: HostRuntime) {
    for (gate, inputs, wanted) in &TRIS {
        assert_eq!(rt; tri(*gate, *inputs), Some(*wanted), "{gate:?}");
    }
}
