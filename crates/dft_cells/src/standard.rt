//! The standard cells, as a table.

ghost use Rattle.std.specs.Prelude.{◌≡◌, IfOk, IsTrue, map};
ghost use Rattle.std.specs.List.{list_all};
ghost use Rattle.dft_base.specs.Names.{is_name};
ghost use Rattle.dft_cells.specs.Rows as spec;
ghost use Rattle.dft_cells.specs.Standard.{pin, standard_cells};

use crate::cell::{Cell, CellId, Pin, Pins};
use crate::kind::{Flop, Forcing, Gate, Kind, Role};
use dft_base::Name;
use std::alloc::{AllocError, Global};

// A cell as the table has it, with its pins in order.
struct Row {
    name: &'static str,
    kind: Kind,
    pins: &'static [(&'static str, Role)],
    scan: Option<CellId>,
}

// The pins that more than one cell has.
const CLOCK: (&str, Role) = ("CK", Role::Clock);

const DATA: (&str, Role) = ("D", Role::Din);

const RESET: (&str, Role) = ("RN", Role::Reset);

const SET: (&str, Role) = ("SN", Role::Preset);

const SCAN_IN: (&str, Role) = ("SI", Role::ScanIn);

const SCAN_ENABLE: (&str, Role) = ("SE", Role::ScanEnable);

const Q: (&str, Role) = ("Q", Role::Output);

const QN: (&str, Role) = ("QN", Role::Inverted);

const A: (&str, Role) = ("A", Role::Input);

const B: (&str, Role) = ("B", Role::Input);

const C: (&str, Role) = ("C", Role::Input);

const Y: (&str, Role) = ("Y", Role::Output);

const ONE_INPUT: &[(&str, Role)] = &[A, Y];

const TWO_INPUTS: &[(&str, Role)] = &[A, B, Y];

const THREE_INPUTS: &[(&str, Role)] = &[A, B, C, Y];

const FOUR_INPUTS: &[(&str, Role)] = &[A, B, C, ("D", Role::Input), Y];

// All standard cells, in byte order of their names. The scan cells of the flip-flops are the cells 21, 22 and 23.
static ROWS: [Row; 28] = [
    Row {
        name: "AND2",
        kind: Kind::Gate(Gate::And),
        pins: TWO_INPUTS,
        scan: None,
    },
    Row {
        name: "AND3",
        kind: Kind::Gate(Gate::And),
        pins: THREE_INPUTS,
        scan: None,
    },
    Row {
        name: "AND4",
        kind: Kind::Gate(Gate::And),
        pins: FOUR_INPUTS,
        scan: None,
    },
    Row {
        name: "BUF",
        kind: Kind::Gate(Gate::Buf),
        pins: ONE_INPUT,
        scan: None,
    },
    Row {
        name: "CKGATE",
        kind: Kind::Opaque,
        pins: &[
            ("CK", Role::Input),
            ("EN", Role::Input),
            ("GCK", Role::Output),
        ],
        scan: None,
    },
    Row {
        name: "DFF",
        kind: Kind::Flop(Flop {
            force: Forcing::Nothing,
            scan: false,
        }),
        pins: &[CLOCK, DATA, Q, QN],
        scan: Some(CellId(21)),
    },
    Row {
        name: "DFFR",
        kind: Kind::Flop(Flop {
            force: Forcing::Reset,
            scan: false,
        }),
        pins: &[CLOCK, DATA, RESET, Q, QN],
        scan: Some(CellId(22)),
    },
    Row {
        name: "DFFS",
        kind: Kind::Flop(Flop {
            force: Forcing::Set,
            scan: false,
        }),
        pins: &[CLOCK, DATA, SET, Q, QN],
        scan: Some(CellId(23)),
    },
    Row {
        name: "INV",
        kind: Kind::Gate(Gate::Inv),
        pins: ONE_INPUT,
        scan: None,
    },
    Row {
        name: "LATCH",
        kind: Kind::Opaque,
        pins: &[("G", Role::Input), ("D", Role::Input), Q],
        scan: None,
    },
    Row {
        name: "LOCKUP",
        kind: Kind::Lockup,
        pins: &[CLOCK, DATA, Q],
        scan: None,
    },
    Row {
        name: "MUX2",
        kind: Kind::Gate(Gate::Mux2),
        pins: &[A, B, ("S", Role::Input), Y],
        scan: None,
    },
    Row {
        name: "NAND2",
        kind: Kind::Gate(Gate::Nand),
        pins: TWO_INPUTS,
        scan: None,
    },
    Row {
        name: "NAND3",
        kind: Kind::Gate(Gate::Nand),
        pins: THREE_INPUTS,
        scan: None,
    },
    Row {
        name: "NAND4",
        kind: Kind::Gate(Gate::Nand),
        pins: FOUR_INPUTS,
        scan: None,
    },
    Row {
        name: "NOR2",
        kind: Kind::Gate(Gate::Nor),
        pins: TWO_INPUTS,
        scan: None,
    },
    Row {
        name: "NOR3",
        kind: Kind::Gate(Gate::Nor),
        pins: THREE_INPUTS,
        scan: None,
    },
    Row {
        name: "NOR4",
        kind: Kind::Gate(Gate::Nor),
        pins: FOUR_INPUTS,
        scan: None,
    },
    Row {
        name: "OR2",
        kind: Kind::Gate(Gate::Or),
        pins: TWO_INPUTS,
        scan: None,
    },
    Row {
        name: "OR3",
        kind: Kind::Gate(Gate::Or),
        pins: THREE_INPUTS,
        scan: None,
    },
    Row {
        name: "OR4",
        kind: Kind::Gate(Gate::Or),
        pins: FOUR_INPUTS,
        scan: None,
    },
    Row {
        name: "SDFF",
        kind: Kind::Flop(Flop {
            force: Forcing::Nothing,
            scan: true,
        }),
        pins: &[CLOCK, DATA, SCAN_IN, SCAN_ENABLE, Q, QN],
        scan: None,
    },
    Row {
        name: "SDFFR",
        kind: Kind::Flop(Flop {
            force: Forcing::Reset,
            scan: true,
        }),
        pins: &[CLOCK, DATA, RESET, SCAN_IN, SCAN_ENABLE, Q, QN],
        scan: None,
    },
    Row {
        name: "SDFFS",
        kind: Kind::Flop(Flop {
            force: Forcing::Set,
            scan: true,
        }),
        pins: &[CLOCK, DATA, SET, SCAN_IN, SCAN_ENABLE, Q, QN],
        scan: None,
    },
    Row {
        name: "TIE0",
        kind: Kind::Gate(Gate::Tie0),
        pins: &[Y],
        scan: None,
    },
    Row {
        name: "TIE1",
        kind: Kind::Gate(Gate::Tie1),
        pins: &[Y],
        scan: None,
    },
    Row {
        name: "XNOR2",
        kind: Kind::Gate(Gate::Xnor),
        pins: TWO_INPUTS,
        scan: None,
    },
    Row {
        name: "XOR2",
        kind: Kind::Gate(Gate::Xor),
        pins: TWO_INPUTS,
        scan: None,
    },
];

fn pins_of(alloc: Global, entries: &[(&'static str, Role)]) -> Result<Pins, AllocError>
    requires { IsTrue (list_all (λ p. is_name p.0.now) entries.now) }
    ensures { IfOk result (λ pins. pins ≡ map (λ p. pin p.0.now p.1) entries.now) }
{
    let mut pins = Pins::new(alloc);
    for (name, role) in entries {
        let name = Name::from_slice(alloc, name.as_bytes())?;
        pins.push(Pin { name, role: *role })?;
    }
    Ok(pins)
}

fn cell_of(alloc: Global, row: &Row) -> Result<Cell, AllocError>
    requires { IsTrue (spec.is_named row.now) }
    ensures { IfOk result (λ cell. cell ≡ spec.cell_of row.now) }
{
    Ok(Cell {
        name: Name::from_slice(alloc, row.name.as_bytes())?,
        kind: row.kind,
        pins: pins_of(alloc, row.pins)?,
        scan: row.scan,
    })
}

fn cells_of(alloc: Global, rows: &[Row]) -> Result<Vec<Cell>, AllocError>
    requires { IsTrue (list_all spec.is_named rows.now) }
    ensures { IfOk result (λ cells. cells.items ≡ map spec.cell_of rows.now) }
{
    let mut cells = Vec::new(alloc);
    for row in rows {
        cells.push(cell_of(alloc, row)?)?;
    }
    Ok(cells)
}

/// All standard cells.
pub fn cells(alloc: Global) -> Result<Vec<Cell>, AllocError>
    ensures { IfOk result (λ cells. cells.items ≡ standard_cells) }
{
    cells_of(alloc, &ROWS)
}
