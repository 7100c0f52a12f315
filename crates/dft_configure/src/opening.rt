//! The clocks and the resets of open flip-flops.

ghost use Rattle.std.specs.Prelude.{ℕ, ◌≡◌, ◌<◌, ◌&&◌, ◌++◌, IfOk, Some, length, is_some};
ghost use Rattle.dft_netlist.specs.Drivers.{shape_of};
ghost use Rattle.dft_rules.specs.Rules as rules;
ghost use Rattle.dft_configure.specs.Roots as spec;
ghost use Rattle.dft_configure.specs.Found as at;
ghost use Rattle.dft_configure.specs.Found.{AreTables, number, numbers, numbers_of, shown_hold};

use crate::cleaning::clean_nets;
use dft_behavior::{NetRoot, Root, clock_in, find_roots, root_in};
use dft_cells::{Cell, Role};
use dft_netlist::{CellRef, Design, Instance, NetId, Signal, kind_of, signal_of};
use dft_rules::{has_scan_cell, may_be_scanned};
use std::alloc::{AllocError, Global};

// What is found of each net, by its number.
#[derive(Debug)]
pub(crate) struct Tables {
    // Its root.
    pub(crate) roots: Vec<NetRoot>,
    // Whether no instance takes its clock as data.
    pub(crate) clean: Vec<bool>,
}

// One call for all fields, so that the proof of what owns a value stays short.
impl Drop for Tables {
    fn drop(self) {
        let Tables { roots: _, clean: _ } = self;
    }
}

impl Tables {
    // Those of a design.
    pub(crate) fn of(alloc: Global, design: &Design) -> Result<Tables, AllocError>
        ensures { IfOk result (AreTables design.now) }
    {
        let roots = find_roots(alloc, design)?;
        let clean = clean_nets(alloc, design, &roots)?;
        Ok(Tables { roots, clean })
    }
}

// Whether a flip-flop of this cell is judged and has a scan cell.
fn is_fit(cells: &[Cell], cell: CellRef) -> bool
    ensures { result ≡ (rules.may_be_scanned (shape_of cells.now cell).kind && is_some (rules.scan_cell_in cells.now cell)) }
{
    may_be_scanned(kind_of(cells, cell)) && has_scan_cell(cells, cell)
}

// The port whose clock a pin shows.
fn port_at(roots: &[NetRoot], pin: Option<Signal>) -> Option<NetId>
    ensures { number result ≡ at.port_at roots.now pin }
{
    match pin {
        Some(signal) => match clock_in(roots, signal) {
            Some(clock) => Some(clock.port),
            None => None,
        },
        None => None,
    }
}

// A port, where it is marked.
fn marked_only(marks: &[bool], port: Option<NetId>) -> Option<NetId>
    ensures { number result ≡ at.marked_only marks.now (number port) }
{
    match port {
        Some(net) => match marks.get(net.0 as usize) {
            Some(mark) => if *mark { Some(net) } else { None },
            None => None,
        },
        None => None,
    }
}

// The root of a pin, if there is one.
fn hold_at(roots: &[NetRoot], pin: Option<Signal>) -> Option<Root>
    ensures { result ≡ at.hold_at roots.now pin }
{
    match pin {
        Some(signal) => Some(root_in(roots, signal)),
        None => None,
    }
}

// Whether a set or reset with this root can be kept at 1.
fn can_hold(root: Option<Root>) -> bool
    ensures { result ≡ spec.can_hold (shown_hold root) }
{
    match root {
        Some(Root::Port(_)) | None => true,
        Some(Root::Constant(bit)) => bit,
        Some(Root::Other) => false,
    }
}

// The port at which it is kept.
fn port_of_root(root: Option<Root>) -> Option<NetId>
    ensures { number result ≡ spec.port_of_root (shown_hold root) }
{
    match root {
        Some(Root::Port(net)) => Some(net),
        Some(Root::Constant(_)) | Some(Root::Other) | None => None,
    }
}

// The root of the reset of an instance or of its set, if it has one.
fn hold_root(design: &Design, tables: &Tables, hold: Role, number: usize) -> Option<Root>
    requires number { number < length design.now.instances }
    requires tables { AreTables design.now tables.now }
    ensures { shown_hold result ≡ spec.hold_root design.now hold number }
{
    let cells = design.library().cells();
    let instance = &design.instances()[number];
    hold_at(&tables.roots, signal_of(cells, instance, hold))
}

// Whether the reset of an instance and its set can be kept at 1, as far as it has them.
fn can_hold_both(design: &Design, tables: &Tables, number: usize) -> bool
    requires number { number < length design.now.instances }
    requires tables { AreTables design.now tables.now }
    ensures { result ≡ spec.can_hold_both design.now number }
{
    can_hold(hold_root(design, tables, Role::Reset, number))
        && can_hold(hold_root(design, tables, Role::Preset, number))
}

// The port at which the reset of an instance is kept, or its set.
pub(crate) fn hold_port(
    design: &Design,
    tables: &Tables,
    hold: Role,
    number: usize,
) -> Option<NetId>
    requires number { number < length design.now.instances }
    requires tables { AreTables design.now tables.now }
    ensures { at.number result ≡ spec.port_of_root (spec.hold_root design.now hold number) }
{
    port_of_root(hold_root(design, tables, hold, number))
}

// The clock of an instance, if it is a clean port's.
fn clean_clock(design: &Design, tables: &Tables, number: usize) -> Option<NetId>
    requires number { number < length design.now.instances }
    requires tables { AreTables design.now tables.now }
    ensures { at.number result ≡ spec.clean_clock design.now number }
{
    let cells = design.library().cells();
    let instance = &design.instances()[number];
    let pin = signal_of(cells, instance, Role::Clock);
    marked_only(&tables.clean, port_at(&tables.roots, pin))
}

// The clock of an instance, if it is an open flip-flop.
#[tactic(auto, unfolding(crate::specs::Roots::open_clock))]
pub(crate) fn open_clock(design: &Design, tables: &Tables, number: usize) -> Option<NetId>
    requires number { number < length design.now.instances }
    requires tables { AreTables design.now tables.now }
    ensures { at.number result ≡ spec.open_clock design.now number }
{
    let instance = &design.instances()[number];
    if !is_fit(design.library().cells(), instance.cell) {
        return None;
    }
    if !can_hold_both(design, tables, number) {
        return None;
    }
    clean_clock(design, tables, number)
}

// The clocks of all instances that are open flip-flops.
pub(crate) fn open_clocks(
    alloc: Global,
    design: &Design,
    tables: &Tables,
) -> Result<Vec<Option<NetId>>, AllocError>
    requires { AreTables design.now tables.now }
    ensures { IfOk result (λ clocks. numbers_of clocks.items ≡ spec.open_clocks design.now) }
{
    let count = design.instances().len();
    let mut clocks = Vec::with_capacity(alloc, count)?;
    for number in 0..count {
        clocks.push(open_clock(design, tables, number))?;
    }
    Ok(clocks)
}

// Whether there is a port, and it is among these.
pub(crate) fn is_among(ports: &[NetId], port: Option<NetId>) -> bool
    ensures { result ≡ spec.is_among (numbers ports.now) (number port) }
{
    match port {
        Some(net) => has_net(ports, net),
        None => false,
    }
}

fn has_net(ports: &[NetId], net: NetId) -> bool
    ensures { result ≡ spec.is_among (numbers ports.now) (Some net.0) }
{
    for other in ports {
        if other.0 == net.0 {
            return true;
        }
    }
    false
}

// The port of the reset, or of the set, of an instance with this clock, where the clock is among these.
fn open_reset(
    design: &Design,
    tables: &Tables,
    domains: &[NetId],
    clock: Option<NetId>,
    hold: Role,
    number: usize,
) -> Option<NetId>
    requires number { number < length design.now.instances }
    requires tables { AreTables design.now tables.now }
    requires clock { at.number clock ≡ spec.open_clock design.now number }
    ensures { at.number result ≡ spec.open_reset design.now (numbers domains.now) hold number }
{
    if is_among(domains, clock) {
        hold_port(design, tables, hold, number)
    } else {
        None
    }
}

// Those of all instances, behind others.
fn add_resets(
    design: &Design,
    tables: &Tables,
    domains: &[NetId],
    clocks: &[Option<NetId>],
    hold: Role,
    resets: &mut Vec<Option<NetId>>,
) -> Result<(), AllocError>
    requires tables { AreTables design.now tables.now }
    requires clocks { numbers_of clocks.now ≡ spec.open_clocks design.now }
    ensures { IfOk result (λ _. numbers_of resets.new.items ≡ numbers_of resets.old.items ++ spec.resets_by design.now (numbers domains.now) hold) }
{
    let count = design.instances().len();
    for number in 0..count {
        resets.push(open_reset(design, tables, domains, clocks[number], hold, number))?;
    }
    Ok(())
}

// The ports of the resets and sets of all open flip-flops whose clocks are among these.
#[tactic(auto, unfolding(crate::specs::Roots::open_resets))]
pub(crate) fn open_resets(
    alloc: Global,
    design: &Design,
    tables: &Tables,
    domains: &[NetId],
    clocks: &[Option<NetId>],
) -> Result<Vec<Option<NetId>>, AllocError>
    requires tables { AreTables design.now tables.now }
    requires clocks { numbers_of clocks.now ≡ spec.open_clocks design.now }
    ensures { IfOk result (λ resets. numbers_of resets.items ≡ spec.open_resets design.now (numbers domains.now)) }
{
    let mut resets = Vec::new(alloc);
    add_resets(design, tables, domains, clocks, Role::Reset, &mut resets)?;
    add_resets(design, tables, domains, clocks, Role::Preset, &mut resets)?;
    Ok(resets)
}
