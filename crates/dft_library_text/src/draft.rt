//! A cell as its table gives it, with its scan cell still by name.

ghost use Rattle.std.specs.Prelude.{◌≡◌, ◌≤◌, ◌<◌, ◌^◌, if◌then◌else◌, [], ◌++◌, IfOk, IfErr, OnOk, Ok, Err, Some, None, map, length, option_map, option_copied};
ghost use Rattle.toml.specs.View.{view, table_view};
ghost use Rattle.dft_library_text.specs.Drafts as spec;
ghost use Rattle.dft_library_text.specs.Refusals.{IsFlaw};
ghost use Rattle.dft_cells.specs.WellFormed.{all_differ, pin_name};

use crate::keys::{PinKey, keys_of, kind_named, pin_keys};
use crate::refusal::Flaw;
use dft_base::{Name, Names, is_reserved, name_of};
use dft_cells::{Gate, Kind, Pin, Pins, Role};
use dft_toml::{has_key, has_only, name_at, names_at, text_at};
use std::alloc::{AllocError, Global};
use std::collections::BTreeSet;
use toml::{Table, Value};

/// A cell whose scan cell is not found yet.
#[derive(Debug)]
pub struct Draft {
    pub name: Name,
    pub kind: Kind,
    pub pins: Pins,
    /// The name of the scan cell, where the table has one.
    pub scan: Option<Name>,
}

// One call for all fields, so that the proof of what owns a value stays short.
impl Drop for Draft {
    fn drop(self) {
        let Draft {
            name: _,
            kind: _,
            pins: _,
            scan: _,
        } = self;
    }
}

/// The draft of the cell with this name and this value.
#[tactic(auto, unfolding(crate::specs::Drafts::draft_of))]
pub fn draft_of(alloc: Global, name: &[u8], value: &Value) -> Result<Draft, Flaw>
    ensures ok { IfOk result (λ draft. spec.draft_of name.now (view value.now) ≡ Ok draft) }
    ensures flaw { IfErr result (λ flaw. IsFlaw flaw → spec.draft_of name.now (view value.now) ≡ Err flaw) }
{
    let Some(name) = name_of(alloc, name)? else {
        return Err(Flaw::Keys);
    };
    let Some(table) = value.as_table() else {
        return Err(Flaw::Keys);
    };
    let Some(word) = text_at(table, "kind") else {
        return Err(Flaw::Keys);
    };
    let Some(kind) = kind_named(word) else {
        return Err(Flaw::Kind);
    };
    draft_of_kind(alloc, name, kind, table)
}

#[tactic(auto, unfolding(crate::specs::Drafts::draft_of_kind))]
fn draft_of_kind(alloc: Global, name: Name, kind: Kind, table: &Table) -> Result<Draft, Flaw>
    ensures ok { IfOk result (λ draft. spec.draft_of_kind name kind (table_view table.now) ≡ Ok draft) }
    ensures flaw { IfErr result (λ flaw. IsFlaw flaw → spec.draft_of_kind name kind (table_view table.now) ≡ Err flaw) }
{
    if !has_only(table, &keys_of(alloc, kind)?) {
        return Err(Flaw::Keys);
    }
    let Some(pins) = pins_of(alloc, pin_keys(kind), table)? else {
        return Err(Flaw::Keys);
    };
    let scan = scan_name(alloc, table)?;
    let rows = rows_of(kind, table)?;
    let kind = fitted(alloc, kind, pins.as_slice(), rows)?;
    if is_reserved(name.as_slice()) {
        return Err(Flaw::Reserved);
    }
    Ok(Draft {
        name,
        kind,
        pins,
        scan,
    })
}

// The pins that the keys of a table name, in the order of the keys.
fn pins_of(alloc: Global, keys: &[PinKey], table: &Table) -> Result<Option<Pins>, AllocError>
    ensures { IfOk result (λ pins. pins ≡ spec.pins_of keys.now (table_view table.now)) }
{
    let mut pins = Pins::new(alloc);
    for key in keys {
        match names_of_key(alloc, *key, table)? {
            Some(names) => add_pins(alloc, &mut pins, key.role(), names.as_slice())?,
            None => return Ok(None),
        }
    }
    Ok(Some(pins))
}

fn add_pins(alloc: Global, pins: &mut Pins, role: Role, names: &[Name]) -> Result<(), AllocError>
    ensures { OnOk result (pins.new ≡ pins.old ++ map (spec.pin_with role) names.now) }
{
    for name in names {
        let name = name.copy(alloc)?;
        pins.push(Pin { name, role })?;
    }
    Ok(())
}

// The names that stand at a key.
fn names_of_key(alloc: Global, key: PinKey, table: &Table) -> Result<Option<Names>, AllocError>
    ensures { IfOk result (λ names. names ≡ spec.names_of_key key (table_view table.now)) }
{
    match key {
        PinKey::Inputs | PinKey::Outputs => names_at(alloc, table, key.text()),
        PinKey::Inverted => if has_key(table, "inverted") {
            one_name(alloc, table, "inverted")
        } else {
            Ok(Some(Names::new(alloc)))
        },
        PinKey::Output
        | PinKey::Clock
        | PinKey::Din
        | PinKey::Reset
        | PinKey::Set
        | PinKey::ScanIn
        | PinKey::ScanEnable => one_name(alloc, table, key.text()),
    }
}

fn one_name(alloc: Global, table: &Table, key: &str) -> Result<Option<Names>, AllocError>
    ensures { IfOk result (λ names. names ≡ spec.one_name key.now (table_view table.now)) }
{
    let Some(name) = name_at(alloc, table, key)? else {
        return Ok(None);
    };
    let mut names = Names::new(alloc);
    names.push(name)?;
    Ok(Some(names))
}

// The name of the scan cell, where the table has one.
fn scan_name(alloc: Global, table: &Table) -> Result<Option<Name>, Flaw>
    ensures ok { IfOk result (λ scan. spec.scan_name (table_view table.now) ≡ Ok scan) }
    ensures flaw { IfErr result (λ flaw. IsFlaw flaw → spec.scan_name (table_view table.now) ≡ Err flaw) }
{
    if !has_key(table, "scan") {
        return Ok(None);
    }
    match name_at(alloc, table, "scan")? {
        Some(name) => Ok(Some(name)),
        None => Err(Flaw::Keys),
    }
}

// The text of a table's output bits; a kind that is no table has none.
fn rows_of(kind: Kind, table: &Table) -> Result<&str, Flaw>
    ensures ok { IfOk result (λ rows. spec.rows_of kind (table_view table.now) ≡ Ok rows.now) }
    ensures flaw { IfErr result (λ flaw. spec.rows_of kind (table_view table.now) ≡ Err flaw) }
{
    if !matches!(kind, Kind::Gate(Gate::Table(_))) {
        return Ok("");
    }
    match text_at(table, "table") {
        Some(rows) => Ok(rows),
        None => Err(Flaw::Keys),
    }
}

// The kind with its number, where the number of inputs, the names of the pins and the rows fit it.
fn fitted(alloc: Global, kind: Kind, pins: &[Pin], rows: &str) -> Result<Kind, Flaw>
    ensures ok { IfOk result (λ fitting. spec.fitted kind pins.now rows.now ≡ Ok fitting) }
    ensures flaw { IfErr result (λ flaw. IsFlaw flaw → spec.fitted kind pins.now rows.now ≡ Err flaw) }
{
    let inputs = input_count(pins);
    if !kind.takes_inputs(inputs) {
        return Err(Flaw::Pins);
    }
    if !all_differ(alloc, pins)? {
        return Err(Flaw::Pins);
    }
    match kind {
        Kind::Gate(Gate::Table(_)) => table_kind(inputs, rows),
        _ => Ok(kind),
    }
}

fn input_count(pins: &[Pin]) -> usize
    ensures { result ≡ spec.input_count pins.now }
{
    let mut count: usize = 0;
    for pin in pins {
        if pin.role.is_input() {
            count += 1;
        }
    }
    count
}

// Whether no name stands twice among the pins.
fn all_differ(alloc: Global, pins: &[Pin]) -> Result<bool, AllocError>
    ensures { IfOk result (λ differ. differ ≡ all_differ (map pin_name pins.now)) }
{
    let mut names = BTreeSet::new(alloc);
    for pin in pins {
        let name = Vec::from_slice(alloc, pin.name.as_slice())?;
        if !names.insert(name)? {
            return Ok(false);
        }
    }
    Ok(true)
}

fn table_kind(inputs: usize, rows: &str) -> Result<Kind, Flaw>
    requires { inputs ≤ 6 }
    ensures { result ≡ spec.table_kind inputs rows.now }
{
    if rows.len() != 1 << inputs {
        return Err(Flaw::Pins);
    }
    match number_of_rows(rows.as_bytes()) {
        Some(number) => Ok(Kind::Gate(Gate::Table(number))),
        None => Err(Flaw::Pins),
    }
}

// The number with these bits, the lowest first.
fn number_of_rows(rows: &[u8]) -> Option<u64>
    requires { length rows.now ≤ 64 }
    ensures { result ≡ spec.number_of_rows rows.now }
{
    let mut number: u64 = 0;
    for (place, row) in rows.iter().enumerate() {
        match bit_of_row(*row) {
            Some(bit) => number += at_place(bit, place),
            None => return None,
        }
    }
    Some(number)
}

fn at_place(bit: bool, place: usize) -> u64
    requires { place < 64 }
    ensures { result ≡ (if bit then 2 ^ place else 0) }
{
    if bit { 1 << place } else { 0 }
}

fn bit_of_row(row: u8) -> Option<bool>
    ensures { result ≡ spec.bit_of_row row }
{
    match row {
        b'0' => Some(false),
        b'1' => Some(true),
        _ => None,
    }
}
