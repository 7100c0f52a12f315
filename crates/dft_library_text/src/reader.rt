//! The library of a table.

ghost use Rattle.std.specs.Prelude.{◌≡◌, ◌≤◌, ◌∷◌, IfOk, IfErr, OnOk, Ok, Err, Some, None, IsTrue, map, length, option_map};
ghost use Rattle.std.specs.List.{list_any};
ghost use Rattle.toml.specs.View.{view, table_view};
ghost use Rattle.dft_toml.specs.Text.{IsTable};
ghost use Rattle.dft_library_text.specs.Reading as spec;
ghost use Rattle.dft_library_text.specs.Drafts.{draft_of};
ghost use Rattle.dft_library_text.specs.Refusals.{IsRefusal, IsOfTable};
ghost use Rattle.dft_cells.specs.WellFormed.{IsWellFormed, ascend, cell_name};

use crate::draft::{Draft, draft_of};
use crate::refusal::{LibraryError, refusal_of};
use crate::scans::cells_of;
use dft_base::Name;
use dft_cells::{Cell, DFF, Kind, Library, MAX_CELLS};
use dft_toml::{TableError, has_only, read_table, table_at};
use std::alloc::{AllocError, Global};
use toml::{Table, Value};

/// The library that a TOML text stands for, with its cells in byte order of their names. Otherwise the first check
/// that fails: first the table `cells`; then each cell by its keys, its kind, its pins and its name; then the scan
/// cells; then that a dff and a lockup stand there.
pub fn read(alloc: Global, bytes: &[u8]) -> Result<Library, LibraryError>
    requires { length bytes.now ≤ 67108864 }
    ensures library { IfOk result (spec.IsLibraryOf bytes.now) }
    ensures refused { IfErr result (spec.IsRefusedAs bytes.now) }
{
    let table = table_of(alloc, bytes)?;
    let cells = cells(alloc, &table)?;
    Ok(Library::of_cells(cells))
}

// The table of the cells.
fn cells_table(table: &Table) -> Option<&Table>
    ensures { option_map (λ found. table_view found.now) result ≡ spec.cells_table (table_view table.now) }
{
    if !has_only(table, &["cells"]) {
        return None;
    }
    match table_at(table, "cells") {
        Some(cells) => few(cells),
        None => None,
    }
}

fn few(cells: &Table) -> Option<&Table>
    ensures { option_map (λ found. table_view found.now) result ≡ spec.few (table_view cells.now) }
{
    if cells.len() <= MAX_CELLS {
        Some(cells)
    } else {
        None
    }
}

// The drafts of all cells.
fn drafts_of(alloc: Global, cells: &Table) -> Result<Vec<Draft>, LibraryError>
    ensures ok { IfOk result (λ drafts. spec.drafts_of (table_view cells.now) ≡ Ok drafts.items) }
    ensures refused { IfErr result (λ e. IsRefusal e → spec.drafts_of (table_view cells.now) ≡ Err e) }
    ensures of_table { IfErr result IsOfTable }
    ensures ascend { IfOk result (λ drafts. IsTrue (ascend (map cell_name (map (spec.cell_with None) drafts.items)))) }
{
    let mut drafts = Vec::new(alloc);
    for (name, value) in cells.iter() {
        drafts.push(judged(alloc, name.as_bytes(), value)?)?;
    }
    Ok(drafts)
}

fn judged(alloc: Global, name: &[u8], value: &Value) -> Result<Draft, LibraryError>
    ensures ok { IfOk result (λ draft. spec.judged name.now (draft_of name.now (view value.now)) ≡ Ok draft) }
    ensures refused { IfErr result (λ e. IsRefusal e → spec.judged name.now (draft_of name.now (view value.now)) ≡ Err e) }
    ensures of_table { IfErr result IsOfTable }
{
    match draft_of(alloc, name, value) {
        Ok(draft) => Ok(draft),
        Err(flaw) => Err(refusal_of(alloc, flaw, name)?),
    }
}

// The cells of a table, or the first check that fails.
#[tactic(auto, unfolding(crate::specs::Reading::library_of))]
fn cells(alloc: Global, table: &Table) -> Result<Vec<Cell>, LibraryError>
    ensures ok { IfOk result (λ cells. spec.library_of (table_view table.now) ≡ Ok cells.items) }
    ensures refused { IfErr result (λ e. IsRefusal e → spec.library_of (table_view table.now) ≡ Err e) }
    ensures of_table { IfErr result IsOfTable }
    ensures well_formed { IfOk result (λ cells. IsWellFormed cells.items) }
{
    let Some(tables) = cells_table(table) else {
        return Err(LibraryError::L7 {
            name: Name::from_slice(alloc, b"cells")?,
        });
    };
    let drafts = drafts_of(alloc, tables)?;
    let cells = cells_of(alloc, &drafts)?;
    need_kinds(alloc, &cells)?;
    Ok(cells)
}

// Refuses cells among which no dff or no lockup stands.
fn need_kinds(alloc: Global, cells: &[Cell]) -> Result<(), LibraryError>
    ensures ok { OnOk result (spec.with_needed_kinds cells.now ≡ Ok cells.now) }
    ensures refused { IfErr result (λ e. IsRefusal e → spec.with_needed_kinds cells.now ≡ Err e) }
    ensures of_table { IfErr result IsOfTable }
{
    if !has_dff(cells) {
        return Err(LibraryError::L4 {
            name: Name::from_slice(alloc, b"dff")?,
        });
    }
    if !has_lockup(cells) {
        return Err(LibraryError::L4 {
            name: Name::from_slice(alloc, b"lockup")?,
        });
    }
    Ok(())
}

fn has_dff(cells: &[Cell]) -> bool
    ensures { result ≡ list_any (λ cell. spec.is_dff cell.kind) cells.now }
{
    cells.iter().any(|cell| is_dff(cell.kind))
}

fn has_lockup(cells: &[Cell]) -> bool
    ensures { result ≡ list_any (λ cell. spec.is_lockup cell.kind) cells.now }
{
    cells.iter().any(|cell| is_lockup(cell.kind))
}

fn is_dff(kind: Kind) -> bool
    ensures { result ≡ spec.is_dff kind }
{
    kind == DFF
}

fn is_lockup(kind: Kind) -> bool
    ensures { result ≡ spec.is_lockup kind }
{
    matches!(kind, Kind::Lockup)
}

// The table that a text stands for.
fn table_of(alloc: Global, bytes: &[u8]) -> Result<Table, LibraryError>
    ensures table { IfOk result (λ table. IsTable bytes.now (table_view table)) }
    ensures refused { IfErr result (spec.IsRefusedAs bytes.now) }
{
    match read_table(alloc, bytes) {
        Ok(table) => Ok(table),
        Err(TableError::NotToml) => Err(LibraryError::NotToml),
        Err(TableError::Memory(e)) => Err(LibraryError::Memory(e)),
    }
}
