//! Which nets show each flip-flop.

ghost use Rattle.std.specs.Prelude.{◌≡◌, ◌∷◌, ◌++◌, [], ◌<◌, ◌^◌, length, replicate, IfOk, OnOk};
ghost use Rattle.dft_logic.specs.Circuit.{meaning, op_at};
ghost use Rattle.dft_logic.specs.Tables.{list_at, IsAdded, IsTable};
ghost use Rattle.dft_seek.specs.Rigs.{cells_shown};

use dft_logic::Op;
use dft_netlist::InstanceId;
use std::alloc::{AllocError, Global};
use std::marker::Model;

// Numbers of nets. A clause sees them as a list.
pub(crate) struct Numbers {
    numbers: Vec<u32>,
}

// One call for all fields, so that the proof of what owns a value stays short.
impl Drop for Numbers {
    fn drop(self) {
        let Numbers { numbers: _ } = self;
    }
}

impl Model for Numbers {
    ghost use Rattle.std.specs.Prelude.{ℕ, List};

    ghost Value = { List ℕ };

    ghost view = { λ n. n.numbers.items };
}

impl Numbers {
    // No number yet.
    fn new(alloc: Global) -> Numbers
        ensures { result ≡ [] }
    {
        Numbers {
            numbers: Vec::new(alloc),
        }
    }

    // Adds a number at the end.
    fn push(&mut self, number: u32) -> Result<(), AllocError>
        ensures { OnOk result (self.new ≡ self.old ++ number ∷ []) }
    {
        self.numbers.push(number)?;
        Ok(())
    }

    // The numbers.
    fn as_slice(&self) -> &[u32]
        ensures { result.now ≡ self.now }
    {
        &self.numbers
    }
}

// So many empty lists.
fn empty(alloc: Global, count: usize) -> Result<Vec<Numbers>, AllocError>
    ensures { IfOk result (λ table. table.items ≡ replicate count []) }
{
    let mut table = Vec::with_capacity(alloc, count)?;
    for _place in 0..count {
        table.push(Numbers::new(alloc))?;
    }
    Ok(table)
}

// Adds a net to those of a flip-flop; past the end there are none.
fn add(table: &mut Vec<Numbers>, cell: InstanceId, net: u32) -> Result<(), AllocError>
    ensures { OnOk result (IsAdded table.old.items (cell.0 ∷ []) net table.new.items) }
{
    if (cell.0 as usize) < table.len() {
        table[cell.0 as usize].push(net)?;
    }
    Ok(())
}

// Adds a net to those of the flip-flop that it shows, if it shows one.
fn add_shown(table: &mut Vec<Numbers>, op: &Op, net: u32) -> Result<(), AllocError>
    ensures { OnOk result (IsAdded table.old.items (cells_shown (meaning op.now)) net table.new.items) }
{
    match op {
        Op::Flop(cell, _) => add(table, *cell, net),
        _ => Ok(()),
    }
}

// The nets that show each flip-flop, of so many instances.
pub(crate) fn showing(
    alloc: Global,
    ops: &[Op],
    instances: usize,
) -> Result<Vec<Numbers>, AllocError>
    requires { length ops.now < 2 ^ 32 }
    ensures { IfOk result (λ table. IsTable instances (length ops.now) (λ net. cells_shown (meaning (op_at ops.now net))) table.items) }
{
    let mut table = empty(alloc, instances)?;
    for (net, op) in ops.iter().enumerate() {
        add_shown(&mut table, op, net as u32)?;
    }
    Ok(table)
}

// The nets that show a flip-flop, and none past the end.
pub(crate) fn showing_of(table: &[Numbers], cell: InstanceId) -> &[u32]
    ensures { result.now ≡ list_at table.now cell.0 }
{
    match table.get(cell.0 as usize) {
        Some(nets) => nets.as_slice(),
        None => &[],
    }
}
