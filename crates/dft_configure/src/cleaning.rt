//! Which nets are clean: no instance takes their clocks as data.

ghost use Rattle.std.specs.Prelude.{ℕ, ◌≡◌, ◌<◌, ◌&&◌, not, false, IfOk, length, slice_index_or};
ghost use Rattle.dft_behavior.specs.Roots.{shown_clock};
ghost use Rattle.dft_behavior.specs.RootTables.{AreRoots};
ghost use Rattle.dft_configure.specs.Roots.{is_port, port_of_clock};
ghost use Rattle.dft_configure.specs.Found.{AreClean};

use dft_behavior::{ClockRoot, NetRoot};
use dft_netlist::Design;
use dft_rules::data_nets;
use std::alloc::{AllocError, Global};

// Takes the mark off the port whose clock a net shows that is used as data.
fn clear(marks: &mut [bool], used: bool, clock: Option<ClockRoot>)
    ensures { (port : ℕ) → slice_index_or marks.new port false ≡ (slice_index_or marks.old port false && not (is_port port (port_of_clock (shown_clock clock)) && used)) }
{
    if used {
        if let Some(clock) = clock {
            if (clock.port.0 as usize) < marks.len() {
                marks[clock.port.0 as usize] = false;
            }
        }
    }
}

// Marks the clean nets of a design whose nets have these roots.
pub(crate) fn clean_nets(
    alloc: Global,
    design: &Design,
    roots: &[NetRoot],
) -> Result<Vec<bool>, AllocError>
    requires { AreRoots design.now roots.now }
    ensures { IfOk result (λ marks. AreClean design.now marks.items) }
{
    let used = data_nets(alloc, design)?;
    let mut marks = vec![in alloc; true; used.len()]?;
    for net in 0..used.len() {
        clear(&mut marks, used[net], roots[net].clock());
    }
    Ok(marks)
}
