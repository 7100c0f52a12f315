//! The modules that no module has an instance of.

ghost use Rattle.std.specs.Prelude.{◌≡◌, ◌<◌, ◌||◌, ◌==◌, ℕ, false, true, not, length, count_by, slice_index_or, IfOk, IfErr};
ghost use Rattle.std.specs.List.{list_any};
ghost use Rattle.dft_hier.specs.Reach.{AreBelow, AreWithin};
ghost use Rattle.dft_hier.specs.TopNumbers.{AreInstantiated, IsTop, TellsTops};

use crate::children::Children;
use crate::error::HierError;
use std::alloc::{AllocError, Global};

// Marks the modules of these instances.
fn mark(marks: &mut [bool], children: &[usize])
    requires { AreBelow (length marks.old) children.now }
    ensures { (number : ℕ) → number < length marks.old → slice_index_or marks.new number false ≡ (slice_index_or marks.old number false || list_any (λ child. child == number) children.now) }
{
    for child in children {
        marks[*child] = true;
    }
}

// Which modules some module has an instance of.
fn instantiated(alloc: Global, children: &[Children]) -> Result<Vec<bool>, AllocError>
    requires { AreWithin (length children.now) children.now }
    ensures { IfOk result (λ marks. AreInstantiated children.now marks.items) }
{
    let mut marks = vec![in alloc; false; children.len()]?;
    for one in children {
        mark(&mut marks, one.as_slice());
    }
    Ok(marks)
}

// How many modules are not marked.
fn unmarked(marks: &[bool]) -> usize
    ensures { result ≡ count_by not marks.now }
{
    marks.iter().filter(|mark| !**mark).count()
}

// The first module that is not marked, where one is not.
fn first_unmarked(marks: &[bool]) -> usize
    requires { count_by not marks.now ≡ 1 }
    ensures live { result < length marks.now }
    ensures unmarked { slice_index_or marks.now result true ≡ false }
{
    for (number, mark) in marks.iter().enumerate() {
        if !*mark {
            return number;
        }
    }
    unreachable!()
}

/// The one module that no module has an instance of. Refused with `H4` where there is another number of them.
pub fn top(alloc: Global, children: &[Children]) -> Result<usize, HierError>
    requires { AreWithin (length children.now) children.now }
    ensures ok { IfOk result (λ top. IsTop children.now top) }
    ensures live { IfOk result (λ top. top < length children.now) }
    ensures refused { IfErr result (TellsTops children.now) }
{
    let marks = instantiated(alloc, children)?;
    let count = unmarked(&marks);
    if count != 1 {
        return Err(HierError::H4 { count });
    }
    Ok(first_unmarked(&marks))
}
