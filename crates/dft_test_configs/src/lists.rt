ghost use Rattle.std.specs.Prelude.{◌≡◌, IfOk, IsTrue, map};
ghost use Rattle.std.specs.List.{list_all};
ghost use Rattle.dft_base.specs.Names.{is_name};

use dft_base::{Listed, Name, Names};
use std::alloc::{AllocError, Global};

/// The names with these bytes.
pub fn names(alloc: Global, texts: &[&'static str]) -> Result<Names, AllocError>
    requires { IsTrue (list_all (λ text. is_name text.now) texts.now) }
    ensures { IfOk result (λ names. names ≡ map (λ text. text.now) texts.now) }
{
    let mut names = Names::new(alloc);
    for text in texts {
        names.push(Name::from_slice(alloc, text.as_bytes())?)?;
    }
    Ok(names)
}

/// These items.
pub fn listed<T: Copy>(alloc: Global, items: &[T]) -> Result<Listed<T>, AllocError>
    ensures { IfOk result (λ list. list ≡ items.now) }
{
    Ok(Listed::from_vec(Vec::from_slice(alloc, items)?))
}

/// These lists.
pub fn lists<T: Copy>(
    alloc: Global,
    items: &[&'static [T]],
) -> Result<Listed<Listed<T>>, AllocError>
    ensures { IfOk result (λ lists. lists ≡ map (λ list. list.now) items.now) }
{
    let mut lists = Vec::new(alloc);
    for list in items {
        lists.push(listed(alloc, *list)?)?;
    }
    Ok(Listed::from_vec(lists))
}
