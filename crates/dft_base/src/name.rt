ghost use Rattle.std.specs.Prelude.{◌≡◌, ◌≤◌, ◌<◌, IfOk, length};
ghost use Rattle.std.specs.List.{All};
ghost use Rattle.dft_base.specs.Name.{IsName};

use std::alloc::{AllocError, Global};
use std::marker::Model;

/// The name of a net, a port, a cell, an instance or a signal: at least one byte, each of 33 to 126.
/// A clause sees it as its bytes.
#[derive(Debug)]
pub struct Name {
    bytes: Vec<u8>,
}

// One call for all fields, so that the proof of what owns a value stays short.
impl Drop for Name {
    fn drop(self) {
        let Name { bytes: _ } = self;
    }
}

impl Model for Name {
    ghost use Rattle.std.specs.Prelude.{List, ℕ};
    ghost use Rattle.dft_base.specs.Name.{IsName};

    ghost Value = { List ℕ };

    ghost view = { λ n. n.bytes.items };

    ghost invariant = { λ n. IsName n.bytes.items };
}

impl Name {
    /// The name with these bytes.
    pub fn from_slice(alloc: Global, bytes: &[u8]) -> Result<Name, AllocError>
        requires { IsName bytes.now }
        ensures { IfOk result (λ name. name ≡ bytes.now) }
    {
        Ok(Name {
            bytes: Vec::from_slice(alloc, bytes)?,
        })
    }

    /// Does nothing: its clause is what holds of every name.
    pub fn soundness(&self)
        ensures { IsName self.now }
    {
        let _ = &self.bytes;
    }

    /// Its bytes.
    pub fn as_slice(&self) -> &[u8]
        ensures bytes { result.now ≡ self.now }
        ensures name { IsName self.now }
    {
        &self.bytes
    }

    /// The same name once more.
    pub fn copy(&self, alloc: Global) -> Result<Name, AllocError>
        ensures { IfOk result (λ same. same ≡ self.now) }
    {
        Name::from_slice(alloc, &self.bytes)
    }
}
