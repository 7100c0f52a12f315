ghost use Rattle.std.specs.Prelude.{◌≡◌};

use std::marker::Model;

/// Items in order. A clause sees them as a list.
#[derive(Debug)]
pub struct Listed<T> {
    entries: Vec<T>,
}

// One call for all fields, so that the proof of what owns a value stays short.
impl<T: Drop> Drop for Listed<T> {
    fn drop(self) {
        let Listed { entries: _ } = self;
    }
}

impl<T> Model for Listed<T> {
    ghost use Rattle.std.specs.Prelude.{List};

    ghost Value = { List T };

    ghost view = { λ l. l.entries.items };
}

impl<T> Listed<T> {
    /// The items of a vector.
    pub fn from_vec(entries: Vec<T>) -> Listed<T>
        ensures { result ≡ entries.items }
    {
        Listed { entries }
    }

    /// The items.
    pub fn as_slice(&self) -> &[T]
        ensures { result.now ≡ self.now }
    {
        &self.entries
    }

    /// The items as a vector.
    pub fn into_vec(self) -> Vec<T>
        ensures { result.items ≡ self }
    {
        let Listed { entries } = self;
        entries
    }
}
