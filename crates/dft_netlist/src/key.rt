//! Names as keys, which are found by their bytes.

ghost use Rattle.std.specs.Cmp as order;
ghost use Rattle.std.specs.Cmp.{on_equiv, on_per};
ghost use Rattle.std.specs.Cmp.Lexicographic.{bytes_decides, nat_list_eq_equiv};
ghost use Rattle.std.specs.Hash as fed;
ghost use Rattle.std.specs.Str.{bytes_eq};
ghost use Rattle.std.proofs.Common.{ap};

use dft_base::Name;
use indexmap::Equivalent;
use std::hash::{Hash, Hasher};

// A name that is a key.
#[derive(Debug, Drop)]
pub(crate) struct Key {
    pub(crate) name: Name,
}

impl PartialEq for Key {
    ghost eq = { λ x y. bytes_eq x.name y.name };

    ghost laws = { on_per (λ k. k.name) (order.partial_equiv_from_equiv nat_list_eq_equiv) };

    fn eq(&self, other: &Key) -> bool {
        self.name.as_slice() == other.name.as_slice()
    }
}

impl Eq for Key {
    ghost laws = { on_equiv (λ k. k.name) nat_list_eq_equiv };
}

impl Hash for Key {
    ghost hash_input = { λ k. fed.slice fed.u8 k.name };

    ghost respects_eq = { λ x y h. ap (fed.slice fed.u8) ((bytes_decides x.name y.name).0 h) };

    fn hash<H: Hasher>(&self, state: &mut H) {
        self.name.as_slice().hash(state);
    }
}

impl Equivalent<Key> for &[u8] {
    ghost equivalent = { λ q k. bytes_eq q.now k.name };

    ghost respects_hash = { λ q k h. ap (fed.slice fed.u8) ((bytes_decides q.now k.name).0 h) };

    ghost respects_eq = { λ q x y. nat_list_eq_equiv.congr q.now x.name y.name };

    fn equivalent(&self, key: &Key) -> bool {
        *self == key.name.as_slice()
    }
}
