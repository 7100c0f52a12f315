//! Sets of stages with their stamps, so that two of them are compared in one step where they differ.

ghost use Rattle.std.specs.Prelude.{◌≡◌, length};
ghost use Rattle.dft_decompressor.specs.StageSets as sets;
ghost use Rattle.dft_decompressor.specs.Stamps as spec;

use dft_base::Listed;
use std::marker::Model;

// A set, and its stamp.
pub(crate) struct Stamped {
    stamp: u64,
    set: Listed<bool>,
}

// One call for all fields, so that the proof of what owns a value stays short.
impl Drop for Stamped {
    fn drop(self) {
        let Stamped { stamp: _, set: _ } = self;
    }
}

impl Model for Stamped {
    ghost use Rattle.std.specs.Prelude.{List, Bool};

    ghost Value = { List Bool };

    ghost use Rattle.dft_decompressor.specs.StampsShown.{set_in, IsStamped};

    ghost view = { set_in };

    ghost invariant = { IsStamped };
}

impl Stamped {
    // A set with its stamp.
    pub(crate) fn of(set: Listed<bool>) -> Stamped
        ensures { result ≡ set }
    {
        Stamped {
            stamp: stamp_of(set.as_slice()),
            set,
        }
    }

    // The set.
    pub(crate) fn set(&self) -> &[bool]
        ensures { result.now ≡ self.now }
    {
        self.set.as_slice()
    }

    // Whether it is the same as a set with this stamp.
    pub(crate) fn is_same(&self, stamp: u64, set: &[bool]) -> bool
        requires { stamp ≡ spec.stamp_of set.now }
        ensures { result ≡ sets.same_set self.now set.now }
    {
        if self.stamp != stamp {
            return false;
        }
        same_set(self.set.as_slice(), set)
    }
}

/// A stamp that is carried on by one more bit: the stamp of bits begins with 0, and the same bits give the same stamp.
pub fn carried(stamp: u64, bit: bool) -> u64
    ensures { result ≡ spec.carried stamp bit }
{
    if bit {
        stamp.wrapping_mul(3).wrapping_add(1)
    } else {
        stamp.wrapping_mul(3)
    }
}

// The stamp of a set.
pub(crate) fn stamp_of(set: &[bool]) -> u64
    ensures { result ≡ spec.stamp_of set.now }
{
    let mut stamp = 0;
    for bit in set {
        stamp = carried(stamp, *bit);
    }
    stamp
}

// Whether two sets are the same.
fn same_set(a: &[bool], b: &[bool]) -> bool
    ensures { result ≡ sets.same_set a.now b.now }
{
    if a.len() != b.len() {
        return false;
    }
    for place in 0..a.len() {
        if a[place] != b[place] {
            return false;
        }
    }
    true
}
