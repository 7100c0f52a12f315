ghost use Rattle.std.specs.Prelude.{◌≡◌, None, slice_index_or};

use crate::judged::Judged;
use dft_netlist::InstanceId;
use std::marker::Model;

/// How each instance of a design is judged. A clause sees the judgements as a list, by the numbers of the instances.
#[derive(Debug)]
pub struct Verdicts {
    pub(crate) verdicts: Vec<Option<Judged>>,
}

// One call for all fields, so that the proof of what owns a value stays short.
impl Drop for Verdicts {
    fn drop(self) {
        let Verdicts { verdicts: _ } = self;
    }
}

impl Model for Verdicts {
    ghost use Rattle.std.specs.Prelude.{List, Option};
    ghost use Rattle.dft_rules.specs.declared.judged.Judged.{Judged};

    ghost Value = { List (Option Judged) };

    ghost view = { λ v. v.verdicts.items };
}

impl Verdicts {
    /// How this instance is judged; one that is no flip-flop is not.
    pub fn of(&self, cell: InstanceId) -> Option<Judged>
        ensures { result ≡ slice_index_or self.now cell.0 None }
    {
        match self.verdicts.get(cell.0 as usize) {
            Some(verdict) => *verdict,
            None => None,
        }
    }
}
