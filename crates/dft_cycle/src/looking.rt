//! All looks: which is at the nets that are asked for, and which is noted or made.

ghost use Rattle.std.specs.Prelude.{◌≡◌, ℕ, ◌<◌, length, true, false};
ghost use Rattle.dft_logic.specs.Values as spec;
ghost use Rattle.dft_logic.specs.Circuit.{logic_at, flag_at as is_up};
ghost use Rattle.dft_takings.specs.Needs.{AreSeen};
ghost use Rattle.dft_cycle.specs.Looks.{AreLooks};

use crate::looks::{Look, find_look};
use crate::phases::Strobe;
use crate::planning::next_place;
use dft_base::Tri;
use dft_logic::Circuit;
use dft_netlist::NetId;

// The looks at the last nets that were asked for, and room for a list that one is made from. Then the places of the look that was noted last and of the one that
// was taken last.
#[derive(Drop)]
pub(crate) struct Looks {
    pub looks: Vec<Look>,
    pub list: Vec<NetId>,
    pub noted: usize,
    pub taken: usize,
}

impl Looks {
    // Notes a look at these nets, in place of another.
    fn note(&mut self, circuit: &Circuit, nets: &[NetId])
        requires looks { AreLooks circuit.now self.old }
        ensures { AreLooks circuit.now self.new }
    {
        let place = next_place(self.noted, self.taken, self.looks.len());
        self.looks[place].note(circuit, nets);
        self.noted = place;
    }

    // Reads the values of a strobe's nets by a look at them, if there is one; it is made if the nets were asked for
    // before. Where there is none, one is noted. Whether they were read.
    pub(crate) fn read(
        &mut self,
        strobe: Strobe<'_>,
        values: &mut [Tri],
        marked: &mut [bool],
        row: &mut [Tri],
    ) -> bool
        requires looks { AreLooks strobe.circuit.now self.old }
        requires values { length values.old ≡ length strobe.circuit.now.ops }
        requires marked { length marked.old ≡ length strobe.circuit.now.ops }
        requires clear { (k : ℕ) → is_up marked.old k ≡ false }
        requires row { length row.old ≡ length strobe.nets.now }
        ensures looks { AreLooks strobe.entry.circuit.now self.new }
        ensures clear { (k : ℕ) → is_up marked.new k ≡ false }
        ensures seen { result ≡ true → AreSeen (logic_at strobe.entry.circuit.now) (spec.value_at strobe.entry.ports.now) (spec.value_at strobe.entry.cells.now.values) strobe.entry.nets.now row.new }
    {
        match find_look(&self.looks, strobe.nets) {
            Some(place) => {
                self.taken = place;
                self.looks[place].see(strobe, values, marked, &mut self.list, row);
                true
            }
            None => {
                self.note(strobe.circuit, strobe.nets);
                false
            }
        }
    }
}
