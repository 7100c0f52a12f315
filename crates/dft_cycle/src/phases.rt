//! A phase of a pulse, a strobe, and the search for a least map, as what calls of the machine's parts are about.

ghost use Rattle.std.specs.Prelude.{◌≡◌, replicate, false, IfOk};

use dft_base::Tri;
use dft_logic::Circuit;
use dft_netlist::NetId;
use dft_registers::Cells;
use dft_takings::Pulse;
use std::alloc::{AllocError, Global};

// A phase of a pulse in a circuit whose clocks are these.
#[derive(Clone, Copy)]
pub(crate) struct Phase<'a> {
    pub circuit: &'a Circuit,
    pub clocks: &'a [NetId],
    pub pulse: Pulse<'a>,
}

// A strobe of a circuit: the values of its ports and of its flip-flops, and the nets that are asked for.
#[derive(Clone, Copy)]
pub(crate) struct Strobe<'a> {
    pub circuit: &'a Circuit,
    pub ports: &'a [Tri],
    pub cells: &'a Cells<Tri>,
    pub nets: &'a [NetId],
}

// The views of a phase at a map of flip-flops' values, with lock-ups held at values.
#[derive(Clone, Copy)]
pub(crate) struct Views<'a> {
    pub phase: Phase<'a>,
    pub poss: &'a [Tri],
    pub held: &'a [Tri],
}

// Where the search for the least map of a phase stands, with an entry for each flip-flop: the map, the values that
// lock-ups are held at, and the next values.
pub(crate) struct Search {
    pub poss: Vec<Tri>,
    pub held: Vec<Tri>,
    pub next: Vec<Tri>,
}

// One call for all fields, so that the proof of what owns a value stays short.
impl Drop for Search {
    fn drop(self) {
        let Search {
            poss: _,
            held: _,
            next: _,
        } = self;
    }
}

// The room in which a machine works: the values of all nets in a view, the nets that are marked to be settled, the search for a
// least map, and the values of nets that a plan or a look settles.
pub(crate) struct Room {
    pub values: Vec<Tri>,
    pub marked: Vec<bool>,
    pub search: Search,
    pub quick: Vec<Tri>,
}

// One call for all fields, so that the proof of what owns a value stays short.
impl Drop for Room {
    fn drop(self) {
        let Room {
            values: _,
            marked: _,
            search: _,
            quick: _,
        } = self;
    }
}

impl Search {
    // A search for so many flip-flops, whose values nobody knows.
    fn prepare(alloc: Global, count: usize) -> Result<Search, AllocError>
        ensures poss { IfOk result (λ search. search.poss.items ≡ replicate count Tri.Unknown) }
        ensures held { IfOk result (λ search. search.held.items ≡ replicate count Tri.Unknown) }
        ensures next { IfOk result (λ search. search.next.items ≡ replicate count Tri.Unknown) }
    {
        Ok(Search {
            poss: vec![in alloc; Tri::Unknown; count]?,
            held: vec![in alloc; Tri::Unknown; count]?,
            next: vec![in alloc; Tri::Unknown; count]?,
        })
    }
}

impl Room {
    // Room for so many nets and instances, of which nothing is known.
    pub(crate) fn prepare(alloc: Global, nets: usize, count: usize) -> Result<Room, AllocError>
        ensures values { IfOk result (λ room. room.values.items ≡ replicate nets Tri.Unknown) }
        ensures marked { IfOk result (λ room. room.marked.items ≡ replicate nets false) }
        ensures poss { IfOk result (λ room. room.search.poss.items ≡ replicate count Tri.Unknown) }
        ensures held { IfOk result (λ room. room.search.held.items ≡ replicate count Tri.Unknown) }
        ensures next { IfOk result (λ room. room.search.next.items ≡ replicate count Tri.Unknown) }
        ensures quick { IfOk result (λ room. room.quick.items ≡ replicate nets Tri.Unknown) }
    {
        Ok(Room {
            values: vec![in alloc; Tri::Unknown; nets]?,
            marked: vec![in alloc; false; nets]?,
            search: Search::prepare(alloc, count)?,
            quick: vec![in alloc; Tri::Unknown; nets]?,
        })
    }
}
