//! What a vector compares: which bits, and what their values decide.

ghost use Rattle.std.specs.Prelude.{◌≡◌, ◌<◌, ◌≤◌, ◌^◌, ℕ, length, map, IfSome};
ghost use Rattle.std.specs.Vec.{vec_capacity};
ghost use Rattle.dft_base.specs.declared.tri.Tri.{Tri};
ghost use Rattle.dft_netlist.specs.Orders.{numbers_of};
ghost use Rattle.dft_takings.specs.Needs.{IsStrobe};
ghost use Rattle.dft_cycle.specs.Machine.{logic, value_at};
ghost use Rattle.dft_replay.specs.Looks.{asked_of, decided_seen, AreBefore};
ghost use Rattle.dft_replay.specs.Rows.{compared_from};
ghost use Rattle.dft_replay.specs.Verdicts.{IsPlaced};

use crate::acts::{differs, printed};
use crate::verdict::{Unknowns, Verdict};
use dft_base::Tri;
use dft_cycle::AbstractMachine;
use dft_netlist::NetId;
use dft_patterns::Act;

// A bit that a vector compares: the number of its signal, and the bit that is printed.
#[derive(Clone, Copy)]
pub(crate) struct Asked {
    pub signal: u32,
    pub printed: bool,
}

// Lists what a vector compares, in the order of the signals: the nets, and beside them what is printed.
pub(crate) fn list_compared(
    nets: &[NetId],
    acts: &[Act],
    wanted: &mut Vec<NetId>,
    asked: &mut Vec<Asked>,
)
    requires acts { length acts.now ≡ length nets.now }
    requires few { length nets.now < 2 ^ 32 }
    requires wanted { length nets.now ≤ vec_capacity wanted.old }
    requires asked { length nets.now ≤ vec_capacity asked.old }
    ensures nets { numbers_of wanted.new.items ≡ map (λ c. c.net) (compared_from 0 (numbers_of nets.now) acts.now) }
    ensures printed { asked.new.items ≡ map asked_of (compared_from 0 (numbers_of nets.now) acts.now) }
    ensures wanted_room { vec_capacity wanted.new ≡ vec_capacity wanted.old }
    ensures asked_room { vec_capacity asked.new ≡ vec_capacity asked.old }
{
    wanted.clear();
    asked.clear();
    for (signal, act) in acts.iter().enumerate() {
        if let Some(printed) = printed(*act) {
            wanted.push_reserved(nets[signal]);
            asked.push_reserved(Asked {
                signal: signal as u32,
                printed,
            });
        }
    }
}

// What the first of these bits that does not have the printed value comes to, if there is one.
fn decide(unknowns: Unknowns, vector: u32, asked: &[Asked], seen: &[Tri]) -> Option<Verdict>
    requires { length seen.now ≡ length asked.now }
    ensures first { result ≡ decided_seen unknowns vector asked.now seen.now }
    ensures placed { (vectors signals : ℕ) → vector < vectors → AreBefore signals asked.now → IfSome result (IsPlaced vectors signals) }
{
    for (place, value) in seen.iter().enumerate() {
        let bit = asked[place];
        let decision = differs(unknowns, vector, bit.signal, *value, bit.printed);
        if decision.is_some() {
            return decision;
        }
    }
    None
}

// What the values of these nets at a strobe come to, compared with what is printed.
pub(crate) fn compare(
    machine: &mut AbstractMachine<'_>,
    unknowns: Unknowns,
    vector: u32,
    wanted: &[NetId],
    asked: &[Asked],
    seen: &mut [Tri],
) -> Option<Verdict>
    requires asked { length asked.now ≡ length wanted.now }
    requires room { length wanted.now ≤ length seen.old }
    ensures same { machine.new ≡ machine.old }
    ensures room { length seen.new ≡ length seen.old }
    ensures first { (values : ℕ → Tri) → IsStrobe (logic machine.old) (value_at machine.old.inputs) (value_at machine.old.cells) values
        → result ≡ decided_seen unknowns vector asked.now (map (λ net. values net.0) wanted.now) }
    ensures placed { (vectors signals : ℕ) → vector < vectors → AreBefore signals asked.now → IfSome result (IsPlaced vectors signals) }
{
    let row = &mut seen[..wanted.len()];
    machine.look(wanted, row);
    decide(unknowns, vector, asked, row)
}
