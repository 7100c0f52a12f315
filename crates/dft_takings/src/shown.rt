//! What nets show of the domains that pulse.

ghost use Rattle.std.specs.Prelude.{◌≡◌, ℕ, ◌∷◌, [], length, map, true};
ghost use Rattle.dft_netlist.specs.Drivers.{nets_of};
ghost use Rattle.dft_takings.specs.Shows as shows;
ghost use Rattle.dft_takings.specs.Shows.{IsShownOn};
ghost use Rattle.dft_logic.specs.Circuit.{meaning, source_at, logic_at, cell_of, cell_at, flag_at as is_up};
ghost use Rattle.dft_takings.specs.ShownTables.{shown_of, shown_at, shown_in, edges_of};

use crate::settling::changes_at;
use dft_logic::{Circuit, FlipFlop, Op, Operand, domain_at, flag_at, takes};
use dft_netlist::NetId;

/// What of the domains that pulse a net shows, by their flip-flops and clocks.
#[derive(Clone, Copy)]
pub enum Shown {
    Nothing,
    /// That of the domain of one clock.
    Domain(NetId),
    Several,
}

impl Shown {
    // Whether what shows this is as at the strobe in the view of a domain.
    pub(crate) fn is_still(self, view: NetId) -> bool
        ensures { result ≡ shows.is_still view.0 (shown_of self) }
    {
        match self {
            Shown::Nothing => true,
            Shown::Domain(domain) => domain.0 == view.0,
            Shown::Several => false,
        }
    }

    // What shows this and another show together.
    fn with(self, other: Shown) -> Shown
        ensures { shown_of result ≡ shows.with_shown (shown_of self) (shown_of other) }
    {
        match (self, other) {
            (Shown::Nothing, other) => other,
            (Shown::Domain(domain), Shown::Nothing) => Shown::Domain(domain),
            (Shown::Domain(domain), Shown::Domain(second)) => if domain.0 == second.0 {
                Shown::Domain(domain)
            } else {
                Shown::Several
            },
            (Shown::Domain(_), Shown::Several) => Shown::Several,
            (Shown::Several, _) => Shown::Several,
        }
    }
}

// What a net shows; past the end nothing.
pub(crate) fn shown_here(shown: &[Shown], net: NetId) -> Shown
    ensures { shown_of result ≡ shown_at shown.now net.0 }
{
    match shown.get(net.0 as usize) {
        Some(shown) => *shown,
        None => Shown::Nothing,
    }
}

// What an operand shows.
fn operand_shown(operand: &Operand, shown: &[Shown]) -> Shown
    ensures { shown_of result ≡ shows.shown_by (shown_at shown.now) (nets_of (source_at operand.now ∷ [])) }
{
    match operand {
        Operand::Net(net) => shown_here(shown, *net),
        Operand::Tied(_) => Shown::Nothing,
        Operand::Loose(_, _) => Shown::Nothing,
    }
}

// What a flip-flop or the clock of a domain shows, if it takes a value or pulses.
fn domain_shown(up: bool, domain: NetId) -> Shown
    ensures { shown_of result ≡ shows.domain_shown up domain.0 }
{
    if up {
        Shown::Domain(domain)
    } else {
        Shown::Nothing
    }
}

// What a lock-up of a domain shows that takes its bit.
fn held_shown(domain: NetId, input: Shown) -> Shown
    ensures { shown_of result ≡ shows.held_shown domain.0 (shown_of input) }
{
    if input.is_still(domain) {
        Shown::Nothing
    } else {
        Shown::Several
    }
}

// What another one shows.
fn open_shown(up: bool, high: bool, domain: NetId, input: Shown) -> Shown
    ensures { shown_of result ≡ shows.open_shown up high domain.0 (shown_of input) }
{
    match (up, high) {
        (true, _) => Shown::Domain(domain),
        (false, true) => Shown::Nothing,
        (false, false) => input,
    }
}

// What a lock-up of a domain shows.
fn lockup_shown(rising: bool, up: bool, high: bool, domain: NetId, input: Shown) -> Shown
    ensures { shown_of result ≡ shows.lockup_shown rising up high domain.0 (shown_of input) }
{
    if !takes(rising, high) {
        open_shown(up, high, domain, input)
    } else if rising || up {
        held_shown(domain, input)
    } else {
        Shown::Nothing
    }
}

// What the inputs of a gate show together, from the last to the first.
fn inputs_shown(inputs: &[Operand], shown: &[Shown]) -> Shown
    ensures { shown_of result ≡ shows.shown_by (shown_at shown.now) (nets_of (map source_at inputs.now)) }
{
    let mut together = Shown::Nothing;
    for place in (0..inputs.len()).rev() {
        together = operand_shown(&inputs[place], shown).with(together);
    }
    together
}

// Clocks that rise, or fall.
#[derive(Clone, Copy)]
struct Edges<'a> {
    rising: bool,
    pulsed: &'a [bool],
}

// What a net shows by its driver.
fn op_shown(op: &Op, net: NetId, flops: &[FlipFlop], edges: Edges<'_>, shown: &[Shown]) -> Shown
    ensures { shown_of result ≡ shown_in (map cell_of flops.now) edges.entry.rising (is_up edges.entry.pulsed.now) (shown_at shown.now) net.0 (meaning op.now) }
{
    match op {
        Op::Clock => domain_shown(flag_at(edges.pulsed, net.0), net),
        Op::Gate(_, inputs) => inputs_shown(inputs.as_slice(), shown),
        Op::Joined(source) => operand_shown(source, shown),
        Op::Flop(instance, _) => domain_shown(
            changes_at(flops, edges.rising, edges.pulsed, instance.0),
            domain_at(flops, instance.0),
        ),
        Op::Lockup(_, domain, high, source) => lockup_shown(
            edges.rising,
            flag_at(edges.pulsed, domain.0),
            *high,
            *domain,
            operand_shown(source, shown),
        ),
        Op::Input => Shown::Nothing,
        Op::Free => Shown::Nothing,
    }
}

/// Tells of every net what it shows where these clocks rise, or fall, in the circuit's order.
pub fn show_all(circuit: &Circuit, rising: bool, pulsed: &[bool], shown: &mut [Shown])
    requires shown { length shown.old ≡ length circuit.now.ops }
    ensures { IsShownOn (logic_at circuit.now) (edges_of rising (is_up pulsed.now)) (λ net. true) (shown_at shown.new) }
{
    let edges = Edges { rising, pulsed };
    for net in &circuit.order {
        let op = &circuit.ops[net.0 as usize];
        let given = op_shown(op, *net, &circuit.flops, edges, shown);
        shown[net.0 as usize] = given;
    }
}
