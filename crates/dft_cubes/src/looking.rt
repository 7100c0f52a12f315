//! What the names of a line stand for.

ghost use Rattle.std.specs.Prelude.{◌≡◌, ◌≤◌, ◌<◌, IfSome, length};
ghost use Rattle.dft_rules.specs.Rules as rules;
ghost use Rattle.dft_cubes.specs.Cubes as spec;

use dft_base::Name;
use dft_cells::Kind;
use dft_config::Config;
use dft_netlist::{Design, InstanceId};

// Whether flip-flops of this kind may be scanned.
fn may_be_scanned(kind: Kind) -> bool
    ensures { result ≡ rules.may_be_scanned kind }
{
    match kind {
        Kind::Flop(flop) => !flop.scan,
        _ => false,
    }
}

#[tactic(auto, using(dft_netlist::proofs::LookUpLemmas::instance_there))]
// The flip-flop with this name that may be scanned.
pub(crate) fn flip_flop_named(design: &Design, name: &[u8]) -> Option<InstanceId>
    ensures found { result ≡ rules.flip_flop_named design.now name.now }
    ensures live { IfSome result (λ cell. cell.0 < length design.now.instances) }
{
    let id = design.find_instance(name)?;
    if may_be_scanned(design.kind(id)) {
        Some(id)
    } else {
        None
    }
}

// The place of a clock among the domains.
pub(crate) fn domain_named(config: &Config, clock: &[u8]) -> Option<usize>
    ensures place { result ≡ spec.domain_named config.now clock.now }
    ensures within { IfSome result (λ place. place < length config.now.domains) }
{
    config
        .domains()
        .iter()
        .position(|name| name.as_slice() == clock)
}

// Whether one of these names has these bytes.
pub(crate) fn is_among(names: &[Name], bytes: &[u8]) -> bool
    ensures { result ≡ spec.is_among names.now bytes.now }
{
    names.iter().any(|name| name.as_slice() == bytes)
}
