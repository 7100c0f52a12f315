//! How many instances a netlist has with compression hardware under a configuration, or that it has too many.

ghost use Rattle.std.specs.Prelude.{◌≡◌, ◌≤◌, None, length};
ghost use Rattle.dft_rules.specs.Refusals.{refusal};
ghost use Rattle.dft_rules.specs.Rules.{judgements};
ghost use Rattle.dft_stitch.specs.Chains.{plan_of};

use dft_cells::Library;
use dft_config::Config;
use dft_insert::{InsertError, Style, insert};
use dft_netlist::{Counted, Design};
use dft_netlist_reader::read;
use dft_rules::{Verdicts, judge};
use dft_stitch::{Chains, StitchError, plan};
use dft_verilog::MAX_TEXT;
use std::alloc::{AllocError, Global};

// How many instances are made of these texts.
pub(crate) fn line_for(alloc: Global, netlist: &str, config: &str) -> Result<String, AllocError> {
    if netlist.len() > MAX_TEXT || config.len() > 65_536 {
        return String::from_str(alloc, "too long");
    }
    let library = Library::standard(alloc)?;
    match read(alloc, netlist.as_bytes(), library) {
        Ok(design) => configured(alloc, &design, config),
        Err(_) => String::from_str(alloc, "no netlist"),
    }
}

fn configured(alloc: Global, design: &Design, config: &str) -> Result<String, AllocError>
    requires { length config.now ≤ 65536 }
{
    match dft_config_text::read(alloc, config.as_bytes()) {
        Ok(config) => judged(alloc, design, &config),
        Err(_) => String::from_str(alloc, "no configuration"),
    }
}

fn judged(alloc: Global, design: &Design, config: &Config) -> Result<String, AllocError> {
    match judge(alloc, design, config) {
        Ok(verdicts) => planned(alloc, design, config, &verdicts),
        Err(_) => String::from_str(alloc, "refused by the rules"),
    }
}

fn planned(
    alloc: Global,
    design: &Design,
    config: &Config,
    verdicts: &Verdicts,
) -> Result<String, AllocError>
    requires passed { refusal design.now config.now ≡ None }
    requires verdicts { verdicts.now ≡ judgements design.now config.now }
{
    match plan(alloc, design, config, verdicts) {
        Ok(chains) => counted(alloc, design, config, &chains),
        Err(StitchError::TooMany { .. }) => String::from_str(alloc, "N4"),
        Err(StitchError::Memory(error)) => Err(error),
    }
}

fn counted(
    alloc: Global,
    design: &Design,
    config: &Config,
    chains: &Chains,
) -> Result<String, AllocError>
    requires passed { refusal design.now config.now ≡ None }
    requires planned { chains.now ≡ plan_of design.now config.now }
{
    match insert(alloc, design, config, chains, Style::Edt) {
        Ok(scanned) => {
            let count = scanned.design.instances().len();
            format!(in alloc; "{count} instances")
        }
        Err(error) => refused(alloc, &error),
    }
}

// How a refusal of insertion is told here.
fn refused(alloc: Global, error: &InsertError) -> Result<String, AllocError> {
    match error {
        InsertError::TooMany {
            what: Counted::Instances,
            ..
        } => String::from_str(alloc, "N4 instances"),
        _ => String::from_str(alloc, "refused"),
    }
}
