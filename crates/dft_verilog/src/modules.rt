//! A module of a netlist text, by what was read of it (IEEE 1364, structural part).

ghost use Rattle.std.specs.Prelude.{◌≡◌, ◌≤◌, length, IfOk, OnOk};
ghost use Rattle.dft_modules.specs.ModuleTexts as spec;
ghost use Rattle.dft_verilog.specs.Passing.{HasPassed};
ghost use Rattle.dft_verilog.specs.SaidParts.{GivesFinals, named_module, netted_module};
ghost use Rattle.dft_verilog_module.specs.SaidModules.{said};

use crate::final_nets::port_numbers;
use crate::module_items::add_items;
use crate::module_nets::{add_others, add_ports, all_numbers};
use crate::places::Passed;
use dft_modules::Module;
use dft_netlist::NetId;
use dft_verilog_draft::ModuleDraft;
use dft_verilog_module::SaidModule;
use dft_verilog_tokens::MAX_TEXT;
use std::alloc::{AllocError, Global};

// A module with the name of a draft, which has nothing yet.
fn named(alloc: Global, draft: &ModuleDraft<'_>) -> Result<Module, AllocError>
    ensures { IfOk result (λ made. made ≡ named_module draft.now) }
{
    let name = draft.name().copy(alloc)?;
    Ok(Module::new(alloc, name))
}

// Adds the ports and nets of a draft, and gives the final numbers of its nets.
fn add_nets(
    alloc: Global,
    made: &mut Module,
    draft: &ModuleDraft<'_>,
) -> Result<Vec<NetId>, AllocError>
    requires { made.old ≡ named_module draft.now }
    ensures made { OnOk result (made.new ≡ netted_module draft.now) }
    ensures finals { IfOk result (λ finals. GivesFinals draft.now finals.items) }
{
    let ports = draft.ports();
    let names = draft.nets();
    let numbers = port_numbers(alloc, ports, draft.net_count())?;
    add_ports(alloc, made, names, ports)?;
    let finals = all_numbers(alloc, &numbers, made.nets().len())?;
    add_others(alloc, made, names, &numbers)?;
    Ok(finals)
}

/// The module that was said.
pub fn module_said(
    alloc: Global,
    text: &[u8],
    passed: &mut Passed,
    said_module: &SaidModule<'_>,
) -> Result<Module, AllocError>
    requires few { length text.now ≤ MAX_TEXT }
    requires passed { HasPassed text.now passed.old }
    ensures said { IfOk result (λ made. made ≡ spec.module_said text.now (said said_module.now.draft said_module.now.subs.items)) }
    ensures passed { HasPassed text.now passed.new }
{
    let draft = &said_module.draft;
    let mut made = named(alloc, draft)?;
    let finals = add_nets(alloc, &mut made, draft)?;
    add_items(
        alloc,
        text,
        passed,
        &mut made,
        &finals,
        draft,
        &said_module.subs,
    )?;
    Ok(made)
}
